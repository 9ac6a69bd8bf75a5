// Tests 2 to 4: a message's length, its bit map, and where its fields end.
ghost use Rattle.std.specs.Prelude.{◌≡◌, suc, ◌+◌, ◌*◌, ◌<◌, ◌≤◌, length, drop};
ghost use Rattle.base.specs.Outcome.{accepted};
ghost use Rattle.base.specs.Refusal.{outcome};
ghost use Rattle.wire.specs.Layout.{repeated, extent, field_bits, map_in, place};
ghost use Rattle.wire.specs.Decode.{framed};
ghost use Rattle.wire.specs.Places.{TakesField, Lays, places_in};

use crate::layout::{
    DIGEST, ENTRY, LONGEST_MESSAGE, MAPS, PREPARED_HEAD, SIGNATURE, TIMESTAMP, WRITTEN_HEAD,
};
use base::refusal::Refusal;

// The bit map, and where each field starts, or would start if it were there.
#[derive(Drop)]
pub struct Places {
    pub map: u16,
    pub nonce: usize,
    pub timestamp: usize,
    pub digest: usize,
    pub card: usize,
    pub prepared: usize,
    pub written: usize,
    pub addressed: usize,
    pub register: usize,
    pub signature: usize,
}

// Where a field ends whose head ends with the number of units that follow it; none if the message ends before the number.
fn take_repeated(bytes: &[u8], head: usize, unit: usize, at: usize) -> Option<usize>
    requires { (1 ≤ head) × (head ≤ 38) × (unit ≤ 65) × (at ≤ 200_000) }
    ensures { TakesField bytes.now at (at + extent (repeated head unit) (drop at bytes.now)) result }
{
    let end = at + head;
    if bytes.len() < end {
        return None;
    }
    let count = usize::from(bytes[end - 1]);
    Some(end + unit * count)
}

// Where the field of a bit ends: where it starts if the bit is not set. A field of a fixed width is taken without a look at the end of
// the message: where one is cut, the test of the end fails, since places only rise.
fn take_field(bytes: &[u8], map: u16, bit: usize, at: usize) -> Option<usize>
    requires { (map ≡ map_in bytes.now) × (bit < field_bits) × (at ≡ place bytes.now bit) × (at ≤ 200_000) }
    ensures { TakesField bytes.now at (place bytes.now (suc bit)) result }
{
    if (map >> bit) % 2 == 0 {
        return Some(at);
    }
    match bit {
        2 => Some(at + 8),
        3 => Some(at + TIMESTAMP),
        4 => Some(at + DIGEST),
        5 => take_repeated(bytes, 1, 1, at),
        6 => take_repeated(bytes, PREPARED_HEAD, ENTRY, at),
        7 => take_repeated(bytes, WRITTEN_HEAD, ENTRY, at),
        _ => Some(at + 1),
    }
}

// Test 4, field after field, each from the end of the one before it. `let .. else` and no `?`: document 01 names this form for fields.
#[tactic(auto, using(crate::proofs::FieldEnds::place_first, crate::proofs::FieldEnds::place_short), unfolding(crate::specs::Places::places_in))]
fn lay(bytes: &[u8], map: u16) -> Result<Places, Refusal>
    requires { (map ≡ map_in bytes.now) × (2 ≤ length bytes.now) }
    ensures { Lays bytes.now result }
{
    let Some(sender) = take_field(bytes, map, 0, 2) else {
        return Err(Refusal::FieldLengths);
    };
    let Some(nonce) = take_field(bytes, map, 1, sender) else {
        return Err(Refusal::FieldLengths);
    };
    let Some(timestamp) = take_field(bytes, map, 2, nonce) else {
        return Err(Refusal::FieldLengths);
    };
    let Some(digest) = take_field(bytes, map, 3, timestamp) else {
        return Err(Refusal::FieldLengths);
    };
    let Some(card) = take_field(bytes, map, 4, digest) else {
        return Err(Refusal::FieldLengths);
    };
    let Some(prepared) = take_field(bytes, map, 5, card) else {
        return Err(Refusal::FieldLengths);
    };
    let Some(written) = take_field(bytes, map, 6, prepared) else {
        return Err(Refusal::FieldLengths);
    };
    let Some(addressed) = take_field(bytes, map, 7, written) else {
        return Err(Refusal::FieldLengths);
    };
    let Some(register) = take_field(bytes, map, 8, addressed) else {
        return Err(Refusal::FieldLengths);
    };
    let Some(signature) = take_field(bytes, map, 9, register) else {
        return Err(Refusal::FieldLengths);
    };
    if signature + SIGNATURE != bytes.len() {
        return Err(Refusal::FieldLengths);
    }
    Ok(Places {
        map,
        nonce,
        timestamp,
        digest,
        card,
        prepared,
        written,
        addressed,
        register,
        signature,
    })
}

// Tests 2 to 4: the places of the fields, or the refusal.
pub fn frame(bytes: &[u8]) -> Result<Places, Refusal>
    ensures { outcome result ≡ framed bytes.now (accepted (places_in bytes.now)) }
{
    if bytes.len() < 2 || LONGEST_MESSAGE < bytes.len() {
        return Err(Refusal::MessageLength);
    }
    let map = u16::from_be_bytes([bytes[0], bytes[1]]);
    if map % 4 != 3 || MAPS <= map {
        return Err(Refusal::BitMap);
    }
    lay(bytes, map)
}

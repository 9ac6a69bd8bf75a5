// The message reader: tests 2 to 5 on bytes of any number and value.
ghost use Rattle.std.specs.Prelude.{◌≡◌, ◌<◌, [], ◌∷◌, slice_index};
ghost use Rattle.base.specs.Outcome.{accepted};
ghost use Rattle.base.specs.Refusal.{outcome};
ghost use Rattle.wire.specs.Decode.{kinds, without, framed, fields_in, reading};
ghost use Rattle.wire.specs.Kind.{kind_number, kind_of_number};
ghost use Rattle.wire.specs.Kinds.{suiting};
ghost use Rattle.wire.specs.Places.{places_in};

use crate::frame::Places;
use crate::message::{Fields, Kind, Party, Span};
use crate::numbers::{eight_bytes, first_byte};
use crate::parts;
use base::party::{ClientId, RegisterId};
use base::refusal::Refusal;
use base::slices::between;

// A map without a bit.
fn without(map: u16, bit: u16) -> u16
    requires { bit < 16 }
    ensures { result ≡ without (bit ∷ []) map }
{
    if (map >> bit) % 2 == 1 {
        let one: u16 = 1;
        return map - (one << bit);
    }
    map
}

// Test 5: the kinds that replicas and clients take, by the bits that they have.
#[tactic(auto, unfolding(crate::specs::Kinds::suiting, crate::specs::Decode::kinds))]
fn suits(party: Party, kind: Kind, map: u16) -> bool
    ensures { result ≡ suiting party map (kind_number kind) kinds }
{
    match (party, kind) {
        (Party::Replica, Kind::ReadStamp | Kind::Read) => map == 0x207,
        (Party::Replica, Kind::Prepare) => without(without(map, 6), 7) == 0x21b,
        (Party::Replica, Kind::Write) => map == 0x263,
        (Party::Client, Kind::Stamp) => without(map, 6) == 0x307,
        (Party::Client, Kind::Prepared) => map == 0x21b,
        (Party::Client, Kind::Written) => map == 0x20b,
        (Party::Client, Kind::Card) => without(map, 6) == 0x327,
        _ => false,
    }
}

// The fields of bytes that passed tests 2 to 4 and name this kind.
fn fields(bytes: &[u8], places: Places, kind: Kind) -> Fields
    requires { (framed bytes.now (accepted (places_in bytes.now)) ≡ accepted places) × (kind_of_number (slice_index bytes.now 2) ≡ Some kind) }
    ensures { result ≡ fields_in bytes.now }
{
    let nonce = eight_bytes(between(bytes, places.nonce, places.timestamp));
    let timestamp = parts::timestamp(between(bytes, places.timestamp, places.digest));
    let addressed = first_byte(between(bytes, places.addressed, places.register));
    let register = first_byte(between(bytes, places.register, places.signature));
    Fields {
        map: places.map,
        kind,
        sender: bytes[3],
        nonce,
        timestamp,
        digest: Span {
            start: places.digest,
            end: places.card,
        },
        card: Span {
            start: places.card,
            end: places.prepared,
        },
        prepared: Span {
            start: places.prepared,
            end: places.written,
        },
        written: Span {
            start: places.written,
            end: places.addressed,
        },
        addressed: ClientId(addressed),
        register: RegisterId(register),
        signature: Span {
            start: places.signature,
            end: bytes.len(),
        },
    }
}

// What a message is to the party that is handed it: its fields, or the refusal.
#[tactic(auto, using(crate::proofs::KindTests::suited, crate::proofs::KindTests::not_suited, crate::proofs::KindTests::not_named, crate::proofs::KindTests::not_framed, crate::proofs::Passing::passed_on))]
pub fn read(party: Party, bytes: &[u8]) -> Result<Fields, Refusal>
    ensures { outcome result ≡ reading party bytes.now }
{
    let places = crate::frame::frame(bytes)?;
    let Some(kind) = Kind::of(bytes[2]) else {
        return Err(Refusal::Kind);
    };
    if !suits(party, kind, places.map) {
        return Err(Refusal::Kind);
    }
    Ok(fields(bytes, places, kind))
}

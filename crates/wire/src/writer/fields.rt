// The fields of a message: each function stores one from a place on and answers the place behind it.
ghost use Rattle.std.specs.Prelude.{◌+◌, ◌<◌, ◌≤◌, [], ◌∷◌, ◌++◌, length};
ghost use Rattle.base.specs.BigEndian.{to_bytes};
ghost use Rattle.base.specs.Timestamp.{number};
ghost use Rattle.wire.specs.Kind.{kind_number};
ghost use Rattle.wire.specs.Putting.{Put, sized_card};
ghost use Rattle.wire.specs.Writing.{blank_signature, kept_card};

use crate::layout::{CARD_ROOM, LONGEST_CARD, SIGNATURE};
use crate::message::Kind;
use base::big_endian::{to_eight, to_two};
use base::party::RegisterId;
use base::timestamp::Timestamp;

// All of some bytes.
pub(super) fn put_bytes(out: &mut [u8], at: usize, bytes: &[u8]) -> usize
    requires { at + length bytes.now ≤ length out.old }
    ensures { Put out.old at bytes.now (length bytes.now) result out.new }
{
    let end = at + bytes.len();
    out[at..end].copy_from_slice(bytes);
    end
}

pub(super) fn put_byte(out: &mut [u8], at: usize, byte: u8) -> usize
    requires { at < length out.old }
    ensures { Put out.old at (byte ∷ []) 1 result out.new }
{
    out[at] = byte;
    at + 1
}

// The bit map, the kind and the sender.
#[tactic(auto, unfolding(base::specs::BigEndian::to_bytes))]
pub(super) fn put_head(out: &mut [u8], map: u16, kind: Kind, sender: u8) -> usize
    requires { 4 ≤ length out.old }
    ensures { Put out.old 0 (to_bytes 2 map ++ (to_bytes 1 (kind_number kind) ++ to_bytes 1 sender)) 4 result out.new }
{
    let [high, low] = to_two(map);
    put_bytes(out, 0, &[high, low, kind.number(), sender])
}

pub(super) fn put_nonce(out: &mut [u8], at: usize, nonce: u64) -> usize
    requires { at + 8 ≤ length out.old }
    ensures { Put out.old at (to_bytes 8 nonce) 8 result out.new }
{
    put_bytes(out, at, &to_eight(nonce))
}

pub(super) fn put_timestamp(out: &mut [u8], at: usize, timestamp: Timestamp) -> usize
    requires { at + 5 ≤ length out.old }
    ensures { Put out.old at (to_bytes 5 (number timestamp)) 5 result out.new }
{
    put_bytes(out, at, &timestamp.to_bytes())
}

// A digest of D bytes. By value: what is the function's own cannot overlap the output, so the compiler copies it whole.
fn put_digest<const D: usize>(out: &mut [u8], at: usize, digest: [u8; D]) -> usize
    requires { at + D ≤ length out.old }
    ensures { Put out.old at digest.entry D result out.new }
{
    put_bytes(out, at, &digest)
}

pub(super) fn put_timestamp_and_digest<const D: usize>(
    out: &mut [u8],
    at: usize,
    timestamp: Timestamp,
    digest: &[u8; D],
) -> usize
    requires { at + (5 + D) ≤ length out.old }
    ensures { Put out.old at (to_bytes 5 (number timestamp) ++ digest.now) (5 + D) result out.new }
{
    let behind = put_timestamp(out, at, timestamp);
    put_digest(out, behind, *digest)
}

// The sender's own signature: zeros, for the signing box to fill.
#[tactic(auto, unfolding(crate::specs::Writing::blank_signature))]
pub(super) fn put_signature(out: &mut [u8], at: usize) -> usize
    requires { at + 64 ≤ length out.old }
    ensures { Put out.old at blank_signature 64 result out.new }
{
    put_bytes(out, at, &[0; SIGNATURE])
}

// The register that the message is for.
#[tactic(auto, unfolding(base::specs::BigEndian::to_bytes))]
pub(super) fn put_register(out: &mut [u8], at: usize, register: RegisterId) -> usize
    requires { at < length out.old }
    ensures { Put out.old at (to_bytes 1 register.0) 1 result out.new }
{
    put_byte(out, at, register.0)
}

// The register, and the signature behind it.
pub(super) fn put_end(out: &mut [u8], at: usize, register: RegisterId) -> usize
    requires { at + 65 ≤ length out.old }
    ensures { Put out.old at (to_bytes 1 register.0 ++ blank_signature) 65 result out.new }
{
    let behind = put_register(out, at, register);
    put_signature(out, behind)
}

// The client addressed, and what stands behind it.
pub(super) fn put_addressed(out: &mut [u8], at: usize, client: u8, register: RegisterId) -> usize
    requires { at + 66 ≤ length out.old }
    ensures { Put out.old at (to_bytes 1 client ++ (to_bytes 1 register.0 ++ blank_signature)) 66 result out.new }
{
    let behind = put_byte(out, at, client);
    put_end(out, behind, register)
}

// A card behind its length. No KeptCard: that an array behind a struct's field has 17 bytes is not found.
pub(super) fn put_card(out: &mut [u8], at: usize, card: &[u8; CARD_ROOM], card_length: u8) -> usize
    requires { at + 18 ≤ length out.old }
    ensures { Put out.old at (sized_card (kept_card card_length card.now)) 18 result out.new }
{
    let count = card_length.min(LONGEST_CARD);
    let behind = put_byte(out, at, count);
    put_bytes(out, behind, &card[..usize::from(count)])
}

// The parts of a message that was read, and of its proofs: parts of the caller's slice, empty where there is none. And the
// register of bytes that may be no message.
ghost use Rattle.std.specs.Prelude.{◌≡◌, ◌+◌, drop};
ghost use Rattle.wire.specs.Parts.{last_register, part_at, card_at, timestamp_part, digest_part, count_part, entries_part};

use crate::layout::{DIGEST, REGISTER_AND_SIGNATURE, TIMESTAMP};
use crate::message::Span;
use base::party::RegisterId;
use base::slices::{behind, between};
use base::timestamp::Timestamp;

// The register that a message is for, by its last byte before the signature; 0 where there are too few bytes. Whether the bytes are
// a message for a register, tests 2 to 6 and 20 say.
#[tactic(auto, unfolding(crate::specs::Parts::last_register))]
pub fn last_register(bytes: &[u8]) -> RegisterId
    ensures { result ≡ last_register bytes.now }
{
    let Some(at) = bytes.len().checked_sub(REGISTER_AND_SIGNATURE) else {
        return RegisterId(0);
    };
    RegisterId(bytes[at])
}

// The bytes at a place: a digest, a proof, the signature.
pub fn part(bytes: &[u8], at: Span) -> &[u8]
    ensures { result.now ≡ part_at bytes.now at }
{
    between(bytes, at.start, at.end)
}

// The card at a place, behind its length byte.
pub fn card(bytes: &[u8], at: Span) -> &[u8]
    ensures { result.now ≡ card_at bytes.now at }
{
    behind(part(bytes, at), 1)
}

// The timestamp of a proof, prepared or written; 0.0 where there is none.
#[tactic(auto, unfolding(crate::specs::Parts::timestamp_part))]
pub fn timestamp(proof: &[u8]) -> Timestamp
    ensures { result ≡ timestamp_part proof.now }
{
    let [a, b, c, d, client, ..] = *proof else {
        return Timestamp::start();
    };
    Timestamp::from_bytes(a, b, c, d, client)
}

// The digest of a prepared proof.
#[tactic(auto, unfolding(crate::specs::Parts::digest_part))]
pub fn digest(proof: &[u8]) -> &[u8]
    ensures { result.now ≡ digest_part 32 proof.now }
{
    proof.get(TIMESTAMP..TIMESTAMP + DIGEST).unwrap_or(&[])
}

// What stands behind the timestamp and the digest, of D bytes, of a proof: a prepared one has a digest of DIGEST bytes, a written one of 0.
fn behind_digest<const D: usize>(proof: &[u8]) -> &[u8]
    ensures { result.now ≡ drop (5 + D) proof.now }
{
    behind(behind(proof, TIMESTAMP), D)
}

// How many entries a proof has.
#[tactic(auto, unfolding(crate::specs::Parts::count_part))]
pub fn entry_count<const D: usize>(proof: &[u8]) -> u8
    ensures { result ≡ count_part D proof.now }
{
    crate::numbers::first_byte(behind_digest::<D>(proof))
}

// The bytes of a proof's entries.
#[tactic(auto, unfolding(crate::specs::Parts::entries_part))]
pub fn entries<const D: usize>(proof: &[u8]) -> &[u8]
    ensures { result.now ≡ entries_part D proof.now }
{
    behind(behind_digest::<D>(proof), 1)
}

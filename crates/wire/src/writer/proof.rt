// Proofs, as a party keeps them, into a message. A proof whose timestamp is 0.0 is missing.
ghost use Rattle.std.specs.Prelude.{◌≡◌, ◌+◌, ◌≤◌, length, if◌then◌else◌};
ghost use Rattle.wire.specs.Layout.{entries_room, proof_room};
ghost use Rattle.wire.specs.Proof.{counted_entries, proof_bytes};
ghost use Rattle.wire.specs.Putting.{Put, bytes_unless};
ghost use Rattle.wire.specs.Writing.{kept_entries, kept_proof, missing};

use super::KeptProof;
use super::fields::{put_byte, put_bytes, put_timestamp_and_digest};
use crate::layout::{ENTRIES_ROOM, ENTRY, MOST_ENTRIES};
use base::timestamp::Timestamp;

// The number of entries, and the entries.
fn put_entries(out: &mut [u8], at: usize, entry_count: u8, entries: &[u8; ENTRIES_ROOM]) -> usize
    requires { at + (1 + entries_room) ≤ length out.old }
    ensures { Put out.old at (counted_entries (kept_entries entry_count entries.now)) (1 + entries_room) result out.new }
{
    let count = entry_count.min(MOST_ENTRIES);
    let behind = put_byte(out, at, count);
    put_bytes(out, behind, &entries[..ENTRY * usize::from(count)])
}

pub(super) fn put_proof<'a, const D: usize>(
    out: &mut [u8],
    at: usize,
    proof: KeptProof<'a, D>,
) -> usize
    requires { at + proof_room D ≤ length out.old }
    ensures { Put out.old at (proof_bytes (kept_proof proof.entry)) (proof_room D) result out.new }
{
    let behind = put_timestamp_and_digest(out, at, proof.timestamp, proof.digest);
    put_entries(out, behind, proof.entry_count, proof.entries)
}

// By the number, as the definition has it.
fn is_missing(timestamp: Timestamp) -> bool
    ensures { result ≡ missing timestamp }
{
    timestamp.number() == 0
}

// The bit of a proof in the bit map.
pub(super) fn bit_unless_missing(bit: u16, timestamp: Timestamp) -> u16
    ensures { (result ≡ (if missing timestamp then 0 else bit)) × (result ≤ bit) }
{
    if is_missing(timestamp) { 0 } else { bit }
}

pub(super) fn put_proof_unless_missing<'a, const D: usize>(
    out: &mut [u8],
    at: usize,
    proof: KeptProof<'a, D>,
) -> usize
    requires { at + proof_room D ≤ length out.old }
    ensures { Put out.old at (bytes_unless (missing proof.entry.timestamp) (proof_bytes (kept_proof proof.entry))) (proof_room D) result out.new }
{
    if is_missing(proof.timestamp) {
        return at;
    }
    put_proof(out, at, proof)
}

// Tests 7 and 9 to 11: verdicts (document 01: marks) and the proofs that they judge.
ghost use Rattle.std.specs.Prelude.{◌≡◌, ◌≤◌, nat_le};
ghost use Rattle.base.specs.Refusal.{outcome};
ghost use Rattle.base.specs.Timestamp.{number};
ghost use Rattle.wire.specs.Checks.{all, verdicts_fit, genuine, proof_outcome};
ghost use Rattle.wire.specs.Judging.{entries_in, rising_signers, shaped_signers, smallest, first_refusal};

use crate::layout::ENTRY;
use crate::numbers::four_at;
use base::party::{quorum_size, replica_count};
use base::refusal::Refusal;
use base::replica_set::ReplicaSet;
use base::timestamp::Timestamp;

// Four verdicts of 1 as one word.
const FOUR_ONES: u32 = 0x0101_0101;

// Whether no number is above `high`. The largest is looked for, without a way out before the end, so that the compiler takes several
// numbers at once.
fn all_up_to(high: u8, numbers: &[u8]) -> bool
    ensures { result ≡ all (λ n. nat_le n high) numbers.now }
{
    let mut most: u8 = 0;
    for number in numbers {
        most = most.max(*number);
    }
    most <= high
}

// Test 7: one verdict per signature, each 0 or 1.
pub(super) fn verdicts_fit(verdicts: &[u8], signatures: usize) -> bool
    ensures { result ≡ verdicts_fit signatures verdicts.now }
{
    verdicts.len() == signatures && all_up_to(1, verdicts)
}

// Test 10: no verdict is 0. Four at once, which takes a WRITE fewer instructions (docs/SPEED.md), then those that are left.
// No `iter().all`: the search does not tie its clauses to `genuine`.
fn all_genuine(verdicts: &[u8]) -> bool
    ensures { result ≡ genuine verdicts.now }
{
    let fours = verdicts.len() / 4;
    for i in 0..fours {
        if four_at(verdicts, 4 * i) != FOUR_ONES {
            return false;
        }
    }
    let rest = &verdicts[4 * fours..];
    for verdict in rest {
        if *verdict != 1 {
            return false;
        }
    }
    true
}

// The signers of the entries, if they rise within 1 to n, so that no replica is there twice. Of those that rise only the last can be
// above n; replica r is bit r while they are gathered.
fn check_signers(entries: &[u8], n: u8) -> Result<ReplicaSet, Refusal>
    requires { n ≤ 16 }
    ensures { outcome result ≡ rising_signers n (entries_in entries.now) }
{
    let count = entries.len() / ENTRY;
    let mut bits: u32 = 0;
    let mut last: u8 = 0;
    for i in 0..count {
        let signer = entries[ENTRY * i];
        if signer <= last {
            return Err(Refusal::NotAQuorum);
        }
        bits |= 1 << (signer % 32);
        last = signer;
    }
    if n < last {
        return Err(Refusal::NotAQuorum);
    }
    Ok(ReplicaSet((bits / 2) as u16))
}

// Test 9: a quorum of entries, of different replicas.
#[tactic(auto, using(crate::proofs::ProofBytes::length_read), unfolding(base::specs::Outcome::guard, crate::specs::Checks::shaped))]
fn check_shape(f: u8, entries: &[u8]) -> Result<ReplicaSet, Refusal>
    ensures { outcome result ≡ shaped_signers f (entries_in entries.now) }
{
    if entries.len() / ENTRY != usize::from(quorum_size(f)) {
        return Err(Refusal::NotAQuorum);
    }
    check_signers(entries, replica_count(f))
}

// Tests 9 to 11 of one proof: its entries, their verdicts, its timestamp.
pub(super) fn check_proof(
    f: u8,
    entries: &[u8],
    verdicts: &[u8],
    timestamp: Timestamp,
) -> Result<ReplicaSet, Refusal>
    ensures { outcome result ≡ proof_outcome f (entries_in entries.now) verdicts.now (number timestamp) }
{
    let signers = check_shape(f, entries)?;
    if !all_genuine(verdicts) {
        return Err(Refusal::EntryNotGenuine);
    }
    if !timestamp.is_issued() {
        return Err(Refusal::NotIssued);
    }
    Ok(signers)
}

// The smaller refusal of two; where there is none, the first one's signers.
fn smaller(
    a: Result<ReplicaSet, Refusal>,
    b: Result<ReplicaSet, Refusal>,
) -> Result<ReplicaSet, Refusal>
    ensures { outcome result ≡ smallest (outcome a) (outcome b) }
{
    match (a, b) {
        (Err(m), Err(n)) => Err(m.min(n)),
        (Ok(_), Err(n)) => Err(n),
        (a, _) => a,
    }
}

// Tests 9 to 11 of a message, each over both proofs and the timestamp field before the next, and the prepared proof's signers.
// What is missing is good.
#[tactic(auto, using(crate::proofs::FirstRefusal::smallest_good), unfolding(base::specs::Outcome::guard))]
pub(super) fn first_refusal(
    prepared: Result<ReplicaSet, Refusal>,
    written: Result<ReplicaSet, Refusal>,
    issued: bool,
) -> Result<ReplicaSet, Refusal>
    ensures { outcome result ≡ first_refusal (outcome prepared) (outcome written) issued }
{
    let proofs = smaller(prepared, written);
    if issued {
        proofs
    } else {
        smaller(proofs, Err(Refusal::NotIssued))
    }
}

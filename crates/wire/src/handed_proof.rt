// A written proof by itself, which a client is handed for a register (document 02, #106): tests 4, 20, 7 and 9 to 11.
ghost use Rattle.std.specs.Prelude.{◌≡◌, length, ◌==◌};
ghost use Rattle.base.specs.Refusal.{outcome};
ghost use Rattle.wire.specs.HandedProof.{handed_signers};
ghost use Rattle.wire.specs.Layout.{extent, written_rule};

use crate::checks::{check_proof, verdicts_fit};
use crate::layout::{ENTRY, WRITTEN_HEAD};
use crate::parts;
use base::party::{RegisterId, is_register};
use base::refusal::Refusal;
use base::replica_set::ReplicaSet;

// Test 4: as many bytes as the number of entries says.
#[tactic(auto, unfolding(crate::specs::Parts::count_part))]
pub(super) fn is_whole(proof: &[u8]) -> bool
    ensures { result ≡ (extent written_rule proof.now == length proof.now) }
{
    let count = usize::from(parts::entry_count::<0>(proof));
    WRITTEN_HEAD + ENTRY * count == proof.len()
}

// What the tests find in a proof for a register: its signers, or the refusal.
#[tactic(auto, using(crate::proofs::AdmittedProof::not_whole, crate::proofs::AdmittedProof::not_registered, crate::proofs::AdmittedProof::not_fitting, crate::proofs::AdmittedProof::judged))]
pub fn accept(
    f: u8,
    register: RegisterId,
    proof: &[u8],
    verdicts: &[u8],
) -> Result<ReplicaSet, Refusal>
    ensures { outcome result ≡ handed_signers f register proof.now verdicts.now }
{
    if !is_whole(proof) {
        return Err(Refusal::FieldLengths);
    }
    if !is_register(register) {
        return Err(Refusal::Register);
    }
    if !verdicts_fit(verdicts, usize::from(parts::entry_count::<0>(proof))) {
        return Err(Refusal::Verdicts);
    }
    check_proof(
        f,
        parts::entries::<0>(proof),
        verdicts,
        parts::timestamp(proof),
    )
}

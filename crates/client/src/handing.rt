// A client is handed a written proof of any client, which its PREPAREs then show (document 02, #106).
ghost use Rattle.std.specs.Prelude.{◌≡◌, length};
ghost use Rattle.base.specs.Refusal.{outcome};
ghost use Rattle.wire.specs.Layout.{extent, written_rule};
ghost use Rattle.wire.specs.Proof.{proof_from};
ghost use Rattle.protocol.specs.Handing.{may_take, with_handed, take_proof};
ghost use Rattle.client.specs.Handing.{Hands};

use crate::record::{with_written_for, written_for};
use base::bytes::array;
use base::party::RegisterId;
use base::refusal::Refusal;
use protocol::client::{Client, Phase, Written};
use wire::parts;

// What handing a proof leaves.
#[derive(Drop)]
pub struct Handed {
    pub answer: Result<(), Refusal>,
    pub client: Client,
}

// Whether it is idle, and has no proof of its own for the register.
fn may_take(client: &Client, register: RegisterId) -> bool
    ensures { result ≡ may_take register client.now }
{
    matches!(client.phase, Phase::Idle) && !written_for(client, register).own
}

fn with_handed(client: Client, register: RegisterId, proof: &[u8]) -> Client
    requires { extent written_rule proof.now ≡ length proof.now }
    ensures { result ≡ with_handed register (proof_from 0 proof.now) client }
{
    let last = Written {
        timestamp: parts::timestamp(proof),
        entry_count: parts::entry_count::<0>(proof),
        entries: array(parts::entries::<0>(proof)),
        own: false,
    };
    with_written_for(client, register, last)
}

// The record with the proof taken.
#[tactic(auto, using(crate::proofs::HandedParts::bad_proof, crate::proofs::HandedParts::good_proof, crate::proofs::HandedParts::good_whole), unfolding(base::specs::Outcome::guard))]
fn take(
    client: Client,
    register: RegisterId,
    proof: &[u8],
    verdicts: &[u8],
) -> Result<Client, Refusal>
    ensures { outcome result ≡ take_proof client register proof.now verdicts.now }
{
    wire::handed_proof::accept(client.f, register, proof, verdicts)?;
    if !may_take(&client, register) {
        return Err(Refusal::Busy);
    }
    Ok(with_handed(client, register, proof))
}

// Hands a client a written proof of any bytes for a register, with verdicts of any number and value: tests 4, 20, 7, 9 to 11 and 17.
#[tactic(auto, using(crate::proofs::HandedParts::hands_taken, crate::proofs::HandedParts::hands_refused))]
pub fn hand(client: Client, register: RegisterId, proof: &[u8], verdicts: &[u8]) -> Handed
    ensures { Hands client register proof.now verdicts.now result }
{
    match take(client, register, proof, verdicts) {
        Ok(client) => Handed {
            answer: Ok(()),
            client,
        },
        Err(refusal) => Handed {
            answer: Err(refusal),
            client,
        },
    }
}

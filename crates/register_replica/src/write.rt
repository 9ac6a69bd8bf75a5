// WRITE: a later card is held, with its proof.
ghost use Rattle.std.specs.Prelude.{◌≡◌, ◌≤◌, length};
ghost use Rattle.wire.specs.Message.{longest};
ghost use Rattle.wire.specs.Parts.{Whole};
ghost use Rattle.wire.specs.Proof.{prepared_from, signer_set};
ghost use Rattle.wire.specs.declared.message.Kind.TheVariants.{Write};
ghost use Rattle.protocol.specs.RegisterReplica.{with_held, on_write, register_answers};
ghost use Rattle.register_replica.specs.Leaving.{Leaves, Passes, Answers};

use crate::answers::{keep, refuse};
use crate::register::holding;
use crate::{Change, Stepped};
use base::party::RegisterId;
use base::refusal::Refusal;
use base::replica_set::ReplicaSet;
use protocol::replica::{Held, Register, RegisterReplica};
use wire::card::stands_under;
use wire::message::Fields;
use wire::parts;

fn with_held(replica: RegisterReplica, held: Held) -> RegisterReplica
    ensures { result ≡ with_held replica held }
{
    let register = Register {
        held,
        ..replica.register
    };
    RegisterReplica {
        register,
        ..replica
    }
}

// WRITE on plain values.
fn write(
    replica: RegisterReplica,
    register: RegisterId,
    card: &[u8],
    proof: &[u8],
    signers: ReplicaSet,
    out: &mut [u8],
) -> Stepped
    requires { Whole 32 proof.now × (signers ≡ signer_set (prepared_from proof.now).entries) × (longest ≤ length out.old) }
    ensures { Leaves replica (register_answers register replica out.old (on_write replica card.now (prepared_from proof.now))) result out.new }
{
    if !stands_under(card, parts::digest(proof)) {
        return refuse(replica, Refusal::BadCard);
    }
    let timestamp = parts::timestamp(proof);
    let answer = wire::writer::write_written(out, register, replica.id, timestamp);
    if !replica.register.held.timestamp.is_before(timestamp) {
        return keep(replica, answer);
    }
    let held = holding(card, proof, signers);
    Stepped {
        answer,
        replica: with_held(replica, held),
        change: Change::Holds(held),
    }
}

// WRITE, taken out of a message that tests 2 to 11 let through.
pub(super) fn on_write(
    replica: RegisterReplica,
    message: &[u8],
    fields: Fields,
    signers: ReplicaSet,
    out: &mut [u8],
) -> Stepped
    requires { Passes replica message.now fields signers × (fields.kind ≡ Write) × (longest ≤ length out.old) }
    ensures { Answers replica message.now fields out.old result out.new }
{
    write(
        replica,
        fields.register,
        parts::card(message, fields.card),
        parts::part(message, fields.prepared),
        signers,
        out,
    )
}

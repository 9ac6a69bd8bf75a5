// READ, answered by the card that is held, with its proof.
ghost use Rattle.std.specs.Prelude.{◌≤◌, length};
ghost use Rattle.wire.specs.Message.{longest};
ghost use Rattle.protocol.specs.RegisterReplica.{on_read, register_answers};
ghost use Rattle.register_replica.specs.Leaving.{Leaves};

use crate::Stepped;
use crate::answers::keep;
use crate::register::kept_proof;
use base::party::{ClientId, RegisterId};
use protocol::replica::RegisterReplica;
use wire::writer::{KeptCard, write_card};

pub(super) fn read(
    replica: RegisterReplica,
    register: RegisterId,
    client: ClientId,
    nonce: u64,
    out: &mut [u8],
) -> Stepped
    requires { longest ≤ length out.old }
    ensures { Leaves replica (register_answers register replica out.old (on_read replica client nonce)) result out.new }
{
    let held = &replica.register.held;
    let card = KeptCard {
        length: held.card_length,
        card: &held.card,
    };
    let answer = write_card(
        out,
        register,
        replica.id,
        nonce,
        card,
        kept_proof(held),
        client,
    );
    keep(replica, answer)
}

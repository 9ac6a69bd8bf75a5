// READ-STAMP, answered by the proof that is held.
ghost use Rattle.std.specs.Prelude.{◌≤◌, length};
ghost use Rattle.wire.specs.Message.{longest};
ghost use Rattle.protocol.specs.RegisterReplica.{on_read_stamp, register_answers};
ghost use Rattle.register_replica.specs.Leaving.{Leaves};

use crate::Stepped;
use crate::answers::keep;
use crate::register::kept_proof;
use base::party::{ClientId, RegisterId};
use protocol::replica::RegisterReplica;
use wire::writer::write_stamp;

pub(super) fn read_stamp(
    replica: RegisterReplica,
    register: RegisterId,
    client: ClientId,
    nonce: u64,
    out: &mut [u8],
) -> Stepped
    requires { longest ≤ length out.old }
    ensures { Leaves replica (register_answers register replica out.old (on_read_stamp replica client nonce)) result out.new }
{
    let proof = kept_proof(&replica.register.held);
    let answer = write_stamp(out, register, replica.id, nonce, proof, client);
    keep(replica, answer)
}

// What a call returns.
ghost use Rattle.std.specs.Prelude.{◌≡◌};
ghost use Rattle.register_replica.specs.Leaving.{keeping};

use crate::{Change, Stepped};
use base::refusal::Refusal;
use protocol::replica::RegisterReplica;

// An answer that leaves the record as it was.
pub(super) fn keep(replica: RegisterReplica, answer: Result<usize, Refusal>) -> Stepped
    ensures { result ≡ keeping answer replica }
{
    Stepped {
        answer,
        replica,
        change: Change::Nothing,
    }
}

// A refusal, which leaves the record as it was.
pub(super) fn refuse(replica: RegisterReplica, refusal: Refusal) -> Stepped
    ensures { result ≡ keeping (Err refusal) replica }
{
    keep(replica, Err(refusal))
}

// What a client makes of bytes: tests 1 to 11, then the message by its kind.
// Behind test 1 contracts require `longest ≤ length out.old`: a struct around the lent slice would stand between it and the writers' `&mut [u8]`.
ghost use Rattle.std.specs.Prelude.{◌≡◌, ◌≤◌, length};
ghost use Rattle.wire.specs.Message.{longest};
ghost use Rattle.protocol.specs.Client.{client_answers};
ghost use Rattle.protocol.specs.RegisterReplica.{with_output};
ghost use Rattle.client.specs.Roles.{role_step};
ghost use Rattle.client.specs.Messages.{after_tests};
ghost use Rattle.client.specs.Leaving.{call_of};

use crate::answers::Taken;
use crate::read::on_card;
use crate::reply::Reply;
use crate::role::Role;
use crate::write::{on_prepared, on_stamp, on_written};
use base::client_set::ClientSet;
use base::refusal::Refusal;
use protocol::client::Client;
use wire::layout::LONGEST_MESSAGE;
use wire::message::{Kind, Party};

// At an ordinary client.
fn take_reply(client: Client, reply: Reply, out: &mut [u8]) -> Result<Taken, Refusal>
    requires { longest ≤ length out.old }
    ensures { call_of client result out.new ≡ client_answers client out.old (after_tests Role.Ordinary client reply.entry.message.now) }
{
    match reply.fields.kind {
        Kind::Stamp => on_stamp(client, reply, out),
        Kind::Prepared => on_prepared(client, reply, out),
        Kind::Written => on_written(client, reply),
        _ => on_card(client, reply, Role::Ordinary, out),
    }
}

// At a viewing client, which awaits CARDs alone.
#[tactic(auto, using(crate::proofs::Parting::no_view))]
fn take_view(client: Client, reply: Reply, out: &mut [u8]) -> Result<Taken, Refusal>
    requires { longest ≤ length out.old }
    ensures { call_of client result out.new ≡ client_answers client out.old (after_tests Role.Viewing client reply.entry.message.now) }
{
    let Kind::Card = reply.fields.kind else {
        return Err(Refusal::NotAwaited);
    };
    on_card(client, reply, Role::Viewing, out)
}

// Bytes of any number and value, with such verdicts.
pub(super) fn hear(
    client: Client,
    message: &[u8],
    verdicts: &[u8],
    role: Role,
    out: &mut [u8],
) -> Result<Taken, Refusal>
    ensures { call_of client result out.new ≡ client_answers client out.old (with_output out.old (role_step role client message.now verdicts.now)) }
{
    if out.len() < LONGEST_MESSAGE {
        return Err(Refusal::OutputTooShort);
    }
    let (fields, signers) = wire::acceptance::accept(
        Party::Client,
        client.f,
        ClientSet::nobody(),
        message,
        verdicts,
    )?;
    let reply = Reply {
        message,
        fields,
        signers,
    };
    match role {
        Role::Ordinary => take_reply(client, reply, out),
        Role::Viewing => take_view(client, reply, out),
    }
}

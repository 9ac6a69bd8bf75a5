// The replies to READ: CARDs of a read or a view, and the WRITTENs that end a write-back.
ghost use Rattle.std.specs.Prelude.{◌≡◌, ◌≤◌, length};
ghost use Rattle.wire.specs.Message.{longest, WRITE};
ghost use Rattle.protocol.specs.Client.{client_answers, current_card, best_proof, with_phase, turn, send, after_card, count_card, after_write_back};
ghost use Rattle.client.specs.Roles.{after_cards};
ghost use Rattle.client.specs.Messages.{after_tests};
ghost use Rattle.client.specs.Leaving.{call_of, Takes, TakesAny};

use crate::answers::{Taken, done, sent, waits};
use crate::record::{best_proof, keep_better_card, kept_card};
use crate::reply::Reply;
use crate::role::Role;
use base::refusal::Refusal;
use base::replica_set::ReplicaSet;
use base::timestamp::Timestamp;
use protocol::client::{Client, Phase};
use wire::message::Kind;

// WRITE the best card with its proof; the replicas that showed it count.
#[tactic(auto, using(crate::proofs::Answering::sends))]
fn write_back(
    client: Client,
    best: Timestamp,
    showed: ReplicaSet,
    out: &mut [u8],
) -> Result<Taken, Refusal>
    requires { longest ≤ length out.old }
    ensures { Takes out.old
        (turn (send (WRITE client.id (current_card client) (best_proof client best))) (with_phase (Phase.WriteBack best showed) client))
        result out.new }
{
    let written = wire::writer::write_write(
        out,
        client.register,
        client.id,
        kept_card(&client),
        best_proof(&client, best),
    );
    let phase = Phase::WriteBack(best, showed);
    sent(written, Client { phase, ..client })
}

// A read has its q CARDs.
#[tactic(auto, unfolding(protocol::specs::Client::after_card))]
fn after_card(
    client: Client,
    best: Timestamp,
    showed: ReplicaSet,
    out: &mut [u8],
) -> Result<Taken, Refusal>
    requires { longest ≤ length out.old }
    ensures { Takes out.old (after_card best showed client) result out.new }
{
    if showed.is_quorum(client.f) {
        return Ok(done(best, client));
    }
    write_back(client, best, showed, out)
}

// A CARD more was taken. A view is done with q of them, whatever they show.
#[tactic(auto, unfolding(protocol::specs::Client::count_card, protocol::specs::Viewer::after_view))]
fn count_card(
    client: Client,
    nonce: u64,
    best: Timestamp,
    counted: ReplicaSet,
    showed: ReplicaSet,
    role: Role,
    out: &mut [u8],
) -> Result<Taken, Refusal>
    requires { longest ≤ length out.old }
    ensures { Takes out.old (count_card (after_cards role) nonce best counted showed client) result out.new }
{
    if !counted.is_quorum(client.f) {
        return Ok(waits(client, Phase::Cards(nonce, best, counted, showed)));
    }
    match role {
        Role::Ordinary => after_card(client, best, showed, out),
        Role::Viewing => Ok(done(best, client)),
    }
}

// A CARD: test 14, then the phase that it meets.
pub(super) fn on_card(
    client: Client,
    reply: Reply,
    role: Role,
    out: &mut [u8],
) -> Result<Taken, Refusal>
    requires { (longest ≤ length out.old) × (reply.fields.kind ≡ Kind.Card) }
    ensures { call_of client result out.new ≡ client_answers client out.old (after_tests role client reply.entry.message.now) }
{
    if !reply.card_stands() {
        return Err(Refusal::BadCard);
    }
    let Phase::Cards(asked, best, counted, showed) = reply.meets(&client) else {
        return Err(Refusal::NotAwaited);
    };
    if !reply.is_awaited(asked, client.id, counted) {
        return Err(Refusal::NotAwaited);
    }
    let sender = reply.sender();
    let shown = reply.shown();
    count_card(
        keep_better_card(client, best, reply.card(), shown),
        asked,
        shown.best_of(best),
        counted.with(sender),
        shown.showed_by(best, sender, showed),
        role,
        out,
    )
}

// A WRITTEN more was taken in a write-back: with those that showed the timestamp, q end the read.
#[tactic(auto, unfolding(protocol::specs::Client::after_write_back))]
pub(super) fn after_write_back(client: Client, timestamp: Timestamp, written: ReplicaSet) -> Taken
    ensures { TakesAny (after_write_back timestamp written client) result }
{
    if !written.is_quorum(client.f) {
        return waits(client, Phase::WriteBack(timestamp, written));
    }
    done(timestamp, client)
}

// Tests 1, 20, 14 and 17, and the questions that begin an operation.
ghost use Rattle.std.specs.Prelude.{◌≡◌, true, ◌+◌, ◌≤◌, length};
ghost use Rattle.base.specs.Refusal.{outcome};
ghost use Rattle.base.specs.ReplicaSet.{empty};
ghost use Rattle.base.specs.Timestamp.{start};
ghost use Rattle.wire.specs.Message.{longest, READ-STAMP, READ};
ghost use Rattle.protocol.specs.Client.{client_answers, may_begin, turn, send, beginning, begin_write, begin_read};
ghost use Rattle.protocol.specs.RegisterReplica.{with_output};
ghost use Rattle.wire.specs.Layout.{card_room};
ghost use Rattle.protocol.specs.Parts.{start_card};
ghost use Rattle.client.specs.Beginning.{barred_by};
ghost use Rattle.client.specs.Leaving.{call_of, Takes};

use crate::answers::{Taken, sent};
use crate::record::beginning;
use base::party::{RegisterId, is_register};
use base::refusal::Refusal;
use base::replica_set::ReplicaSet;
use base::timestamp::Timestamp;
use protocol::client::{Client, Phase};
use wire::layout::LONGEST_MESSAGE;

// 17: whether the client is idle and has a nonce left.
fn may_begin(client: &Client) -> bool
    ensures { result ≡ may_begin client.now }
{
    matches!(client.phase, Phase::Idle) && client.last_nonce < u64::MAX
}

// What bars a beginning with room for so many bytes: the first of 1, 20, what was found of the card, and 17.
#[tactic(auto, unfolding(base::specs::Outcome::guard))]
fn barred_by(
    client: &Client,
    room: usize,
    register: RegisterId,
    card: Result<(), Refusal>,
) -> Result<(), Refusal>
    ensures { outcome result ≡ barred_by client.now room register (outcome card) }
{
    if room < LONGEST_MESSAGE {
        return Err(Refusal::OutputTooShort);
    }
    if !is_register(register) {
        return Err(Refusal::Register);
    }
    card?;
    if !may_begin(client) {
        return Err(Refusal::Busy);
    }
    Ok(())
}

// Not one function with `ask_cards`: what is written, awaited and kept differs, which is all that stands in them.
#[tactic(auto, using(crate::proofs::Answering::sends, crate::proofs::Begins::nonce_left))]
fn ask_stamps(
    client: Client,
    register: RegisterId,
    card: &[u8],
    out: &mut [u8],
) -> Result<Taken, Refusal>
    requires { (longest ≤ length out.old) × (length card.now ≤ card_room) × (may_begin client ≡ true) }
    ensures { Takes out.old
        (turn (send (READ-STAMP client.id (client.last_nonce + 1)))
        (beginning register (client.last_nonce + 1) (Phase.Stamps (client.last_nonce + 1) start empty) card.now client))
        result out.new }
{
    let nonce = client.last_nonce + 1;
    let written = wire::writer::write_read_stamp(out, register, client.id, nonce);
    let waiting = Phase::Stamps(nonce, Timestamp::start(), ReplicaSet::empty());
    sent(written, beginning(client, register, nonce, waiting, card))
}

#[tactic(auto, using(crate::proofs::Answering::sends, crate::proofs::Begins::nonce_left))]
fn ask_cards(client: Client, register: RegisterId, out: &mut [u8]) -> Result<Taken, Refusal>
    requires { (longest ≤ length out.old) × (may_begin client ≡ true) }
    ensures { Takes out.old
        (turn (send (READ client.id (client.last_nonce + 1)))
        (beginning register (client.last_nonce + 1) (Phase.Cards (client.last_nonce + 1) start empty empty) start_card client))
        result out.new }
{
    let nonce = client.last_nonce + 1;
    let written = wire::writer::write_read(out, register, client.id, nonce);
    let none = ReplicaSet::empty();
    let waiting = Phase::Cards(nonce, Timestamp::start(), none, none);
    // The starting card, until a reply has a later one.
    sent(
        written,
        beginning(client, register, nonce, waiting, &[0, 0]),
    )
}

#[tactic(auto, using(crate::proofs::Begins::write_step))]
pub(super) fn begin_write(
    client: Client,
    register: RegisterId,
    card: &[u8],
    out: &mut [u8],
) -> Result<Taken, Refusal>
    ensures { call_of client result out.new ≡ client_answers client out.old (with_output out.old (begin_write client register card.now)) }
{
    barred_by(&client, out.len(), register, wire::card::check(card))?;
    ask_stamps(client, register, card, out)
}

#[tactic(auto, using(crate::proofs::Begins::read_step))]
pub(super) fn begin_read(
    client: Client,
    register: RegisterId,
    out: &mut [u8],
) -> Result<Taken, Refusal>
    ensures { call_of client result out.new ≡ client_answers client out.old (with_output out.old (begin_read client register)) }
{
    barred_by(&client, out.len(), register, Ok(()))?;
    ask_cards(client, register, out)
}

// One line of input: the call that it asks for, what that leaves, and what is said of it.
ghost use Rattle.std.specs.Prelude.{◌≡◌};
ghost use Rattle.base.specs.Range.{within};
ghost use Rattle.base.specs.Refusal.{outcome};
ghost use Rattle.protocol.specs.Client.{answer_outcome};
ghost use Rattle.protocol.specs.Events.{as_client_answer};
ghost use Rattle.play.specs.Grammar.{command};
ghost use Rattle.play.specs.Player.{said_of, logged_by, addressee, client_turn, replica_turn, turn, Plays};

use crate::calls::{Call, client_does, replica_does};
use crate::grammar::{Command, parse};
use crate::log::Log;
use crate::output::{Said, Saying, without_card};
use crate::world::{World, seat};
use base::party::{ClientId, ReplicaId};
use base::refusal::Refusal;
use protocol::client::ClientAnswer;

// Whom a command is addressed to, and for what.
#[derive(Clone, Copy)]
pub enum Addressee {
    Client(ClientId, Call),
    Replica(ReplicaId, usize),
}

#[derive(Drop)]
pub struct Turned {
    pub world: World,
    pub saying: Saying,
}

// A message to send takes the next number.
#[tactic(auto, unfolding(crate::specs::Player::logged_by))]
fn logged(log: Log, answer: ClientAnswer) -> Log
    ensures { result ≡ logged_by (answer_outcome answer) log }
{
    match answer {
        ClientAnswer::Send(length) => log.with(length),
        _ => log,
    }
}

#[tactic(auto, unfolding(crate::specs::Player::said_of))]
fn said(count: u8, answer: ClientAnswer) -> Result<Said, Refusal>
    ensures { outcome result ≡ said_of count (answer_outcome answer) }
{
    match answer {
        ClientAnswer::Send(_) => Ok(Said::Sent(u32::from(count) + 1)),
        ClientAnswer::Counted => Ok(Said::Taken),
        ClientAnswer::Done(timestamp, signers) => Ok(Said::Done(timestamp, signers)),
        ClientAnswer::Ended => Ok(Said::Ended),
        ClientAnswer::Refused(refusal) => Err(refusal),
    }
}

// A replica's answer is one of a client's.
fn reply(answer: Result<usize, Refusal>) -> ClientAnswer
    ensures { answer_outcome result ≡ as_client_answer (outcome answer) }
{
    match answer {
        Ok(length) => ClientAnswer::Send(length),
        Err(refusal) => ClientAnswer::Refused(refusal),
    }
}

#[tactic(auto, using(std::proofs::lemmas::Bool::Decides::nat_tests), unfolding(base::specs::Range::within))]
fn is_sent(m: usize, count: u8) -> bool
    ensures { result ≡ within 1 count m }
{
    (1..=usize::from(count)).contains(&m)
}

// Whom a line is addressed to, and for what; one of another form, or with an unsent message, goes to nobody.
#[tactic(auto, unfolding(crate::specs::Player::addressee))]
fn addressed(line: &[u8], count: u8) -> Option<Addressee>
    ensures { result ≡ addressee count (command line.now) }
{
    match parse(line)? {
        Command::Write(id) => Some(Addressee::Client(id, Call::Write)),
        Command::Read(id) => Some(Addressee::Client(id, Call::Read)),
        Command::ToReplica(id, m) if is_sent(m, count) => Some(Addressee::Replica(id, m)),
        Command::ToClient(id, m) if is_sent(m, count) => Some(Addressee::Client(
            id,
            Call::Deliver(m),
        )),
        _ => None,
    }
}

// A client's call, and what that leaves. `card`, `next` and `log` are locals, here and in a replica's turn, since the borrow checker
// takes no field with an array that is stored straight.
fn client_turn(mut world: World, id: ClientId, call: Call, line: &[u8], store: &mut [u8]) -> Turned
    ensures { Plays (client_turn world store.old id call line.now) result store.new }
{
    let i = seat(id.0);
    let stepped = client_does(world.clients[i], &world.log, call, line, store);
    let what = said(world.log.count, stepped.answer);
    let card = stepped.card;
    let next = stepped.client;
    let log = logged(world.log, stepped.answer);
    world.clients[i] = next;
    world.log = log;
    Turned {
        world,
        saying: Saying {
            what,
            card,
            card_length: stepped.card_length,
        },
    }
}

// A replica's call, and what that leaves.
fn replica_turn(mut world: World, id: ReplicaId, m: usize, store: &mut [u8]) -> Turned
    ensures { Plays (replica_turn world store.old id m) result store.new }
{
    let i = seat(id.0);
    let stepped = replica_does(world.replicas[i], &world.log, m, store);
    let answer = reply(stepped.answer);
    let what = said(world.log.count, answer);
    let next = stepped.replica;
    let log = logged(world.log, answer);
    world.replicas[i] = next;
    world.log = log;
    Turned {
        world,
        saying: without_card(what),
    }
}

// One line. The store holds the messages sent, and takes the next one.
pub(super) fn turn(world: World, line: &[u8], store: &mut [u8]) -> Turned
    ensures { Plays (turn world store.old line.now) result store.new }
{
    match addressed(line, world.log.count) {
        Some(Addressee::Client(id, call)) => client_turn(world, id, call, line, store),
        Some(Addressee::Replica(id, m)) => replica_turn(world, id, m, store),
        None => Turned {
            world,
            saying: without_card(Ok(Said::Unread)),
        },
    }
}

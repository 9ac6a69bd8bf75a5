// The calls that a line asks for, each with the store behind the messages sent as its output.
// A client's and a replica's delivery are twins: one function over a closure would be no plainer, since its clause would have to name both lent
// slices, and the output before and behind the call.
ghost use Rattle.std.specs.Prelude.{◌≡◌, []};
ghost use Rattle.text.specs.Hex.{hex_pairs};
ghost use Rattle.protocol.specs.Client.{begin_write_call, client_call};
ghost use Rattle.protocol.specs.RegisterReplica.{register_call};
ghost use Rattle.play.specs.Calls.{the_register, verdicts, sent_before, client_does, replica_does, ClientLeaves, ReplicaLeaves};

use crate::log::{Log, start};
use base::party::RegisterId;
use base::slices::{behind, front};
use client::Stepped;
use protocol::client::Client;
use protocol::replica::RegisterReplica;
use wire::layout::{CARD_ROOM, LONGEST_MESSAGE};
use wire::message::Party;
use wire::signatures::signature_count;

// The register that every line is for.
const REGISTER: RegisterId = RegisterId(1);

// A call of a client, but for its card.
#[derive(Clone, Copy)]
pub enum Call {
    Write,
    Read,
    Deliver(usize),
}

fn begin_write(client: Client, digits: &[u8], out: &mut [u8]) -> Stepped
    ensures { ClientLeaves (begin_write_call client the_register (hex_pairs 17 digits.now) out.old) [] result out.new }
{
    let mut card = [0u8; CARD_ROOM];
    let n = text::hex::read_hex(digits, &mut card);
    client::begin_write(client, REGISTER, &card[..n], out)
}

fn hand_client(client: Client, message: &[u8], out: &mut [u8]) -> Stepped
    ensures { ClientLeaves (client_call client message.now (verdicts Party.Client message.now) out.old) [] result out.new }
{
    let verdicts = [1u8; 64];
    let k = signature_count(Party::Client, message);
    client::step(client, message, front(&verdicts, k), out)
}

fn hand_replica(
    replica: RegisterReplica,
    message: &[u8],
    out: &mut [u8],
) -> register_replica::Stepped
    ensures { ReplicaLeaves (register_call replica message.now (verdicts Party.Replica message.now) out.old) [] result out.new }
{
    let verdicts = [1u8; 64];
    let k = signature_count(Party::Replica, message);
    register_replica::step(replica, message, front(&verdicts, k), out)
}

// Message m is delivered to a replica.
pub(super) fn replica_does(
    replica: RegisterReplica,
    log: &Log,
    m: usize,
    store: &mut [u8],
) -> register_replica::Stepped
    ensures { ReplicaLeaves (replica_does replica log.now store.old m) (sent_before log.now store.old) result store.new }
{
    let mut message = [0u8; LONGEST_MESSAGE];
    let n = log.copy_message(m, store, &mut message);
    let at = start(usize::from(log.count), store.len());
    hand_replica(replica, front(&message, n), &mut store[at..])
}

fn deliver(client: Client, log: &Log, m: usize, store: &mut [u8]) -> Stepped
    ensures { ClientLeaves (client_does client log.now store.old [] (Call.Deliver m)) (sent_before log.now store.old) result store.new }
{
    let mut message = [0u8; LONGEST_MESSAGE];
    let n = log.copy_message(m, store, &mut message);
    let at = start(usize::from(log.count), store.len());
    hand_client(client, front(&message, n), &mut store[at..])
}

pub(super) fn client_does(
    client: Client,
    log: &Log,
    call: Call,
    line: &[u8],
    store: &mut [u8],
) -> Stepped
    ensures { ClientLeaves (client_does client log.now store.old line.now call) (sent_before log.now store.old) result store.new }
{
    let at = start(usize::from(log.count), store.len());
    match call {
        Call::Write => begin_write(client, behind(line, 4), &mut store[at..]),
        Call::Read => client::begin_read(client, REGISTER, &mut store[at..]),
        Call::Deliver(m) => deliver(client, log, m, store),
    }
}

// The client engine: beginnings of writes and reads, and what a client makes of a message; `handing` has written proofs that are handed to it.
// Viewing clients have `viewer`.
#![tactic(auto)]

mod answers;
mod begin;
pub mod handing;
mod messages;
mod read;
mod record;
mod reply;
mod role;
mod shown;
mod signatures;
pub mod viewer;
mod write;

ghost use Rattle.std.specs.Prelude.{◌≡◌};
ghost use Rattle.protocol.specs.Client.{nothing_written, idle_client, no_client, begin_write, begin_read, client_step, begin_write_call, begin_read_call, client_call};
ghost use Rattle.protocol.specs.RegisterReplica.{with_output};
ghost use Rattle.client.specs.Stepping.{Made, Calls};

use answers::stepped;
use base::party::{ClientId, REGISTERS, RegisterId};
use base::refusal::Refusal;
use base::replica_set::ReplicaSet;
use base::timestamp::Timestamp;
use protocol::client::{Client, ClientAnswer, Phase, Written};
use role::Role;
use wire::layout::{CARD_ROOM, DIGEST, ENTRIES_ROOM, SIGNATURES_ROOM};

// A call's answer, and the record afterwards. The card stands beside Done, zeros behind it; beside other answers there are zeros.
// Its length stands beside the array: no heap, fixed memory.
#[derive(Drop)]
pub struct Stepped {
    pub answer: ClientAnswer,
    pub card_length: u8,
    pub card: [u8; CARD_ROOM],
    pub client: Client,
}

// No written proof of any register.
fn none_written() -> [Written; REGISTERS]
    ensures { result ≡ nothing_written }
{
    let none = Written {
        timestamp: Timestamp::start(),
        entry_count: 0,
        entries: [0; ENTRIES_ROOM],
        own: false,
    };
    [none; REGISTERS]
}

// An idle client that has used the nonce.
fn idle(f: u8, id: ClientId, last_nonce: u64) -> Client
    ensures { result ≡ idle_client f id last_nonce }
{
    Client {
        f,
        id,
        register: RegisterId(0),
        last_nonce,
        phase: Phase::Idle,
        card_length: 0,
        card: [0; CARD_ROOM],
        digest: [0; DIGEST],
        signers: ReplicaSet::empty(),
        entry_count: 0,
        entries: [0; ENTRIES_ROOM],
        signatures: [0; SIGNATURES_ROOM],
        written: none_written(),
    }
}

// The record of no client, for a place where none is set up.
pub fn nobody() -> Client
    ensures { result ≡ no_client }
{
    idle(0, ClientId(0), 0)
}

// A client before its first operation, or refusal 16. One that is made again has its old number, and a nonce above all that it used.
#[tactic(auto, using(crate::proofs::Setups::first_nonce_lem))]
pub fn fresh(f: u8, id: ClientId, first_nonce: u64) -> Result<Client, Refusal>
    ensures { Made f id first_nonce result }
{
    base::party::client_setup(f, id, first_nonce)?;
    Ok(idle(f, id, first_nonce - 1))
}

// Begins a write of a card to a register.
pub fn begin_write(client: Client, register: RegisterId, card: &[u8], out: &mut [u8]) -> Stepped
    ensures { Calls (begin_write_call client register card.now out.old) (with_output out.old (begin_write client register card.now)) result out.new }
{
    stepped(client, begin::begin_write(client, register, card, out))
}

// Begins a read of a register.
pub fn begin_read(client: Client, register: RegisterId, out: &mut [u8]) -> Stepped
    ensures { Calls (begin_read_call client register out.old) (with_output out.old (begin_read client register)) result out.new }
{
    stepped(client, begin::begin_read(client, register, out))
}

// What the client makes of a message of any bytes, with verdicts of any number and value.
pub fn step(client: Client, message: &[u8], verdicts: &[u8], out: &mut [u8]) -> Stepped
    ensures { Calls (client_call client message.now verdicts.now out.old)
        (with_output out.old (client_step client message.now verdicts.now)) result out.new }
{
    stepped(
        client,
        messages::hear(client, message, verdicts, Role::Ordinary, out),
    )
}

// The replica engine (document 01: a holder) of one register: a fresh one, the step by value, and the thin step on a lent register.
#![tactic(auto)]

mod answers;
mod prepare;
mod read;
mod read_stamp;
mod register;
mod write;
pub mod writer;

ghost use Rattle.std.specs.Prelude.{◌≡◌, ◌≤◌, length};
ghost use Rattle.base.specs.Refusal.{outcome};
ghost use Rattle.wire.specs.Message.{longest};
ghost use Rattle.protocol.specs.RegisterReplica.{fresh_register};
ghost use Rattle.register_replica.specs.Leaving.{Passes, Answers};
ghost use Rattle.register_replica.specs.Stepping.{register_replica, Steps, Changes};

use answers::refuse;
use base::client_set::ClientSet;
use base::party::{ClientId, ReplicaId};
use base::refusal::Refusal;
use base::replica_set::ReplicaSet;
use base::timestamp::Timestamp;
use protocol::replica::{Held, Register, RegisterReplica, SLOT_DIGESTS, SLOTS, Slots};
use wire::acceptance::accept;
use wire::layout::{CARD_ROOM, DIGEST, ENTRIES_ROOM, LONGEST_MESSAGE};
use wire::message::{Fields, Kind, Party};
use writer::Writer;

// What a PREPARE puts: its client's slot, and the written timestamp.
#[derive(Clone, Copy)]
pub struct Prepared {
    pub client: Writer,
    pub count: u32,
    pub digest: [u8; DIGEST],
    pub written: Timestamp,
}

// What a step changes of the record: a PREPARE the slots, and a WRITE what is held.
#[derive(Clone, Copy)]
pub enum Change {
    Nothing,
    Prepares(Prepared),
    Holds(Held),
}

// What a step leaves. The thin step stores the change alone, and needs no part of the record that is left.
#[derive(Drop)]
pub struct Stepped {
    pub answer: Result<usize, Refusal>,
    pub replica: RegisterReplica,
    pub change: Change,
}

pub fn fresh_register() -> Register
    ensures { result ≡ fresh_register }
{
    Register {
        slots: Slots {
            counts: [0; SLOTS],
            digests: [0; SLOT_DIGESTS],
            written: Timestamp::start(),
        },
        held: Held {
            timestamp: Timestamp::start(),
            card_length: 2,
            card: [0; CARD_ROOM],
            digest: [0; DIGEST],
            signers: ReplicaSet::empty(),
            entry_count: 0,
            entries: [0; ENTRIES_ROOM],
        },
    }
}

// What a replica makes of a message that tests 2 to 11 let through: a file for each kind. The lent output stays a slice, with
// `longest ≤ length out.old` behind test 1: a struct around it would stand between it and the writers' `&mut [u8]`. What passed
// (`Passes`) names the replica and the message, which each kind is handed anyway.
fn on_message(
    replica: RegisterReplica,
    message: &[u8],
    fields: Fields,
    signers: ReplicaSet,
    out: &mut [u8],
) -> Stepped
    requires { Passes replica message.now fields signers × (longest ≤ length out.old) }
    ensures { Answers replica message.now fields out.old result out.new }
{
    match fields.kind {
        Kind::ReadStamp => read_stamp::read_stamp(
            replica,
            fields.register,
            ClientId(fields.sender),
            fields.nonce,
            out,
        ),
        Kind::Prepare => prepare::on_prepare(replica, message, fields, out),
        Kind::Write => write::on_write(replica, message, fields, signers, out),
        _ => read::read(
            replica,
            fields.register,
            ClientId(fields.sender),
            fields.nonce,
            out,
        ),
    }
}

// A message is handed to a replica, with a verdict for each signature and an output for the reply.
pub fn step(replica: RegisterReplica, message: &[u8], verdicts: &[u8], out: &mut [u8]) -> Stepped
    ensures { Steps replica message.now verdicts.now out.old (outcome result.answer) result.replica out.new × Changes replica result }
{
    if out.len() < LONGEST_MESSAGE {
        return refuse(replica, Refusal::OutputTooShort);
    }
    match accept(
        Party::Replica,
        replica.f,
        replica.withdrawn,
        message,
        verdicts,
    ) {
        Ok((fields, signers)) => on_message(replica, message, fields, signers, out),
        Err(refusal) => refuse(replica, refusal),
    }
}

// The same on a register that is lent, with f, id and the withdrawn clients beside it: the step by value, and what it changed stored.
pub fn register_in_place(
    f: u8,
    id: ReplicaId,
    withdrawn: ClientSet,
    register: &mut Register,
    message: &[u8],
    verdicts: &[u8],
    out: &mut [u8],
) -> Result<usize, Refusal>
    ensures { Steps (register_replica f id withdrawn register.old) message.now verdicts.now out.old (outcome result) (register_replica f id withdrawn register.new) out.new }
{
    let before = RegisterReplica {
        f,
        id,
        register: *register,
        withdrawn,
    };
    let stepped = step(before, message, verdicts, out);
    match stepped.change {
        Change::Nothing => {}
        Change::Prepares(prepared) => {
            register::put_count(&mut register.slots.counts, prepared);
            register::put_digest(&mut register.slots.digests, prepared);
            register.slots.written = prepared.written;
        }
        Change::Holds(held) => register.held = held,
    }
    stepped.answer
}

// Writing messages into a borrowed output: the message in front, its own signature as zeros, the old bytes behind.
mod fields;
mod proof;

ghost use Rattle.std.specs.Prelude.{◌≤◌, length};
ghost use Rattle.base.specs.Refusal.{outcome};
ghost use Rattle.base.specs.Timestamp.{number};
ghost use Rattle.wire.specs.Kind.{kind_number};
ghost use Rattle.wire.specs.Message.{READ-STAMP, PREPARE, WRITE, READ, STAMP, PREPARED, WRITTEN, CARD, body};
ghost use Rattle.wire.specs.Putting.{Put, question};
ghost use Rattle.wire.specs.Writing.{Wrote, unsigned, missing, unless, kept_proof, kept_card};

use crate::layout::{CARD_ROOM, DIGEST, ENTRIES_ROOM, LONGEST_MESSAGE};
use crate::message::Kind;
use base::party::{ClientId, RegisterId, ReplicaId};
use base::refusal::Refusal;
use base::timestamp::Timestamp;
use fields::{
    put_addressed, put_card, put_end, put_head, put_nonce, put_register, put_signature,
    put_timestamp, put_timestamp_and_digest,
};
use proof::{bit_unless_missing, put_proof, put_proof_unless_missing};

// A proof as a party keeps it, with a digest of D bytes: a prepared proof with 32, a written one with none. It is missing where its
// timestamp is 0.0. Here and in `KeptCard` a length stands beside its array, as in the parties' records: no heap, fixed memory.
#[derive(Clone, Copy)]
pub struct KeptProof<'a, const D: usize> {
    pub timestamp: Timestamp,
    pub digest: &'a [u8; D],
    pub entry_count: u8,
    pub entries: &'a [u8; ENTRIES_ROOM],
}

// A card as a party keeps it.
#[derive(Clone, Copy)]
pub struct KeptCard<'a> {
    pub length: u8,
    pub card: &'a [u8; CARD_ROOM],
}

// Bit maps by the fields' bits. Each has the register's, 9.
const WITH_NONCE: u16 = 0b10_0000_0111;

const WITH_TIMESTAMP: u16 = 0b10_0000_1011;

const WITH_DIGEST: u16 = 0b10_0001_1011;

const WITH_CARD_AND_PROOF: u16 = 0b10_0110_0011;

const ADDRESSED: u16 = 0b11_0000_0111;

const ADDRESSED_WITH_CARD: u16 = 0b11_0010_0111;

const PREPARED_PROOF: u16 = 0b00_0100_0000;

const WRITTEN_PROOF: u16 = 0b00_1000_0000;

// READ-STAMP and READ: a kind, a client and a nonce. Test 1 stands here and in each writer below, whose proof reads the room off it.
#[tactic(auto, using(crate::proofs::Stores::turned_down))]
fn write_question(
    out: &mut [u8],
    register: RegisterId,
    kind: Kind,
    client: ClientId,
    nonce: u64,
) -> Result<usize, Refusal>
    ensures { Wrote out.old (question register (kind_number kind) client nonce) (outcome result) out.new }
{
    if out.len() < LONGEST_MESSAGE {
        return Err(Refusal::OutputTooShort);
    }
    let a = put_head(out, WITH_NONCE, kind, client.0);
    let b = put_nonce(out, a, nonce);
    Ok(put_end(out, b, register))
}

#[tactic(auto, using(crate::proofs::WrittenParts::read_stamp_bytes))]
pub fn write_read_stamp(
    out: &mut [u8],
    register: RegisterId,
    client: ClientId,
    nonce: u64,
) -> Result<usize, Refusal>
    ensures { Wrote out.old (unsigned register (READ-STAMP client nonce)) (outcome result) out.new }
{
    write_question(out, register, Kind::ReadStamp, client, nonce)
}

#[tactic(auto, using(crate::proofs::WrittenParts::read_bytes))]
pub fn write_read(
    out: &mut [u8],
    register: RegisterId,
    client: ClientId,
    nonce: u64,
) -> Result<usize, Refusal>
    ensures { Wrote out.old (unsigned register (READ client nonce)) (outcome result) out.new }
{
    write_question(out, register, Kind::Read, client, nonce)
}

#[tactic(auto, using(crate::proofs::Stores::turned_down))]
pub fn write_prepare<'a>(
    out: &mut [u8],
    register: RegisterId,
    client: ClientId,
    timestamp: Timestamp,
    digest: &'a [u8; DIGEST],
    proof: KeptProof<'a, DIGEST>,
    last: KeptProof<'a, 0>,
) -> Result<usize, Refusal>
    ensures { Wrote out.old
        (unsigned register (PREPARE client (number timestamp) digest.now
        (unless (missing proof.entry.timestamp) (kept_proof proof.entry))
        (unless (missing last.entry.timestamp) (kept_proof last.entry))))
        (outcome result) out.new }
{
    if out.len() < LONGEST_MESSAGE {
        return Err(Refusal::OutputTooShort);
    }
    let map = WITH_DIGEST
        + bit_unless_missing(PREPARED_PROOF, proof.timestamp)
        + bit_unless_missing(WRITTEN_PROOF, last.timestamp);
    let a = put_head(out, map, Kind::Prepare, client.0);
    let b = put_timestamp_and_digest(out, a, timestamp, digest);
    let c = put_proof_unless_missing(out, b, proof);
    let d = put_proof_unless_missing(out, c, last);
    Ok(put_end(out, d, register))
}

#[tactic(auto, using(crate::proofs::Stores::turned_down))]
pub fn write_write<'a>(
    out: &mut [u8],
    register: RegisterId,
    client: ClientId,
    card: KeptCard<'a>,
    proof: KeptProof<'a, DIGEST>,
) -> Result<usize, Refusal>
    ensures { Wrote out.old
        (unsigned register (WRITE client (kept_card card.entry.length card.entry.card.now)
        (kept_proof proof.entry)))
        (outcome result) out.new }
{
    if out.len() < LONGEST_MESSAGE {
        return Err(Refusal::OutputTooShort);
    }
    let a = put_head(out, WITH_CARD_AND_PROOF, Kind::Write, client.0);
    let b = put_card(out, a, card.card, card.length);
    let c = put_proof(out, b, proof);
    Ok(put_end(out, c, register))
}

#[tactic(auto, using(crate::proofs::Stores::turned_down))]
pub fn write_stamp<'a>(
    out: &mut [u8],
    register: RegisterId,
    replica: ReplicaId,
    nonce: u64,
    proof: KeptProof<'a, DIGEST>,
    client: ClientId,
) -> Result<usize, Refusal>
    ensures { Wrote out.old
        (unsigned register (STAMP replica nonce
        (unless (missing proof.entry.timestamp) (kept_proof proof.entry))
        client))
        (outcome result) out.new }
{
    if out.len() < LONGEST_MESSAGE {
        return Err(Refusal::OutputTooShort);
    }
    let map = ADDRESSED + bit_unless_missing(PREPARED_PROOF, proof.timestamp);
    let a = put_head(out, map, Kind::Stamp, replica.0);
    let b = put_nonce(out, a, nonce);
    let c = put_proof_unless_missing(out, b, proof);
    Ok(put_addressed(out, c, client.0, register))
}

// A PREPARED or WRITTEN without its signature: the bytes that the signature covers, in a proof's entry too.
// Two functions of three lines: one for both would take the map and the kind besides, and say the body by a longer definition.
pub(super) fn put_prepared_body(
    out: &mut [u8],
    register: RegisterId,
    replica: ReplicaId,
    timestamp: Timestamp,
    digest: &[u8; DIGEST],
) -> usize
    requires { 42 ≤ length out.old }
    ensures { Put out.old 0 (body register (PREPARED replica (number timestamp) digest.now)) 42 result out.new }
{
    let a = put_head(out, WITH_DIGEST, Kind::Prepared, replica.0);
    let b = put_timestamp_and_digest(out, a, timestamp, digest);
    put_register(out, b, register)
}

pub(super) fn put_written_body(
    out: &mut [u8],
    register: RegisterId,
    replica: ReplicaId,
    timestamp: Timestamp,
) -> usize
    requires { 10 ≤ length out.old }
    ensures { Put out.old 0 (body register (WRITTEN replica (number timestamp))) 10 result out.new }
{
    let a = put_head(out, WITH_TIMESTAMP, Kind::Written, replica.0);
    let b = put_timestamp(out, a, timestamp);
    put_register(out, b, register)
}

#[tactic(auto, using(crate::proofs::Stores::turned_down))]
pub fn write_prepared(
    out: &mut [u8],
    register: RegisterId,
    replica: ReplicaId,
    timestamp: Timestamp,
    digest: &[u8; DIGEST],
) -> Result<usize, Refusal>
    ensures { Wrote out.old (unsigned register (PREPARED replica (number timestamp) digest.now)) (outcome result) out.new }
{
    if out.len() < LONGEST_MESSAGE {
        return Err(Refusal::OutputTooShort);
    }
    let behind = put_prepared_body(out, register, replica, timestamp, digest);
    Ok(put_signature(out, behind))
}

#[tactic(auto, using(crate::proofs::Stores::turned_down))]
pub fn write_written(
    out: &mut [u8],
    register: RegisterId,
    replica: ReplicaId,
    timestamp: Timestamp,
) -> Result<usize, Refusal>
    ensures { Wrote out.old (unsigned register (WRITTEN replica (number timestamp))) (outcome result) out.new }
{
    if out.len() < LONGEST_MESSAGE {
        return Err(Refusal::OutputTooShort);
    }
    let behind = put_written_body(out, register, replica, timestamp);
    Ok(put_signature(out, behind))
}

#[tactic(auto, using(crate::proofs::Stores::turned_down))]
pub fn write_card<'a>(
    out: &mut [u8],
    register: RegisterId,
    replica: ReplicaId,
    nonce: u64,
    card: KeptCard<'a>,
    proof: KeptProof<'a, DIGEST>,
    client: ClientId,
) -> Result<usize, Refusal>
    ensures { Wrote out.old
        (unsigned register (CARD replica nonce (kept_card card.entry.length card.entry.card.now)
        (unless (missing proof.entry.timestamp) (kept_proof proof.entry))
        client))
        (outcome result) out.new }
{
    if out.len() < LONGEST_MESSAGE {
        return Err(Refusal::OutputTooShort);
    }
    let map = ADDRESSED_WITH_CARD + bit_unless_missing(PREPARED_PROOF, proof.timestamp);
    let a = put_head(out, map, Kind::Card, replica.0);
    let b = put_nonce(out, a, nonce);
    let c = put_card(out, b, card.card, card.length);
    let d = put_proof_unless_missing(out, c, proof);
    Ok(put_addressed(out, d, client.0, register))
}

// A client's record (document 01: a desk's).
use base::party::{ClientId, REGISTERS, RegisterId};
use base::refusal::Refusal;
use base::replica_set::ReplicaSet;
use base::timestamp::Timestamp;
use wire::layout::{CARD_ROOM, DIGEST, ENTRIES_ROOM, SIGNATURES_ROOM};

// What a client is waiting for, with the replicas counted so far.
#[derive(Clone, Copy)]
pub enum Phase {
    Idle,
    // STAMPs for a write: nonce, largest timestamp, counted.
    Stamps(u64, Timestamp, ReplicaSet),
    // PREPAREDs: timestamp, counted.
    Prepareds(Timestamp, ReplicaSet),
    // WRITTENs that end a write: timestamp, counted.
    Writtens(Timestamp, ReplicaSet),
    // CARDs for a read or a view: nonce, largest timestamp, counted, and those of them that showed it.
    Cards(u64, Timestamp, ReplicaSet, ReplicaSet),
    // WRITTENs that end a write-back: timestamp, counted, the replicas that showed it among them.
    WriteBack(Timestamp, ReplicaSet),
}

// A written proof, as it is kept; 0.0 for none.
// Here and in `Client` lengths stand beside arrays of the most that they can be: no heap, fixed memory.
#[derive(Clone, Copy)]
pub struct Written {
    pub timestamp: Timestamp,
    pub entry_count: u8,
    pub entries: [u8; ENTRIES_ROOM],
    // A write on this record ended with it; else it was handed over, or there is none.
    pub own: bool,
}

#[derive(Clone, Copy)]
pub struct Client {
    pub f: u8,
    pub id: ClientId,
    // The register of the last operation; 0 before the first.
    pub register: RegisterId,
    // The nonce of the last operation.
    pub last_nonce: u64,
    pub phase: Phase,
    // The card that is written, or the best card read.
    pub card_length: u8,
    pub card: [u8; CARD_ROOM],
    // The best reply's prepared proof but for its timestamp; from PREPARE on the card's digest.
    pub digest: [u8; DIGEST],
    // The signers of the best reply's proof; once a write has built its own, that one's.
    pub signers: ReplicaSet,
    pub entry_count: u8,
    pub entries: [u8; ENTRIES_ROOM],
    // The signatures counted in this phase, replica r's at 64 (r - 1).
    pub signatures: [u8; SIGNATURES_ROOM],
    // The last written proof of each register, register x's at x - 1.
    pub written: [Written; REGISTERS],
}

// What a call of a client answers. No Result: document 01 names these cases as the answer's form. Done has the card's timestamp and
// signers; the card stands beside it.
#[derive(Clone, Copy)]
pub enum ClientAnswer {
    Send(usize),
    Counted,
    Done(Timestamp, ReplicaSet),
    Ended,
    Refused(Refusal),
}

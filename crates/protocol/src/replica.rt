// A replica's record (document 01: a holder's): one register's part, and above it the bank of sixteen.
use base::client_set::ClientSet;
use base::party::{REGISTERS, ReplicaId};
use base::replica_set::ReplicaSet;
use base::timestamp::Timestamp;
use lms::layout::KEY;
use wire::layout::{CARD_ROOM, DIGEST, ENTRIES_ROOM};

// A slot for each client that may write, and the bytes of their digests.
pub const SLOTS: usize = 64;

pub const SLOT_DIGESTS: usize = SLOTS * DIGEST;

// The prepare list: a slot for each client (document 01: line), client c's at c - 1, with its count, 0 for an unused slot, and
// its digest's 32 bytes; and the written timestamp (document 01: written stamp), which closes slots.
// Two arrays side by side, and below card and entries beside their lengths: the layout of the C interface.
#[repr(C)]
#[derive(Clone, Copy)]
pub struct Slots {
    pub counts: [u32; SLOTS],
    pub digests: [u8; SLOT_DIGESTS],
    pub written: Timestamp,
}

// What is held: timestamp, card, and the prepared proof's digest, signers and entries; 0.0 has no proof.
#[repr(C)]
#[derive(Clone, Copy)]
pub struct Held {
    pub timestamp: Timestamp,
    pub card_length: u8,
    pub card: [u8; CARD_ROOM],
    pub digest: [u8; DIGEST],
    pub signers: ReplicaSet,
    pub entry_count: u8,
    pub entries: [u8; ENTRIES_ROOM],
}

// One register, in the two parts that requests change: a PREPARE the slots, a WRITE what is held.
#[repr(C)]
#[derive(Clone, Copy)]
pub struct Register {
    pub slots: Slots,
    pub held: Held,
}

// One register's part of a replica: what the single register's step works on, which only looks at f, id and the withdrawn clients.
#[repr(C)]
#[derive(Clone, Copy)]
pub struct RegisterReplica {
    pub f: u8,
    pub id: ReplicaId,
    pub register: Register,
    pub withdrawn: ClientSet,
}

// A replica whole (document 02, #103: a holder keeps 16 registers), register x's at x - 1. What is withdrawn is withdrawn for all
// registers (#105), and the key is the office's.
#[repr(C)]
#[derive(Clone, Copy)]
pub struct Bank {
    pub f: u8,
    pub id: ReplicaId,
    pub registers: [Register; REGISTERS],
    pub withdrawn: ClientSet,
    pub key: [u8; KEY],
}

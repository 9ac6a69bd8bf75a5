// The parties: replicas and clients, how many there are, and how many make a quorum; and the registers that they share.
ghost use Rattle.std.specs.Prelude.{◌≡◌, min, ◌<◌};
ghost use Rattle.base.specs.Range.{within};
ghost use Rattle.base.specs.Party.{replica_count, quorum_size, is_fault_bound, is_replica, is_client, is_writer, is_viewer, is_register, register_place, replica_setup, client_setup_if, client_setup, viewer_setup};
ghost use Rattle.base.specs.Refusal.{outcome};

use crate::refusal::Refusal;

// A replica's number (document 01: holder number).
#[repr(C)]
#[derive(Clone, Copy, Debug, PartialEq, Eq, PartialOrd, Ord)]
pub struct ReplicaId(pub u8);

// A client's number (document 01: desk number).
#[repr(C)]
#[derive(Clone, Copy, Debug, PartialEq, Eq, PartialOrd, Ord)]
pub struct ClientId(pub u8);

// A register's number (document 02, #103: set).
#[repr(C)]
#[derive(Clone, Copy, Debug, PartialEq, Eq, PartialOrd, Ord)]
pub struct RegisterId(pub u8);

const LARGEST_FAULT_BOUND: u8 = 5;

pub(super) const CLIENTS: u8 = 96;

pub(super) const WRITERS: u8 = 64;

pub const REGISTERS: usize = 16;

// The fault bound that counts: no larger than the largest.
fn bounded(f: u8) -> u8
    ensures { result ≡ min f 5 }
{
    f.min(LARGEST_FAULT_BOUND)
}

// n, the number of replicas.
pub fn replica_count(f: u8) -> u8
    ensures { result ≡ replica_count f }
{
    3 * bounded(f) + 1
}

// q, the number of replicas in a quorum.
pub fn quorum_size(f: u8) -> u8
    ensures { result ≡ quorum_size f }
{
    2 * bounded(f) + 1
}

#[tactic(auto, unfolding(crate::specs::Range::within))]
pub fn within(low: u8, high: u8, x: u8) -> bool
    ensures { result ≡ within low high x }
{
    (low..=high).contains(&x)
}

pub fn is_fault_bound(f: u8) -> bool
    ensures { result ≡ is_fault_bound f }
{
    within(1, LARGEST_FAULT_BOUND, f)
}

pub fn is_replica(f: u8, id: ReplicaId) -> bool
    ensures { result ≡ is_replica f id }
{
    within(1, replica_count(f), id.0)
}

pub fn is_client(id: ClientId) -> bool
    ensures { result ≡ is_client id }
{
    within(1, CLIENTS, id.0)
}

pub fn is_writer(id: ClientId) -> bool
    ensures { result ≡ is_writer id }
{
    within(1, WRITERS, id.0)
}

pub fn is_viewer(id: ClientId) -> bool
    ensures { result ≡ is_viewer id }
{
    is_client(id) && !is_writer(id)
}

pub fn is_register(id: RegisterId) -> bool
    ensures { result ≡ is_register id }
{
    within(1, REGISTERS as u8, id.0)
}

// Where a register stands among all: register x at x - 1. What is no register's number stands at 0 too.
#[tactic(auto, unfolding(crate::specs::Range::within))]
pub fn register_place(id: RegisterId) -> usize
    ensures { (result ≡ register_place id) × (result < 16) }
{
    if is_register(id) {
        usize::from(id.0 - 1)
    } else {
        0
    }
}

// Whether a replica can be set up with these numbers.
#[tactic(auto, unfolding(crate::specs::Outcome::guard))]
pub fn replica_setup(f: u8, id: ReplicaId) -> Result<(), Refusal>
    ensures { outcome result ≡ replica_setup f id }
{
    if is_fault_bound(f) && is_replica(f, id) {
        Ok(())
    } else {
        Err(Refusal::SetUp)
    }
}

// The same of a client, by whether its number is in its range.
#[tactic(auto, unfolding(crate::specs::Outcome::guard))]
fn client_setup_if(in_range: bool, f: u8, first_nonce: u64) -> Result<(), Refusal>
    ensures { outcome result ≡ client_setup_if in_range f first_nonce }
{
    if is_fault_bound(f) && in_range && first_nonce != 0 {
        Ok(())
    } else {
        Err(Refusal::SetUp)
    }
}

// Whether a client that writes can be set up with these numbers.
pub fn client_setup(f: u8, id: ClientId, first_nonce: u64) -> Result<(), Refusal>
    ensures { outcome result ≡ client_setup f id first_nonce }
{
    client_setup_if(is_writer(id), f, first_nonce)
}

// Whether a viewing client can be set up with these numbers.
pub fn viewer_setup(f: u8, id: ClientId, first_nonce: u64) -> Result<(), Refusal>
    ensures { outcome result ≡ viewer_setup f id first_nonce }
{
    client_setup_if(is_viewer(id), f, first_nonce)
}

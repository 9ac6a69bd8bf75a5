// Numbers of parties, timestamps and sets of replicas, and the laws on lists and numbers that the crates above share.
#![tactic(auto)]

pub mod big_endian;
mod bit_mask;
pub mod bytes;
pub mod client_set;
pub mod party;
pub mod refusal;
pub mod replica_set;
pub mod slices;
pub mod timestamp;

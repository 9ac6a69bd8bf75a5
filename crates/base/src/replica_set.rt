// Sets of replicas, a bit for each: replica 1 is the lowest.
ghost use Rattle.std.specs.Prelude.{◌≡◌};
ghost use Rattle.base.specs.BigEndian.{to_bytes};
ghost use Rattle.base.specs.ReplicaSet.{empty, has, with, is_quorum};

use crate::big_endian::to_two;
use crate::bit_mask;
use crate::party::{ReplicaId, quorum_size, replica_count};

#[repr(C)]
#[derive(Clone, Copy)]
pub struct ReplicaSet(pub u16);

const LARGEST_ID: u8 = 16;

impl ReplicaSet {
    pub fn empty() -> Self
        ensures { result ≡ empty }
    {
        ReplicaSet(0)
    }

    #[tactic(auto, unfolding(crate::specs::ReplicaSet::has))]
    pub fn has(self, id: ReplicaId) -> bool
        ensures { result ≡ has self id }
    {
        bit_mask::has(1, LARGEST_ID, u64::from(self.0), id.0)
    }

    #[tactic(auto, using(crate::proofs::Mask::put_in_16), unfolding(crate::specs::ReplicaSet::with))]
    pub fn with(self, id: ReplicaId) -> Self
        ensures { result ≡ with self id }
    {
        // `as`: it fits, as is proved, and try_from would bring an error that cannot be.
        ReplicaSet(bit_mask::with(1, LARGEST_ID, u64::from(self.0), id.0) as u16)
    }

    // The 16 bits, the high byte first.
    pub fn to_bytes(self) -> [u8; 2]
        ensures { result ≡ to_bytes 2 self.0 }
    {
        to_two(self.0)
    }

    // Whether the set has a quorum of the replicas 1 to n.
    pub fn is_quorum(self, f: u8) -> bool
        ensures { result ≡ is_quorum f self }
    {
        let among = u32::from(self.0) % (1 << replica_count(f));
        u32::from(quorum_size(f)) <= among.count_ones()
    }
}

// Sets of clients, a bit for each: of the writers client 1 is the lowest, of the viewing clients client 65. There is no integer of
// 96 bits.
ghost use Rattle.std.specs.Prelude.{◌≡◌};
ghost use Rattle.base.specs.ClientSet.{nobody, has, with};

use crate::bit_mask;
use crate::party::{CLIENTS, ClientId, WRITERS};

#[repr(C)]
#[derive(Clone, Copy)]
pub struct ClientSet {
    pub writers: u64,
    pub viewers: u32,
}

const FIRST_VIEWER: u8 = WRITERS + 1;

impl ClientSet {
    pub fn nobody() -> Self
        ensures { result ≡ nobody }
    {
        ClientSet {
            writers: 0,
            viewers: 0,
        }
    }

    #[tactic(auto, unfolding(crate::specs::ClientSet::has))]
    pub fn has(self, id: ClientId) -> bool
        ensures { result ≡ has self id }
    {
        bit_mask::has(1, WRITERS, self.writers, id.0)
            || bit_mask::has(FIRST_VIEWER, CLIENTS, u64::from(self.viewers), id.0)
    }

    #[tactic(auto, using(crate::proofs::Mask::put_in_32), unfolding(crate::specs::ClientSet::with))]
    pub fn with(self, id: ClientId) -> Self
        ensures { result ≡ with self id }
    {
        // `as`: it fits, as is proved, and try_from would bring an error that cannot be.
        ClientSet {
            writers: bit_mask::with(1, WRITERS, self.writers, id.0),
            viewers: bit_mask::with(FIRST_VIEWER, CLIENTS, u64::from(self.viewers), id.0) as u32,
        }
    }
}

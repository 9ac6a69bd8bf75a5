// Bytes compared, and stored in others.
ghost use Rattle.std.specs.Prelude.{◌≡◌};
ghost use Rattle.base.specs.Bytes.{filled, stored};
ghost use Rattle.base.specs.Same.{same};

use crate::slices::front;

#[tactic(auto, using(crate::proofs::Same::pointwise_same))]
pub fn same(a: &[u8], b: &[u8]) -> bool
    ensures { result ≡ same a.now b.now }
{
    a == b
}

// All of some bytes, stored from a place on; nothing where there is no room for all.
#[tactic(auto, unfolding(crate::specs::Bytes::stored))]
pub fn put(out: &mut [u8], at: usize, bytes: &[u8])
    ensures { out.new ≡ stored at bytes.now out.old }
{
    if at <= out.len() && bytes.len() <= out.len() - at {
        out[at..at + bytes.len()].copy_from_slice(bytes);
    }
}

// The bytes in an array, zeros behind them; what does not fit is cut.
#[tactic(auto, using(crate::proofs::Filling::filled_stored))]
pub fn array<const N: usize>(bytes: &[u8]) -> [u8; N]
    ensures { result ≡ filled N bytes.now }
{
    let mut array = [0; N];
    put(&mut array, 0, front(bytes, N));
    array
}

// Bytes put into a buffer.
ghost use Rattle.text.specs.Put.{Puts};

// Stores bytes from a place on, as far as there is room, and answers the place behind them.
#[tactic(auto, unfolding(crate::specs::Put::written))]
pub fn put(to: &mut [u8], at: usize, bytes: &[u8]) -> usize
    ensures { Puts to.old at bytes.now result to.new }
{
    let from = at.min(to.len());
    let n = bytes.len().min(to.len() - from);
    to[from..from + n].copy_from_slice(&bytes[..n]);
    at + n
}

// Timestamps as text.
ghost use Rattle.text.specs.Put.{Puts};
ghost use Rattle.text.specs.Timestamp.{stamp};

use crate::buffer::put;
use crate::decimal::put_number;
use base::timestamp::Timestamp;

// The text that a timestamp is printed as (`proofs/Timestamps`), stored as `put` stores bytes.
pub fn put_timestamp(to: &mut [u8], at: usize, timestamp: Timestamp) -> usize
    ensures { Puts to.old at (stamp timestamp) result to.new }
{
    let count = put_number(to, at, u64::from(timestamp.count));
    let dot = put(to, count, b".");
    put_number(to, dot, u64::from(timestamp.client.0))
}

// The messages sent: how many, and how long each is. Their bytes stand in a borrowed store, 1,580 for each.
ghost use Rattle.std.specs.Prelude.{◌≡◌, ◌-◌, ◌≤◌};
ghost use Rattle.text.specs.Put.{Puts};
ghost use Rattle.play.specs.Log.{empty_log, start, logged, sent_length, message};

use base::slices::{behind, front};
use text::buffer::put;
use wire::layout::LONGEST_MESSAGE;

// An array with a count beside it: the project's rule is no heap.
#[derive(Clone, Copy)]
pub struct Log {
    pub count: u8,
    pub lengths: [usize; MOST],
}

// A line sends at most one message, and 100 lines are read.
const MOST: usize = 100;

impl Log {
    #[tactic(auto, unfolding(crate::specs::Log::empty_log))]
    pub fn empty() -> Log
        ensures { result ≡ empty_log }
    {
        Log {
            count: 0,
            lengths: [0; MOST],
        }
    }

    // The log after a message of so many bytes; a full one keeps no more.
    #[tactic(auto, using(std::proofs::lemmas::Bool::Decides::nat_tests), unfolding(crate::specs::Log::logged))]
    pub fn with(mut self, length: usize) -> Log
        ensures { result ≡ logged length self }
    {
        let at = usize::from(self.count);
        if at < MOST {
            self.lengths[at] = length;
            self.count += 1;
        }
        self
    }

    // The length of the message behind so many others.
    #[tactic(auto, using(std::proofs::lemmas::Bool::Decides::nat_tests), unfolding(crate::specs::Log::sent_length))]
    fn length_of(&self, before: usize) -> usize
        ensures { result ≡ sent_length self.now before }
    {
        self.lengths.get(before).copied().unwrap_or(0)
    }

    // Copies message m out of the store; answers how many bytes that were.
    #[tactic(auto, unfolding(crate::specs::Log::message))]
    pub fn copy_message(&self, m: usize, store: &[u8], to: &mut [u8]) -> usize
        ensures { Puts to.old 0 (message self.now store.now (m - 1)) result to.new }
    {
        let before = m.saturating_sub(1);
        let at = start(before, store.len());
        put(to, 0, front(behind(store, at), self.length_of(before)))
    }
}

// Where the message behind so many others starts in a store of that size.
#[tactic(auto, unfolding(crate::specs::Log::start))]
pub fn start(before: usize, size: usize) -> usize
    ensures { (result ≡ start before size) × (result ≤ size) }
{
    LONGEST_MESSAGE.saturating_mul(before).min(size)
}

// The lines that the player prints: `put` and not `Display`, since what has no room is cut, and each piece says where it ends.
ghost use Rattle.std.specs.Prelude.{[], ◌++◌};
ghost use Rattle.base.specs.Outcome.{accepted};
ghost use Rattle.base.specs.Refusal.{outcome};
ghost use Rattle.protocol.specs.Parts.{card_kept};
ghost use Rattle.text.specs.Decimal.{decimal};
ghost use Rattle.text.specs.Put.{Puts};
ghost use Rattle.play.specs.Output.{behind_card, said, line};
ghost use Rattle.play.specs.Player.{Says};

use base::refusal::Refusal;
use base::replica_set::ReplicaSet;
use base::slices::front;
use base::timestamp::Timestamp;
use text::buffer::put;
use text::decimal::put_number;
use text::hex::put_hex;
use text::timestamp::put_timestamp;
use wire::layout::CARD_ROOM;

// What a line says of its call, unless that is refused.
#[derive(Clone, Copy)]
pub enum Said {
    Sent(u32),
    Taken,
    Done(Timestamp, ReplicaSet),
    Ended,
    Unread,
}

// The same with the card that `done` shows; no other answer shows one. The card stands in an array with its length beside it, as the
// client hands it over: the project's rule is no heap.
#[derive(Clone, Copy)]
pub struct Saying {
    pub what: Result<Said, Refusal>,
    pub card: [u8; CARD_ROOM],
    pub card_length: u8,
}

// What shows no card.
pub(super) fn without_card(what: Result<Said, Refusal>) -> Saying
    ensures { Says (outcome what) [] result }
{
    Saying {
        what,
        card: [0; CARD_ROOM],
        card_length: 0,
    }
}

fn put_signers(out: &mut [u8], at: usize, signers: ReplicaSet) -> usize
    ensures { Puts out.old at (behind_card signers) result out.new }
{
    let space = put(out, at, b" ");
    put_hex(out, space, &signers.to_bytes())
}

fn put_done(
    out: &mut [u8],
    at: usize,
    timestamp: Timestamp,
    card: &[u8],
    signers: ReplicaSet,
) -> usize
    ensures { Puts out.old at (said (accepted (Said.Done timestamp signers)) card.now) result out.new }
{
    let word = put(out, at, b"done ");
    let when = put_timestamp(out, word, timestamp);
    let space = put(out, when, b" ");
    let shown = put_hex(out, space, card);
    put_signers(out, shown, signers)
}

// A word, and a number behind it.
fn put_numbered(out: &mut [u8], at: usize, word: &[u8], n: u64) -> usize
    ensures { Puts out.old at (word.now ++ decimal n) result out.new }
{
    let next = put(out, at, word);
    put_number(out, next, n)
}

#[tactic(auto, unfolding(crate::specs::Output::said))]
fn put_said(out: &mut [u8], at: usize, what: Result<Said, Refusal>, card: &[u8]) -> usize
    ensures { Puts out.old at (said (outcome what) card.now) result out.new }
{
    match what {
        Ok(Said::Sent(m)) => put_numbered(out, at, b"sent ", u64::from(m)),
        Ok(Said::Taken) => put(out, at, b"taken"),
        Ok(Said::Done(timestamp, signers)) => put_done(out, at, timestamp, card, signers),
        Ok(Said::Ended) => put(out, at, b"ended"),
        Ok(Said::Unread) => put(out, at, b"unread"),
        Err(refusal) => put_numbered(out, at, b"refused ", u64::from(refusal.number())),
    }
}

// A line of the output: the number of the input's line, and what is said of it.
pub(super) fn put_line(out: &mut [u8], at: usize, number: u8, saying: Saying) -> usize
    ensures { Puts out.old at (line number (outcome saying.what) (card_kept saying.card saying.card_length)) result out.new }
{
    let card = front(&saying.card, usize::from(saying.card_length).min(CARD_ROOM));
    let numbered = put_number(out, at, u64::from(number));
    let space = put(out, numbered, b" ");
    let words = put_said(out, space, saying.what, card);
    put(out, words, b"\n")
}

// What lines are answered, and how that is printed.
use crate::log::Log;
use base::refusal::Refusal;
use base::replica_set::ReplicaSet;
use base::slices::{behind, front};
use base::timestamp::Timestamp;
use console::print_hex;
use std::fmt::Display;
use std::{fmt, io};
use wire::layout::CARD_ROOM;

// What is said of a call that sends nothing.
#[derive(Clone, Copy)]
pub enum Word {
    Unread,
    New,
    Ready,
    Kept,
    Restored,
    Counted,
    Ended,
    Taken,
}

impl Display for Word {
    fn fmt<W: fmt::Write>(&self, f: &mut fmt::Formatter<W>) -> fmt::Result {
        f.write_str(match self {
            Word::Unread => "unread",
            Word::New => "new",
            Word::Ready => "ready",
            Word::Kept => "kept",
            Word::Restored => "restored",
            Word::Counted => "counted",
            Word::Ended => "ended",
            Word::Taken => "taken",
        })
    }
}

// A card as a client answers it: its length, and room for it.
#[derive(Clone, Copy)]
pub struct Card {
    pub length: u8,
    pub bytes: [u8; CARD_ROOM],
}

// What a line is answered, as it is printed: a refusal is one of the answers, and so no Result.
#[derive(Clone, Copy)]
pub enum Outcome {
    Said(Word),
    Sent(usize),
    Done(Timestamp, Card, ReplicaSet),
    Refused(Refusal),
}

// What a call answers that sends nothing.
impl From<Result<(), Refusal>> for Outcome {
    fn from(answer: Result<(), Refusal>) -> Outcome {
        match answer {
            Ok(()) => Outcome::Said(Word::Taken),
            Err(refusal) => Outcome::Refused(refusal),
        }
    }
}

// What fills an output before it is lent.
const UNTOUCHED: u8 = 165;

pub const OUTPUT: usize = 1_600;

pub fn untouched() -> [u8; OUTPUT] {
    [UNTOUCHED; OUTPUT]
}

fn print_done(
    rt: &impl Print,
    timestamp: Timestamp,
    card: Card,
    signers: ReplicaSet,
) -> io::Result<()> {
    print!(rt; "done {timestamp} ")?;
    print_hex(rt, front(&card.bytes, usize::from(card.length)))?;
    print!(rt; " ")?;
    print_hex(rt, &signers.to_bytes())
}

fn print_sent(rt: &impl Print, message: &[u8], log: &mut Log) -> io::Result<()> {
    let number = log.keep(message);
    print!(rt; "sent {number} ")?;
    print_hex(rt, message)
}

// Prints the answer to a line and keeps the message, if any; behind it `touched` where the call changed a byte of the output that
// is not the message's.
pub fn report(
    rt: &impl Print,
    outcome: Outcome,
    out: &[u8; OUTPUT],
    log: &mut Log,
) -> io::Result<()> {
    let sent = match outcome {
        Outcome::Sent(n) => n,
        _ => 0,
    };
    match outcome {
        Outcome::Said(word) => print!(rt; "{word}")?,
        Outcome::Sent(_) => print_sent(rt, front(out, sent), log)?,
        Outcome::Done(timestamp, card, signers) => print_done(rt, timestamp, card, signers)?,
        Outcome::Refused(refusal) => print!(rt; "refused {refusal}")?,
    }
    if behind(out, sent).iter().any(|byte| *byte != UNTOUCHED) {
        print!(rt; " touched")?;
    }
    print!(rt; "\n")
}

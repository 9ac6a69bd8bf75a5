// What a correct replica would have answered, and what the log has, on standard error.
use audit::calling::{Called, call_at};
use audit::comparing::common;
use audit::judging::HEAD;
use audit::reading::{CallPlaces, EntryPlaces, read_entry};
use base::slices::front;
use protocol::replica::Bank;
use std::io;
use wire::parts::part;

fn say_expected(rt: &impl Eprint, called: &Called, is_order: bool) -> io::Result<()> {
    eprint!(rt; "a correct replica ")?;
    match called.answer {
        Ok(_) if is_order => eprint!(rt; "takes this order"),
        Ok(length) => eprint!(rt; "answers this message with {length} bytes"),
        Err(refusal) => {
            let call = if is_order { "order" } else { "message" };
            eprint!(rt; "refuses this {call} with {refusal}")
        }
    }
}

// Where a reply of the right length differs.
fn say_difference(rt: &impl Eprint, called: &Called, reply: &[u8]) -> io::Result<()> {
    let Ok(length) = called.answer else {
        return Ok(());
    };
    let same = common(front(&called.out, length), reply);
    if length == reply.len() && same < length {
        eprint!(rt; ", and byte {} is the first that differs", same as u64 + 1)?;
    }
    Ok(())
}

fn say_reply(rt: &impl Eprint, called: &Called, is_order: bool, reply: &[u8]) -> io::Result<()> {
    if is_order && reply.is_empty() {
        eprint!(rt; "it taken")?;
    } else {
        eprint!(rt; "a reply of {} bytes", reply.len())?;
    }
    say_difference(rt, called, reply)
}

fn explain_answer(
    rt: &impl Eprint,
    bank: Bank,
    bytes: &[u8],
    places: EntryPlaces,
) -> io::Result<()> {
    let called = call_at(bank, bytes, places.call);
    let is_order = matches!(places.call, CallPlaces::Order(_));
    say_expected(rt, &called, is_order)?;
    eprint!(rt; "; the log has ")?;
    match places.answer {
        Ok(reply) => say_reply(rt, &called, is_order, part(bytes, reply)),
        Err(number) => eprint!(rt; "refusal {number}"),
    }
}

// No whole entry starts there.
fn explain_start(rt: &impl Eprint, bytes: &[u8]) -> io::Result<()> {
    match bytes.first() {
        None => Ok(()),
        Some(opening) if *opening <= 1 => eprint!(rt; "it is cut short"),
        Some(opening) => eprint!(rt; "it opens with {opening}, and not with 0 or 1"),
    }
}

// The bytes start with the entry of that number, which is wrong, at the bank that the entries before it left.
pub fn explain(rt: &impl Eprint, bank: Bank, bytes: &[u8], number: u64) -> io::Result<()> {
    eprint!(rt; "entry {number}: ")?;
    match read_entry(bytes) {
        Some(places) => explain_answer(rt, bank, bytes, places)?,
        None => explain_start(rt, bytes)?,
    }
    eprint!(rt; "\n")
}

// A head that sets nothing up, of a log with so many bytes at hand.
pub fn explain_head(rt: &impl Eprint, length: usize) -> io::Result<()> {
    if length < HEAD {
        eprint!(rt; "the head has {length} bytes, and not {HEAD}\n")
    } else {
        eprint!(rt; "the head is refused with 16\n")
    }
}

pub fn explain_unread(rt: &impl Eprint) -> io::Result<()> {
    eprint!(rt; "the log cannot be read to its end\n")
}

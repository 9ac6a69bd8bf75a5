// Parties, and what a line does with one.
use crate::answers::{Outcome, Word, report, untouched};
use crate::log::Log;
use crate::tasks::{Ask, Task, Whom, lent};
use crate::words::{hex, rest, word};
use base::party::RegisterId;
use base::refusal::Refusal;
use base::slices::{behind, front};
use std::io;
use text::decimal::decimal_or_zero;
use wire::message::Party as Role;
use wire::signatures::{handed_signature_count, signature_count};

// What a party that is set up is asked, with what it is handed.
#[derive(Clone, Copy)]
pub enum Call<'a> {
    Write(RegisterId, &'a [u8]),
    Read(RegisterId),
    HandOver(&'a [u8], &'a [u8]),
    Hand(RegisterId, &'a [u8], &'a [u8]),
    Order(&'a [u8]),
}

pub trait Party: Copy {
    // A party with this f and number, and with what a word says; none if the word cannot be read.
    fn set_up(f: u8, id: u8, word: &[u8]) -> Option<Result<Self, Refusal>>;

    // What a call leaves, and its answer; none if such a party is not asked this.
    fn call(self, call: Call<'_>, out: &mut [u8]) -> Option<(Self, Outcome)>;
}

// So many bytes of a card, an order, a written proof or a message are taken, and of verdicts.
const CARD: usize = 64;

const ORDER: usize = 2_048;

const PROOF: usize = 2_048;

const MESSAGE: usize = 4_096;

const VERDICTS: usize = 400;

// The message that a word is: `@M` for one that was sent, or hex.
fn message<'a>(word: &[u8], log: &'a Log, room: &'a mut [u8]) -> Option<&'a [u8]> {
    if word.starts_with(b"@") {
        return log.message(decimal_or_zero(behind(word, 1)) as usize);
    }
    hex(word, room)
}

// The verdicts that a word is: `+` for a 1 per signature, which are there already, or hex.
fn verdicts<'a>(word: &[u8], signatures: usize, ones: &'a mut [u8]) -> Option<&'a [u8]> {
    match word {
        b"+" => Some(front(ones, signatures)),
        _ => hex(word, ones),
    }
}

// `to-PARTY ID MESSAGE VERDICTS`. A message that cannot be read has no signatures, and is refused before its verdicts count.
fn hand_over<'a>(
    whom: Whom,
    line: &[u8],
    log: &'a Log,
    room: &'a mut [u8; MESSAGE],
    ones: &'a mut [u8; VERDICTS],
) -> Option<Call<'a>> {
    let role = match whom {
        Whom::Replica => Role::Replica,
        _ => Role::Client,
    };
    let message = message(word(line, 2), log, room)?;
    let verdicts = verdicts(rest(line, 3), signature_count(role, message), ones)?;
    Some(Call::HandOver(message, verdicts))
}

// `hand ID REGISTER PROOF VERDICTS`, likewise
fn hand<'a>(
    register: u8,
    line: &[u8],
    room: &'a mut [u8; MESSAGE],
    ones: &'a mut [u8; VERDICTS],
) -> Option<Call<'a>> {
    let proof = hex(word(line, 3), &mut room[..PROOF])?;
    let verdicts = verdicts(rest(line, 4), handed_signature_count(proof), ones)?;
    Some(Call::Hand(RegisterId(register), proof, verdicts))
}

// The call of a task, with what its line hands over, unless this cannot be read.
fn called<'a>(
    task: Task,
    line: &[u8],
    log: &'a Log,
    room: &'a mut [u8; MESSAGE],
    ones: &'a mut [u8; VERDICTS],
) -> Option<Call<'a>> {
    match task.ask {
        Ask::Write(register) => {
            let card = hex(rest(line, 3), &mut room[..CARD])?;
            Some(Call::Write(RegisterId(register), card))
        }
        Ask::Read(register) => Some(Call::Read(RegisterId(register))),
        Ask::HandOver => hand_over(task.whom, line, log, room, ones),
        Ask::Hand(register) => hand(register, line, room, ones),
        Ask::Order => Some(Call::Order(hex(rest(line, 2), &mut room[..ORDER])?)),
        _ => None,
    }
}

// Does what a task asks, and answers it, unless a word cannot be read or the party is not set up.
fn perform<P: Party, const N: usize>(
    records: &mut [Option<P>; N],
    task: Task,
    line: &[u8],
    log: &Log,
    out: &mut [u8],
) -> Option<Outcome> {
    let taken = *records.get(task.taken)?;
    let left = records.get_mut(task.left)?;
    match task.ask {
        Ask::SetUp(f, id) => match P::set_up(f, id, rest(line, 3))? {
            Ok(party) => {
                *left = Some(party);
                Some(Outcome::Said(Word::Ready))
            }
            // What was set up before stays.
            Err(refusal) => Some(Outcome::Refused(refusal)),
        },
        Ask::Copy(word) => {
            *left = Some(taken?);
            Some(Outcome::Said(word))
        }
        _ => {
            let mut room = [0; MESSAGE];
            let mut ones = [1; VERDICTS];
            let call = called(task, line, log, &mut room, &mut ones)?;
            let (next, outcome) = taken?.call(call, out)?;
            *left = Some(next);
            Some(outcome)
        }
    }
}

// Does what a line asks, and prints the answer.
pub fn turn<P: Party, const N: usize>(
    rt: &impl Print,
    records: &mut [Option<P>; N],
    task: Task,
    line: &[u8],
    log: &mut Log,
) -> io::Result<()> {
    let (call, room) = lent(line);
    let mut out = untouched();
    let outcome = perform(records, task, call, log, &mut out[..room]).unwrap_or(Outcome::Said(
        Word::Unread,
    ));
    report(rt, outcome, &out, log)
}

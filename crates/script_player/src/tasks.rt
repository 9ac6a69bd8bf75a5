// Lines as tasks: whom a line is about and what it asks, read before a record is touched.
ghost use Rattle.std.specs.Prelude.{◌≤◌};

use crate::answers::{OUTPUT, Word};
use crate::words::{rest, word};
use text::decimal::{decimal_byte, decimal_or_zero, read_decimal};

// Whom a line is about.
#[derive(Clone, Copy)]
pub enum Whom {
    Replica,
    Client,
    Viewer,
}

// What is asked of a party, before what it is handed is read: then it is a `Call`.
#[derive(Clone, Copy)]
pub enum Ask {
    // f and its number. The line's last word, a key or a first nonce, is the party's to read.
    SetUp(u8, u8),
    // The register.
    Write(u8),
    // The register. A viewing client's view is a read too.
    Read(u8),
    HandOver,
    // The register of a written proof.
    Hand(u8),
    Order,
    // Its record is copied, and the word is said.
    Copy(Word),
}

// What is asked, with the place of the record that it takes and the place where it leaves one.
#[derive(Clone, Copy)]
pub struct Task {
    pub whom: Whom,
    pub ask: Ask,
    pub taken: usize,
    pub left: usize,
}

// A party's record stands at its number, a viewing client's at its number less 64, and the one kept aside behind all of these. There
// are places for the numbers that a party can have: records are too large for more. Other numbers' place is 0, where none is set up.
pub const REPLICA_PLACES: usize = 34;

pub const CLIENT_PLACES: usize = 130;

pub const VIEWER_PLACES: usize = 66;

// How many numbers such a party can have.
fn last(whom: Whom) -> usize
    ensures { result ≤ 64 }
{
    match whom {
        Whom::Replica => 16,
        Whom::Client => 64,
        Whom::Viewer => 32,
    }
}

// Where a party's record stands, by the word that is its number.
fn seat(whom: Whom, id: &[u8]) -> usize
    ensures { result ≤ 64 }
{
    let n = decimal_or_zero(id) as usize;
    let at = match whom {
        Whom::Viewer => n.saturating_sub(64),
        _ => n,
    };
    if at <= last(whom) { at } else { 0 }
}

// A task of a party whose record stays at its place.
fn at_seat(whom: Whom, ask: Ask, id: &[u8]) -> Task {
    let at = seat(whom, id);
    Task {
        whom,
        ask,
        taken: at,
        left: at,
    }
}

// `replica F ID KEY`, `client F ID NONCE` and `viewer F ID NONCE`
fn set_up(whom: Whom, line: &[u8]) -> Option<Task> {
    let id = word(line, 2);
    let ask = Ask::SetUp(decimal_byte(word(line, 1))?, decimal_byte(id)?);
    Some(at_seat(whom, ask, id))
}

// The party of `keep PARTY ID` and `restore PARTY ID`, the place of its record, and that of the one kept aside.
fn places(line: &[u8]) -> Option<(Whom, usize, usize)> {
    let whom = match word(line, 1) {
        b"replica" => Whom::Replica,
        b"client" => Whom::Client,
        b"viewer" => Whom::Viewer,
        _ => return None,
    };
    let at = seat(whom, rest(line, 2));
    Some((whom, at, at + last(whom) + 1))
}

fn keep(line: &[u8]) -> Option<Task> {
    let (whom, taken, left) = places(line)?;
    let ask = Ask::Copy(Word::Kept);
    Some(Task {
        whom,
        ask,
        taken,
        left,
    })
}

fn restore(line: &[u8]) -> Option<Task> {
    let (whom, left, taken) = places(line)?;
    let ask = Ask::Copy(Word::Restored);
    Some(Task {
        whom,
        ask,
        taken,
        left,
    })
}

// A call that may stand behind `lent N`, of a party that the line's second word names.
fn call(line: &[u8]) -> Option<Task> {
    let (whom, ask) = match word(line, 0) {
        b"to-replica" => (Whom::Replica, Ask::HandOver),
        b"to-client" => (Whom::Client, Ask::HandOver),
        b"to-viewer" => (Whom::Viewer, Ask::HandOver),
        b"write" => (Whom::Client, Ask::Write(decimal_byte(word(line, 2))?)),
        b"read" => (Whom::Client, Ask::Read(decimal_byte(rest(line, 2))?)),
        b"view" => (Whom::Viewer, Ask::Read(decimal_byte(rest(line, 2))?)),
        _ => return None,
    };
    Some(at_seat(whom, ask, word(line, 1)))
}

// The call of a line, behind `lent N`, and how many bytes of output it is lent.
pub fn lent(line: &[u8]) -> (&[u8], usize)
    ensures { result.1 ≤ 1600 }
{
    match (word(line, 0), read_decimal(word(line, 1))) {
        (b"lent", Some(n)) if n <= OUTPUT as u64 => (rest(line, 2), n as usize),
        (b"lent", _) => (b"", 0),
        _ => (line, OUTPUT),
    }
}

// What a line asks for.
pub fn of_line(line: &[u8]) -> Option<Task> {
    match word(line, 0) {
        b"replica" => set_up(Whom::Replica, line),
        b"client" => set_up(Whom::Client, line),
        b"viewer" => set_up(Whom::Viewer, line),
        b"keep" => keep(line),
        b"restore" => restore(line),
        // no output is lent with an order or a written proof
        b"order" => Some(at_seat(Whom::Replica, Ask::Order, word(line, 1))),
        b"hand" => {
            let register = decimal_byte(word(line, 2))?;
            Some(at_seat(Whom::Client, Ask::Hand(register), word(line, 1)))
        }
        _ => call(lent(line).0),
    }
}

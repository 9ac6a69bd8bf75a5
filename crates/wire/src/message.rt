// Messages as they stand in a slice.
ghost use Rattle.std.specs.Prelude.{◌≡◌};
ghost use Rattle.wire.specs.Kind.{kind_number, kind_of_number};

use base::party::{ClientId, RegisterId};
use base::timestamp::Timestamp;

// Who is handed a message.
#[derive(Clone, Copy, Debug, PartialEq, Eq)]
pub enum Party {
    Replica,
    Client,
}

// The kinds of messages, by their numbers.
#[derive(Clone, Copy, Debug, PartialEq, Eq)]
pub enum Kind {
    ReadStamp = 1,
    Prepare = 2,
    Write = 3,
    Read = 4,
    Stamp = 5,
    Prepared = 6,
    Written = 7,
    Card = 8,
}

impl Kind {
    // The kind with a number. Not TryFrom: a number that no kind has is refused with 5 by whoever asks.
    pub fn of(number: u8) -> Option<Kind>
        ensures { result ≡ kind_of_number number }
    {
        match number {
            1 => Some(Kind::ReadStamp),
            2 => Some(Kind::Prepare),
            3 => Some(Kind::Write),
            4 => Some(Kind::Read),
            5 => Some(Kind::Stamp),
            6 => Some(Kind::Prepared),
            7 => Some(Kind::Written),
            8 => Some(Kind::Card),
            _ => None,
        }
    }

    pub fn number(self) -> u8
        ensures { result ≡ kind_number self }
    {
        self as u8
    }
}

// Where a field stands in a message; it ends where it starts if the bit is not set.
#[derive(Clone, Copy)]
pub struct Span {
    pub start: usize,
    pub end: usize,
}

// The fields of a message that was read: the numbers by value, 0 where the bit is not set; the rest by where they stand.
#[derive(Clone, Copy)]
pub struct Fields {
    pub map: u16,
    pub kind: Kind,
    pub sender: u8,
    pub nonce: u64,
    pub timestamp: Timestamp,
    pub digest: Span,
    pub card: Span,
    pub prepared: Span,
    pub written: Span,
    pub addressed: ClientId,
    pub register: RegisterId,
    pub signature: Span,
}

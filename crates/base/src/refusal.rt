// The refusals: document 01's numbers ("Turned down, in checking order") and document 02's. What each tests, the definitions say.
ghost use Rattle.std.specs.Prelude.{◌≡◌, Some};
ghost use Rattle.std.specs.Fmt.{decimal};
ghost use Rattle.base.specs.Refusal.{number_of};

use std::fmt;
use std::fmt::Display;

// 12 refused a written proof of another client; document 02, #106, lets any client's pass.
#[derive(Clone, Copy, Debug, PartialEq, Eq, PartialOrd, Ord)]
pub enum Refusal {
    OutputTooShort = 1,
    MessageLength = 2,
    BitMap = 3,
    FieldLengths = 4,
    Kind = 5,
    Sender = 6,
    Verdicts = 7,
    NotGenuine = 8,
    NotAQuorum = 9,
    EntryNotGenuine = 10,
    NotIssued = 11,
    NotSuccessor = 13,
    BadCard = 14,
    NotTaken = 15,
    SetUp = 16,
    Busy = 17,
    NotAwaited = 18,
    NotForViewers = 19,
    Register = 20,
    Order = 21,
    OrderNotGenuine = 22,
    Withdrawn = 23,
}

impl Refusal {
    pub fn number(self) -> u8
        ensures { result ≡ number_of self }
    {
        self as u8
    }
}

// Written as its number.
impl Display for Refusal {
    ghost output = { λ refusal. Some (decimal (number_of refusal)) };

    fn fmt<W: fmt::Write>(&self, f: &mut fmt::Formatter<W>) -> fmt::Result {
        write!(f, "{}", self.number())
    }
}

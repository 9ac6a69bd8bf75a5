// Timestamps: who wrote, and after how many earlier writes.
ghost use Rattle.std.specs.Prelude.{◌≡◌, ◌∷◌, [], Some};
ghost use Rattle.base.specs.BigEndian.{from_bytes, to_bytes};
ghost use Rattle.base.specs.Timestamp.{number, of_number, Before, is_same, start, successor, is_issued, shown};

use crate::big_endian::from_four;
use crate::party::{ClientId, is_writer};
use std::fmt;
use std::fmt::Display;

// A timestamp (document 01: stamp), written count.client.
#[repr(C)]
#[derive(Clone, Copy, Debug, PartialEq, Eq, PartialOrd, Ord)]
pub struct Timestamp {
    pub count: u32,
    pub client: ClientId,
}

impl Timestamp {
    // 0.0, at which every replica starts.
    pub fn start() -> Self
        ensures { result ≡ start }
    {
        Timestamp {
            count: 0,
            client: ClientId(0),
        }
    }

    // The number whose order is that of timestamps.
    pub fn number(self) -> u64
        ensures { result ≡ number self }
    {
        u64::from(self.count) * 256 + u64::from(self.client.0)
    }

    pub fn is_before(self, other: Timestamp) -> bool
        ensures { Before self other result }
    {
        self < other
    }

    pub fn is(self, other: Timestamp) -> bool
        ensures { result ≡ is_same self other }
    {
        self == other
    }

    // The last count has none.
    pub fn successor(self, client: ClientId) -> Option<Timestamp>
        ensures { result ≡ successor self client }
    {
        let count = self.count.checked_add(1)?;
        Some(Timestamp { count, client })
    }

    // Whether a client can have issued it: test 11.
    pub fn is_issued(self) -> bool
        ensures { result ≡ is_issued self }
    {
        self.count != 0 && is_writer(self.client)
    }

    #[tactic(auto, unfolding(crate::specs::BigEndian::to_bytes))]
    pub fn to_bytes(self) -> [u8; 5]
        ensures { result ≡ to_bytes 5 (number self) }
    {
        let [a, b, c, d] = self.count.to_be_bytes();
        [a, b, c, d, self.client.0]
    }

    #[tactic(auto, unfolding(crate::specs::BigEndian::from_bytes))]
    pub fn from_bytes(a: u8, b: u8, c: u8, d: u8, client: u8) -> Self
        ensures { result ≡ of_number (from_bytes (a ∷ b ∷ c ∷ d ∷ client ∷ [])) }
    {
        Timestamp {
            count: from_four(a, b, c, d),
            client: ClientId(client),
        }
    }
}

// Written count.client, as `text::timestamp::put_timestamp` puts it.
impl Display for Timestamp {
    ghost output = { λ t. Some (shown t) };

    fn fmt<W: fmt::Write>(&self, f: &mut fmt::Formatter<W>) -> fmt::Result {
        write!(f, "{}.{}", self.count, self.client.0)
    }
}

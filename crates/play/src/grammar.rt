// The player's grammar: what a line asks for.
ghost use Rattle.std.specs.Prelude.{◌≡◌};
ghost use Rattle.std.specs.List.{list_all};
ghost use Rattle.text.specs.Decimal.{numeral, below};
ghost use Rattle.play.specs.Grammar.{is_hex_digit, is_hex_card, message_number, asked, command};

use base::party::{ClientId, ReplicaId, within};
use text::decimal::read_decimal;

// What a line asks for.
#[derive(Clone, Copy, Debug, PartialEq, Eq)]
pub enum Command {
    Write(ClientId),
    Read(ClientId),
    ToReplica(ReplicaId, usize),
    ToClient(ClientId, usize),
}

// The longest card has 17 bytes.
const MOST_DIGITS: usize = 34;

// At most 100 messages are sent, so that none has a number above 999.
const NUMBER_LIMIT: u64 = 1_000;

#[tactic(auto, unfolding(crate::specs::Grammar::is_hex_digit))]
fn is_hex_digit(byte: u8) -> bool
    ensures { result ≡ is_hex_digit byte }
{
    within(b'0', b'9', byte) || within(b'A', b'F', byte)
}

fn all_hex(digits: &[u8]) -> bool
    ensures { result ≡ list_all is_hex_digit digits.now }
{
    digits.iter().all(|digit| is_hex_digit(*digit))
}

// 1 to 17 pairs of capital hex digits.
#[tactic(auto, using(std::proofs::lemmas::Bool::Decides::nat_tests), unfolding(crate::specs::Grammar::is_hex_card, base::specs::Range::within))]
fn is_card(digits: &[u8]) -> bool
    ensures { result ≡ is_hex_card digits.now }
{
    let n = digits.len();
    (2..=MOST_DIGITS).contains(&n) && n % 2 == 0 && all_hex(digits)
}

// `as`: a number below 1,000 fits.
fn below_limit(digits: &[u8]) -> Option<usize>
    ensures { result ≡ below 1_000 (numeral digits.now) }
{
    read_decimal(digits)
        .filter(|n| *n < NUMBER_LIMIT)
        .map(|n| n as usize)
}

// A message's number has no leading zero.
#[tactic(auto, using(std::proofs::lemmas::Bool::Decides::nat_tests), unfolding(crate::specs::Grammar::message_number))]
fn message_number(digits: &[u8]) -> Option<usize>
    ensures { result ≡ message_number digits.now }
{
    match digits {
        [b'0', ..] => None,
        _ => below_limit(digits),
    }
}

// What the letter asks of the party, with what stands behind the second space.
#[tactic(auto, using(std::proofs::lemmas::Bool::Decides::nat_tests), unfolding(crate::specs::Grammar::asked))]
fn asked(letter: u8, party: u8, rest: &[u8]) -> Option<Command>
    ensures { result ≡ asked letter party rest.now }
{
    match letter {
        b'h' => Some(Command::ToReplica(ReplicaId(party), message_number(rest)?)),
        b'd' => Some(Command::ToClient(ClientId(party), message_number(rest)?)),
        b'w' if is_card(rest) => Some(Command::Write(ClientId(party))),
        _ => None,
    }
}

// What a line asks for, if it is of the grammar's form.
#[tactic(auto, using(std::proofs::lemmas::Bool::Decides::nat_tests), unfolding(crate::specs::Grammar::command, crate::specs::Grammar::short, base::specs::Range::within))]
pub fn parse(line: &[u8]) -> Option<Command>
    ensures { result ≡ command line.now }
{
    match line {
        [letter, b' ', party @ b'1'..=b'4', b' ', rest @ ..] => asked(*letter, *party - b'0', rest),
        [b'r', b' ', party @ b'1'..=b'4'] => Some(Command::Read(ClientId(*party - b'0'))),
        _ => None,
    }
}

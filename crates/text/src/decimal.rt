// Numbers in decimal digits.
ghost use Rattle.std.specs.Prelude.{◌≡◌, ◌∷◌, [], ◌+◌, ◌<◌, unwrap_or};
ghost use Rattle.text.specs.Decimal.{decimal, with_digits, numeral, below};
ghost use Rattle.text.specs.Put.{Puts};

use crate::buffer::put;

// The number with a digit behind it.
#[tactic(auto, unfolding(crate::specs::Decimal::with_digits, base::specs::Range::within))]
fn with_digit(n: u64, byte: u8) -> Option<u64>
    ensures { result ≡ with_digits n (byte ∷ []) }
{
    if !byte.is_ascii_digit() {
        return None;
    }
    n.checked_mul(10)?.checked_add(u64::from(byte - b'0'))
}

// The number that a word is.
#[tactic(auto, using(crate::proofs::Decimals::none_further, crate::proofs::Decimals::further, crate::proofs::Decimals::none_left))]
pub fn read_decimal(word: &[u8]) -> Option<u64>
    ensures { result ≡ numeral word.now }
{
    if word.is_empty() {
        return None;
    }
    let mut n = 0;
    for byte in word {
        n = with_digit(n, *byte)?;
    }
    Some(n)
}

// The same, 0 for other text.
pub fn decimal_or_zero(word: &[u8]) -> u64
    ensures { result ≡ unwrap_or (numeral word.now) 0 }
{
    read_decimal(word).unwrap_or(0)
}

// The same of a number of one byte.
pub fn decimal_byte(word: &[u8]) -> Option<u8>
    ensures { result ≡ below 256 (numeral word.now) }
{
    u8::try_from(read_decimal(word)?).ok()
}

fn put_digit(to: &mut [u8], at: usize, digit: u64) -> usize
    requires { digit < 10 }
    ensures { Puts to.old at ((48 + digit) ∷ []) result to.new }
{
    put(to, at, &[b'0' + digit as u8])
}

// A number's digits, stored as `put` stores bytes: those before the last, and the last. Not by Display, of which no contract says the
// bytes.
pub fn put_number(to: &mut [u8], at: usize, n: u64) -> usize
    ensures { Puts to.old at (decimal n) result to.new }
{
    if n < 10 {
        return put_digit(to, at, n);
    }
    let last = put_number(to, at, n / 10);
    put_digit(to, last, n % 10)
}

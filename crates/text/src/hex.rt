// Bytes in hex digits.
ghost use Rattle.std.specs.Prelude.{◌≡◌, ◌+◌, ◌<◌, IfSome, get_or};
ghost use Rattle.text.specs.Hex.{hex_value, pair_value, HexRead, WordRead, hex_digit, hex_pair, hex};
ghost use Rattle.text.specs.Put.{Puts};

use crate::buffer::put;

// The value of a hex digit, capital or small.
#[tactic(auto, unfolding(crate::specs::Hex::hex_value, base::specs::Range::within))]
pub fn hex_value(byte: u8) -> Option<u8>
    ensures { (result ≡ hex_value byte) × IfSome result (λ value. value < 16) }
{
    match byte {
        b'0'..=b'9' => Some(byte - b'0'),
        b'A'..=b'F' => Some(byte - b'A' + 10),
        b'a'..=b'f' => Some(byte - b'a' + 10),
        _ => None,
    }
}

// The byte that two hex digits at a place write.
#[tactic(auto, using(crate::proofs::Pairs::cut_short), unfolding(crate::specs::Hex::pair_value))]
pub fn hex_byte(line: &[u8], at: usize) -> Option<u8>
    ensures { result ≡ pair_value (get_or line.now at 0) (get_or line.now (at + 1) 0) }
{
    let high = hex_value(*line.get(at)?)?;
    let low = hex_value(*line.get(at + 1)?)?;
    Some(high * 16 + low)
}

// The bytes of the hex pairs at the front of a line, as many as there is room for; answers how many.
#[tactic(auto, using(crate::proofs::Pairs::room_ended))]
pub fn read_hex(line: &[u8], out: &mut [u8]) -> usize
    ensures { HexRead line.now out.old out.new result }
{
    for (n, to) in out.iter_mut().enumerate() {
        let Some(byte) = hex_byte(line, 2 * n) else {
            return n;
        };
        *to = byte;
    }
    out.len()
}

// The same of a word that must be pairs and nothing else.
#[tactic(auto, unfolding(crate::specs::Hex::word_length))]
pub fn read_word(word: &[u8], out: &mut [u8]) -> Option<usize>
    ensures { WordRead word.now out.old out.new result }
{
    let n = read_hex(word, out);
    if word.len() == 2 * n { Some(n) } else { None }
}

#[tactic(auto, unfolding(crate::specs::Hex::hex_digit))]
fn capital_digit(n: u8) -> u8
    requires { n < 16 }
    ensures { result ≡ hex_digit n }
{
    if n < 10 { b'0' + n } else { b'A' - 10 + n }
}

fn put_pair(to: &mut [u8], at: usize, byte: u8) -> usize
    ensures { Puts to.old at (hex_pair byte) result to.new }
{
    let pair = [capital_digit(byte / 16), capital_digit(byte % 16)];
    put(to, at, &pair)
}

// The bytes' hex digits, stored as `put` stores bytes. Not by Display either.
pub fn put_hex(to: &mut [u8], at: usize, bytes: &[u8]) -> usize
    ensures { Puts to.old at (hex bytes.now) result to.new }
{
    let mut next = at;
    for byte in bytes {
        next = put_pair(to, next, *byte);
    }
    next
}

// The words of a line, parted by one space each, and the bytes that they write.
use base::slices::{behind, front};
use text::hex::read_word;
use text::line::word_end;

// Where the word with a number starts, from 0.
fn start(line: &[u8], number: usize) -> usize {
    let mut at = 0;
    for _ in 0..number {
        at = word_end(line, at).wrapping_add(1);
    }
    at
}

// A line from the word with a number on.
pub fn rest(line: &[u8], number: usize) -> &[u8] {
    behind(line, start(line, number))
}

pub fn word(line: &[u8], number: usize) -> &[u8] {
    let from = rest(line, number);
    front(from, word_end(from, 0))
}

// The bytes that a word writes in hex, `-` for none, stored where there is room; a word that is no hex, or too long for the room, writes nothing.
pub fn hex<'a>(word: &[u8], to: &'a mut [u8]) -> Option<&'a [u8]> {
    let n = match word {
        b"-" => 0,
        [] => return None,
        _ => read_word(word, to)?,
    };
    Some(front(to, n))
}

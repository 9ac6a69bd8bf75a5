// Lines of a text, and words of a line.
ghost use Rattle.std.specs.Prelude.{◌≡◌, ◌≤◌, length};
ghost use Rattle.text.specs.Line.{EndsAt, length_to};

use base::slices::behind;

// Ends a line: 10, by `line_end`'s contract.
pub const NEWLINE: u8 = b'\n';

// Ends a word: 32, by `word_end`'s contract.
pub const SPACE: u8 = b' ';

// How many bytes come before the first such byte, or in all.
fn length_to(mark: u8, text: &[u8]) -> usize
    ensures value { result ≡ length_to mark text.now }
    ensures inside { result ≤ length text.now }
{
    text.iter()
        .position(|byte| *byte == mark)
        .unwrap_or(text.len())
}

fn end_at(mark: u8, text: &[u8], from: usize) -> usize
    ensures { EndsAt mark text.now from result }
{
    from + length_to(mark, behind(text, from))
}

// Where the line that starts at `from` ends: at its newline, or where the text ends.
pub fn line_end(text: &[u8], from: usize) -> usize
    ensures { EndsAt 10 text.now from result }
{
    end_at(NEWLINE, text, from)
}

// Where the word that starts at `from` ends: at the next space, or where the line ends.
pub fn word_end(line: &[u8], from: usize) -> usize
    ensures { EndsAt 32 line.now from result }
{
    end_at(SPACE, line, from)
}

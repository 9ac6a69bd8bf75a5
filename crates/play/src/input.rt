// What the player keeps of its input, which it gets in pieces: the first 100 lines, each cut to its first 39 bytes.
ghost use Rattle.std.specs.Prelude.{◌≡◌, [], ◌∷◌, leb};
ghost use Rattle.play.specs.Input.{start_place, Keeps};

use text::buffer::put;

// Bytes of the last line, and whole lines before it.
#[derive(Clone, Copy)]
pub struct Place {
    pub column: usize,
    pub lines: usize,
}

// So many bytes were kept, and the input has come to this place.
#[derive(Clone, Copy)]
pub struct Kept {
    pub length: usize,
    pub place: Place,
}

const NEWLINE: u8 = b'\n';

const LINES: usize = 100;

// A line of the grammar has at most 38 bytes, so that a longer one is unread by its first 39.
const COLUMNS: usize = 39;

#[tactic(auto, unfolding(crate::specs::Input::start_place))]
pub fn nothing() -> Kept
    ensures { result ≡ record { length = 0; place = start_place } }
{
    Kept {
        length: 0,
        place: Place {
            column: 0,
            lines: 0,
        },
    }
}

fn keep_byte(script: &mut [u8], kept: Kept, byte: u8) -> Kept
    ensures { Keeps kept (byte ∷ []) script.old result script.new }
{
    let Place { column, lines } = kept.place;
    if LINES <= lines {
        return kept;
    }
    if byte == NEWLINE {
        return Kept {
            length: put(script, kept.length, &[byte]),
            place: Place {
                column: 0,
                lines: lines + 1,
            },
        };
    }
    if COLUMNS <= column {
        return kept;
    }
    Kept {
        length: put(script, kept.length, &[byte]),
        place: Place {
            column: column + 1,
            lines,
        },
    }
}

// Puts what is kept of a piece behind what was kept of those before it.
pub fn keep(script: &mut [u8], kept: Kept, piece: &[u8]) -> Kept
    ensures { Keeps kept piece.now script.old result script.new }
{
    let mut next = kept;
    for byte in piece {
        next = keep_byte(script, next, *byte);
    }
    next
}

// Whether no more of the input is kept.
pub fn is_full(kept: Kept) -> bool
    ensures { result ≡ leb 100 kept.place.lines }
{
    LINES <= kept.place.lines
}

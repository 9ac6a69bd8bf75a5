// The run player: plays the first 100 lines of standard input and prints a line for each.
#![tactic(auto)]

use base::slices::front;
use play::input::{is_full, keep};
use std::io;
use std::io::Read;

// What is kept of the input; answers how many bytes that are.
// It reads once per piece, so that nobody waits for what stands behind the lines that are played.
// A proved loop has to end, and nothing says that the input does: it counts up to a number that no run comes to.
fn read_script(input: &mut impl Read, script: &mut [u8]) -> io::Result<usize> {
    let mut kept = play::input::nothing();
    for _ in 0..u64::MAX {
        if is_full(kept) {
            break;
        }
        let mut piece = [0u8; 4_096];
        let n = input.read(&mut piece)?;
        if n == 0 {
            break;
        }
        kept = keep(script, kept, &piece[..n]);
    }
    Ok(kept.length)
}

// Room for what is kept of any input, and for all that any script prints: `play`'s laws `script_room` and `printed_room`.
fn main(rt: HostRuntime) -> io::Result<()> {
    let mut script = [0u8; 4_000];
    let n = read_script(&mut rt.stdin(), &mut script)?;
    let mut out = [0u8; 10_818];
    let end = play::session::play(front(&script, n), &mut out);
    rt.write_all(front(&out, end))
}

// Reads lines KEY MESSAGE SIGNATURE in hex, `-` for no bytes, and prints for each whether the signature is genuine.
//
// The input has RFC 8554's vectors of these types (Appendix F without HSS's own fields: test case 1, both levels, and test case 2,
// second level), each with a byte changed in every part, missing or added. Behind them stand signatures under the key with the root
// that Algorithm 6a makes of them: no message, leaf 31 with the longest message and with a byte more, and leaf 32.
#![tactic(auto)]

use base::slices::front;
use std::io;
use text::hex::read_word;
use text::line::{NEWLINE, SPACE};

// The bytes that a word writes, in an array with room for them.
fn bytes_of<'a>(word: &[u8], room: &'a mut [u8]) -> Option<&'a [u8]> {
    let n = if word == b"-".as_slice() {
        0
    } else {
        read_word(word, room)?
    };
    Some(front(room, n))
}

// Whether a line's signature is genuine, where the line has one. Each array has room for more bytes than are genuine.
fn is_genuine(line: &[u8]) -> Option<bool> {
    let mut words = line.splitn(3, |byte| *byte == SPACE);
    let (key, message, signature) = (words.next()?, words.next()?, words.next()?);
    let mut room = [0u8; 128];
    let key = bytes_of(key, &mut room)?;
    let mut room = [0u8; 8192];
    let message = bytes_of(message, &mut room)?;
    let mut room = [0u8; 2048];
    let signature = bytes_of(signature, &mut room)?;
    Some(lms::signature::verify(key, message, signature))
}

fn answer(rt: &impl Print, line: &[u8]) -> io::Result<()> {
    match is_genuine(line) {
        Some(true) => println!(rt; "genuine"),
        Some(false) => println!(rt; "not"),
        // Not by println!, which would take longer than the rest of such a line.
        None => console::print(rt, b"unread\n"),
    }
}

// Each program has this loop: shared, it would take a closure that prints.
fn answer_lines(rt: &impl Print, input: &[u8]) -> io::Result<()> {
    for line in input.split_inclusive(|byte| *byte == NEWLINE) {
        answer(rt, line.strip_suffix(&[NEWLINE]).unwrap_or(line))?;
    }
    Ok(())
}

fn main(rt: HostRuntime) -> io::Result<()> {
    let mut stdin = rt.stdin();
    let mut input = console::zeros::<262_144>();
    let n = console::read_full(&mut stdin, &mut input)?;
    answer_lines(&rt, &input[..n])?;
    console::say_rest(&rt, &mut stdin, n, input.len())
}

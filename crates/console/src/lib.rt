// What the programs read into, and text on standard output.
#![tactic(auto)]

ghost use Rattle.std.specs.Prelude.{◌≡◌, ◌<◌, IfOk, length, replicate, take};
ghost use Rattle.std.specs.Io.{ReadsAtMost};
ghost use Rattle.std.specs.Io.KnownBytes.{Consumes, IsAtEnd};

use base::slices::front;
use base::timestamp::Timestamp;
use std::io;
use std::io::Read;
use text::hex::put_hex;

// Zeros. A function of its own, which says its length, so that no other's proof has to unfold so long an array.
pub fn zeros<const N: usize>() -> [u8; N]
    ensures value { N ≡ length result }
    ensures value_2 { result ≡ replicate N 0 }
{
    [0; N]
}

// Reads until the buffer is full or the input ends; answers how many bytes it put at the buffer's front.
// A loop of its own: read_to_end needs a heap, and read_exact does not say how many bytes it read.
pub fn read_full<R: Read>(input: &mut R, buffer: &mut [u8]) -> io::Result<usize>
    ensures bound { ReadsAtMost result buffer.new }
    ensures bytes { IfOk result (λ n. Consumes (R.remaining input.old) (R.remaining input.new) (take n buffer.new)) }
    ensures end { IfOk result (λ n. n < length buffer.new → IsAtEnd (R.remaining input.new)) }
{
    let mut done = 0;
    while done < buffer.len() {
        let n = input.read(&mut buffer[done..])?;
        if n == 0 {
            break;
        }
        done += n;
    }
    Ok(done)
}

pub fn print(rt: &impl Print, text: &[u8]) -> io::Result<()> {
    rt.write_all(text)
}

pub fn print_number(rt: &impl Print, n: u64) -> io::Result<()> {
    print!(rt; "{n}")
}

pub fn print_timestamp(rt: &impl Print, timestamp: Timestamp) -> io::Result<()> {
    print!(rt; "{timestamp}")
}

// So many bytes in one write, whose digits fill the buffer.
const PIECE: usize = 2_048;

fn print_piece(rt: &impl Print, bytes: &[u8]) -> io::Result<()> {
    let mut digits = [0u8; 4_096];
    let end = put_hex(&mut digits, 0, bytes);
    print(rt, front(&digits, end))
}

pub fn print_hex(rt: &impl Print, bytes: &[u8]) -> io::Result<()> {
    for piece in bytes.chunks(PIECE) {
        print_piece(rt, piece)?;
    }
    Ok(())
}

// A program reads into a buffer of `room` bytes: if the input filled it and goes on, a line says so.
pub fn say_rest(
    rt: &impl Print,
    input: &mut impl Read,
    read: usize,
    room: usize,
) -> io::Result<()> {
    if read < room || read_full(input, &mut [0; 1])? == 0 {
        return Ok(());
    }
    print!(rt; "the input is longer than {room} bytes: the rest was not read\n")
}

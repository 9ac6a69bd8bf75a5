// Reads cards in hex, one a line, and prints what the check says of each, with the fields of a good one.
#![tactic(auto)]

use base::slices::front;
use std::io;
use text::hex::read_word;
use text::line::NEWLINE;

fn print_card(rt: &impl Print, card: &[u8]) -> io::Result<()> {
    match wire::card::read(card) {
        Ok(fields) => {
            print!(rt; "good")?;
            for (bit, field) in fields.iter().enumerate() {
                if let Some(value) = field {
                    print!(rt; " {bit}={value}")?;
                }
            }
            println!(rt)
        }
        Err(refusal) => println!(rt; "refused {}", refusal.number()),
    }
}

// The bytes have room for any line of the input.
fn answer(rt: &impl Print, line: &[u8]) -> io::Result<()> {
    let mut bytes = [0u8; 32768];
    match read_word(line, &mut bytes) {
        Some(n) => print_card(rt, front(&bytes, n)),
        None => println!(rt; "unread"),
    }
}

// Each program has this loop: shared, it would take a closure that prints.
fn answer_lines(rt: &impl Print, input: &[u8]) -> io::Result<()> {
    for line in input.split_inclusive(|byte| *byte == NEWLINE) {
        answer(rt, line.strip_suffix(&[NEWLINE]).unwrap_or(line))?;
    }
    Ok(())
}

fn main(rt: HostRuntime) -> io::Result<()> {
    let mut stdin = rt.stdin();
    let mut input = console::zeros::<65_536>();
    let n = console::read_full(&mut stdin, &mut input)?;
    answer_lines(&rt, &input[..n])?;
    console::say_rest(&rt, &mut stdin, n, input.len())
}

// Reads messages in hex, one a line, behind `h ` where a replica is handed it and `d ` where a client is, and prints what the reader finds.
// Behind `hF ` or `dF `, F a fault bound, verdicts follow the message, and it prints what tests 2 to 11, with 19 and 20, make of both.
// Behind `wF ` a register in two hex digits, a written proof by itself and its verdicts follow: what 4, 20, 7 and 9 to 11 make of them.
// Behind `l ` two messages stand, and it prints the later card.
// Behind `s h ` or `s d ` it prints the message's signatures: how many, whose each is, and the bytes that it covers.
// Behind `s w ` the same of a written proof by itself, its register in front of it.
#![tactic(auto)]

ghost use Rattle.std.specs.Prelude.{◌≤◌};

use base::client_set::ClientSet;
use base::party::RegisterId;
use base::refusal::Refusal;
use base::slices::front;
use console::print_hex;
use std::io;
use text::hex::{hex_byte, hex_value, read_hex, read_word};
use text::line::{NEWLINE, SPACE};
use wire::card_part::{card_part, later_card};
use wire::layout::DIGEST as DIGEST_LENGTH;
use wire::message::{Fields, Kind, Party};
use wire::parts;
use wire::signatures::{
    Signed, Signer, handed_signature, handed_signature_count, signature, signature_count,
};

// The bits of wire's bit map, as `Fields` has it: numbers of document 01.
const NONCE: u16 = 0x004;

const TIMESTAMP: u16 = 0x008;

const DIGEST: u16 = 0x010;

const CARD: u16 = 0x020;

const PREPARED: u16 = 0x040;

const WRITTEN: u16 = 0x080;

const ADDRESSED: u16 = 0x100;

const REGISTER: u16 = 0x200;

fn has(fields: Fields, field: u16) -> bool {
    fields.map & field != 0
}

fn name(kind: Kind) -> &'static str {
    match kind {
        Kind::ReadStamp => "READ-STAMP",
        Kind::Prepare => "PREPARE",
        Kind::Write => "WRITE",
        Kind::Read => "READ",
        Kind::Stamp => "STAMP",
        Kind::Prepared => "PREPARED",
        Kind::Written => "WRITTEN",
        Kind::Card => "CARD",
    }
}

fn print_numbers(rt: &impl Print, fields: Fields) -> io::Result<()> {
    print!(rt; "{} sender {}", name(fields.kind), fields.sender)?;
    if has(fields, NONCE) {
        print!(rt; " nonce {}", fields.nonce)?;
    }
    if has(fields, TIMESTAMP) {
        print!(rt; " timestamp {}", fields.timestamp)?;
    }
    Ok(())
}

// A proof is shown by its timestamp and the number of its entries.
fn print_parts(rt: &impl Print, bytes: &[u8], fields: Fields) -> io::Result<()> {
    if has(fields, DIGEST) {
        print!(rt; " digest ")?;
        print_hex(rt, parts::part(bytes, fields.digest))?;
    }
    if has(fields, CARD) {
        print!(rt; " card ")?;
        print_hex(rt, card_part(bytes))?;
    }
    if has(fields, PREPARED) {
        let proof = parts::part(bytes, fields.prepared);
        let count = parts::entry_count::<DIGEST_LENGTH>(proof);
        print!(rt; " prepared {} entries {count}", parts::timestamp(proof))?;
    }
    if has(fields, WRITTEN) {
        let proof = parts::part(bytes, fields.written);
        let count = parts::entry_count::<0>(proof);
        print!(rt; " written {} entries {count}", parts::timestamp(proof))?;
    }
    if has(fields, ADDRESSED) {
        print!(rt; " addressed {}", fields.addressed.0)?;
    }
    if has(fields, REGISTER) {
        print!(rt; " register {}", fields.register.0)?;
    }
    Ok(())
}

fn print_reading(rt: &impl Print, party: Party, bytes: &[u8]) -> io::Result<()> {
    match wire::reader::read(party, bytes) {
        Ok(fields) => {
            print_numbers(rt, fields)?;
            print_parts(rt, bytes, fields)?;
            println!(rt)
        }
        Err(refusal) => println!(rt; "refused {refusal}"),
    }
}

fn print_judgement(rt: &impl Print, refusal: Option<Refusal>) -> io::Result<()> {
    match refusal {
        None => println!(rt; "accepted"),
        Some(refusal) => println!(rt; "refused {refusal}"),
    }
}

fn print_signature(
    rt: &impl Print,
    signature: Result<Option<Signed>, Refusal>,
    out: &[u8],
) -> io::Result<()> {
    match signature {
        Ok(Some(Signed { signer, covered })) => {
            match signer {
                Signer::Replica(id) => print!(rt; " replica {} over ", id.0)?,
                Signer::Client(id) => print!(rt; " client {} over ", id.0)?,
            }
            print_hex(rt, front(out, covered))
        }
        Ok(None) => print!(rt; " nothing"),
        Err(refusal) => print!(rt; " refused {refusal}"),
    }
}

// So many signatures, each by its number, and that there is no further one.
fn print_signatures<F: Fn(usize, &mut [u8]) -> Result<Option<Signed>, Refusal>>(
    rt: &impl Print,
    count: usize,
    signature: F,
) -> io::Result<()>
    requires few { count ≤ 255 }
    requires callable { F.IsAlwaysCallable signature }
{
    print!(rt; "signatures {count}")?;
    for i in 0..=count {
        let mut out = [0u8; 2048];
        let signature = signature(i, &mut out);
        print_signature(rt, signature, &out)?;
    }
    println!(rt)
}

// The two words of a line.
fn pair(line: &[u8]) -> Option<(&[u8], &[u8])> {
    let mut words = line.splitn(2, |byte| *byte == SPACE);
    Some((words.next()?, words.next()?))
}

// The bytes that a word writes, in an array with room for them.
fn bytes_of<'a>(word: &[u8], room: &'a mut [u8]) -> Option<&'a [u8]> {
    let n = read_word(word, room)?;
    Some(front(room, n))
}

// The register in two hex digits, and the word behind it.
fn register_in_front(words: &[u8]) -> Option<(RegisterId, &[u8])> {
    let [_, _, b' ', rest @ ..] = words else {
        return None;
    };
    Some((RegisterId(hex_byte(words, 0)?), rest))
}

// What stands behind a line's first letters; nothing where the line is not as its kind asks. The bytes have room for more than a
// message may have.
fn read(rt: &impl Print, party: Party, digits: &[u8]) -> Option<io::Result<()>> {
    let mut bytes = [0u8; 32768];
    Some(print_reading(rt, party, bytes_of(digits, &mut bytes)?))
}

fn list(rt: &impl Print, party: Party, digits: &[u8]) -> Option<io::Result<()>> {
    let mut bytes = [0u8; 4096];
    let message = bytes_of(digits, &mut bytes)?;
    let count = signature_count(party, message);
    Some(print_signatures(rt, count, |i, out| { signature(party, message, i, out) }))
}

fn list_proof(rt: &impl Print, words: &[u8]) -> Option<io::Result<()>> {
    let mut bytes = [0u8; 32768];
    let (register, digits) = register_in_front(words)?;
    let proof = bytes_of(digits, &mut bytes)?;
    let count = handed_signature_count(proof);
    Some(print_signatures(rt, count, |i, out| {
        handed_signature(register, proof, i, out)
    }))
}

fn judge(rt: &impl Print, party: Party, f: u8, words: &[u8]) -> Option<io::Result<()>> {
    let (message, verdicts) = pair(words)?;
    let mut bytes = [0u8; 4096];
    let mut marks = [0u8; 64];
    let message = bytes_of(message, &mut bytes)?;
    let verdicts = bytes_of(verdicts, &mut marks)?;
    let accepted = wire::acceptance::accept(party, f, ClientSet::nobody(), message, verdicts);
    Some(print_judgement(rt, accepted.err()))
}

fn judge_proof(rt: &impl Print, f: u8, words: &[u8]) -> Option<io::Result<()>> {
    let (register, words) = register_in_front(words)?;
    let (proof, verdicts) = pair(words)?;
    let mut bytes = [0u8; 32768];
    let mut marks = [0u8; 512];
    let proof = bytes_of(proof, &mut bytes)?;
    let verdicts = bytes_of(verdicts, &mut marks)?;
    let accepted = wire::handed_proof::accept(f, register, proof, verdicts);
    Some(print_judgement(rt, accepted.err()))
}

fn print_later(rt: &impl Print, first: &[u8], second: &[u8]) -> io::Result<()> {
    console::print(rt, b"later card ")?;
    print_hex(rt, later_card(first, second))?;
    console::print(rt, b"\n")
}

fn later(rt: &impl Print, words: &[u8]) -> Option<io::Result<()>> {
    let (one, two) = pair(words)?;
    let mut first = [0u8; 2048];
    let mut second = [0u8; 2048];
    let n = read_hex(one, &mut first);
    let m = read_hex(two, &mut second);
    Some(print_later(rt, front(&first, n), front(&second, m)))
}

fn answer(rt: &impl Print, line: &[u8]) -> Option<io::Result<()>> {
    match line {
        [b'h', b' ', digits @ ..] => read(rt, Party::Replica, digits),
        [b'd', b' ', digits @ ..] => read(rt, Party::Client, digits),
        [b'l', b' ', words @ ..] => later(rt, words),
        [b's', b' ', b'h', b' ', digits @ ..] => list(rt, Party::Replica, digits),
        [b's', b' ', b'd', b' ', digits @ ..] => list(rt, Party::Client, digits),
        [b's', b' ', b'w', b' ', words @ ..] => list_proof(rt, words),
        [b'h', f, b' ', words @ ..] => judge(rt, Party::Replica, hex_value(*f)?, words),
        [b'd', f, b' ', words @ ..] => judge(rt, Party::Client, hex_value(*f)?, words),
        [b'w', f, b' ', words @ ..] => judge_proof(rt, hex_value(*f)?, words),
        _ => None,
    }
}

// Each program has this loop: shared, it would take a closure that prints.
fn answer_lines(rt: &impl Print, input: &[u8]) -> io::Result<()> {
    for line in input.split_inclusive(|byte| *byte == NEWLINE) {
        match answer(rt, line.strip_suffix(&[NEWLINE]).unwrap_or(line)) {
            Some(printed) => printed?,
            // Not by println!, which would take longer than the rest of such a line.
            None => console::print(rt, b"unread\n")?,
        }
    }
    Ok(())
}

fn main(rt: HostRuntime) -> io::Result<()> {
    let mut stdin = rt.stdin();
    let mut input = console::zeros::<262_144>();
    let n = console::read_full(&mut stdin, &mut input)?;
    answer_lines(&rt, &input[..n])?;
    console::say_rest(&rt, &mut stdin, n, input.len())
}

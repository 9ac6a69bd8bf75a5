// Prints SHA-256 digests, a line each: FIPS 180-4's example messages, then a message of each length at which the padding changes,
// of those around the longest, and of one that would be short to whoever counts in 16 bits.
#![tactic(auto)]

use std::io;
use wire::layout::DIGEST;
use wire::sha256::sha256;

// Each byte is two small digits.
fn print_digest(rt: &impl Print, digest: [u8; DIGEST]) -> io::Result<()> {
    for byte in digest {
        print!(rt; "{byte:02x}")?;
    }
    println!(rt)
}

// A message that is too long has zeros for its digest.
fn show_digest(rt: &impl Print, message: &[u8]) -> io::Result<()> {
    let digest = sha256(message);
    print!(rt;
        "{}",
        if digest.is_some() {
            ": "
        } else {
            ": too long "
        }
    )?;
    print_digest(rt, digest.unwrap_or([0; DIGEST]))
}

const VECTORS: [(&str, &[u8]); 4] = [
    ("empty", b""),
    ("abc", b"abc"),
    (
        "448 bits",
        b"abcdbcdecdefdefgefghfghighijhijkijkljklmklmnlmnomnopnopq",
    ),
    (
        "896 bits",
        b"abcdefghbcdefghicdefghijdefghijkefghijklfghijklmghijklmnhijklmnoijklmnopjklmnopqklmnopqrlmnopqrsmnopqrstnopqrstu",
    ),
];

fn show_vectors(rt: &impl Print) -> io::Result<()> {
    for (label, message) in VECTORS {
        print!(rt; "{label}")?;
        show_digest(rt, message)?;
    }
    Ok(())
}

// The message of each length has these bytes: byte i is 7 * i + 3, modulo 256.
fn fill(pattern: &mut [u8]) {
    let mut byte: u8 = 3;
    for place in pattern {
        *place = byte;
        byte = byte.wrapping_add(7);
    }
}

const LENGTHS: [usize; 16] = [
    0, 1, 55, 56, 57, 63, 64, 65, 119, 120, 127, 128, 4095, 4096, 4097, 65_546,
];

// The pattern's first bytes, of each length.
fn show_lengths(rt: &impl Print, pattern: &[u8]) -> io::Result<()> {
    for length in LENGTHS {
        if let Some(message) = pattern.get(..length) {
            print!(rt; "{length}")?;
            show_digest(rt, message)?;
        }
    }
    Ok(())
}

fn main(rt: HostRuntime) -> io::Result<()> {
    let mut pattern = [0u8; 65_546];
    fill(&mut pattern);
    show_vectors(&rt)?;
    show_lengths(&rt, &pattern)
}

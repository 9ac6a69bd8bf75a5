// SHA-256 (FIPS 180-4) of a message of up to 4,096 bytes, block by block.
//
// The digest routine is `sha256` with what it calls in this file and in the folder sha256. It makes no padded copy of its input:
// tests/digest-arrays allows no array of over 128 entries here. What calls it, but for its form for Rust and C, stays in other
// files, where a longer message may be put together.
mod functions;
mod padding;
mod rounds;

ghost use Rattle.std.specs.Prelude.{◌≡◌, ◌/◌, ◌<◌, ◌≤◌, length};
ghost use Rattle.wire.specs.Sha256.{longest_input, padded, block, block_count, words, compress, hash_value, hash_bytes, digest_of, fits, bytes_of};

use crate::layout::DIGEST;
use base::big_endian::to_four;

const LONGEST_INPUT: usize = 4096;

// What this and the functions of `padding` and `rounds` require of message, i, blocks and w: a struct of these would be taken apart in
// each of them.
fn hash_block(hash: &[u32; 8], message: &[u8], i: usize, blocks: usize) -> [u32; 8]
    requires { (length message.now ≤ longest_input) × (i < blocks) × (blocks ≡ block_count (length message.now)) }
    ensures { result ≡ compress hash.now (words (block (padded message.now) i) 16) }
{
    let mut w = [0u32; 64];
    padding::load(message, i, blocks, &mut w);
    rounds::compress(hash, &mut w)
}

// Of a message that is one block with its padding: 45 instructions less than through the loop (docs/SPEED.md).
pub(super) fn hash_short(message: &[u8]) -> [u32; 8]
    requires { length message.now ≤ 55 }
    ensures { result ≡ hash_value (padded message.now) (length (padded message.now) / 64) }
{
    hash_block(&INITIAL_HASH, message, 0, 1)
}

fn hash_message(message: &[u8]) -> [u32; 8]
    requires { length message.now ≤ longest_input }
    ensures { result ≡ hash_value (padded message.now) (length (padded message.now) / 64) }
{
    // 0x80 and the length take nine bytes, and the last block may be partly filled.
    let blocks = (message.len() + 8) / 64 + 1;
    let mut hash = INITIAL_HASH;
    for i in 0..blocks {
        hash = hash_block(&hash, message, i, blocks);
    }
    hash
}

fn hash_bytes(hash: &[u32; 8]) -> [u8; DIGEST]
    ensures { result ≡ hash_bytes hash.now 8 }
{
    let mut bytes = [0u8; DIGEST];
    for i in 0..8 {
        bytes[4 * i..4 * i + 4].copy_from_slice(&to_four(hash[i]));
    }
    bytes
}

// None where the message is too long [document 01: "too long"].
#[tactic(auto, unfolding(crate::specs::Sha256::digest_of, crate::specs::Sha256::sha256))]
pub fn sha256(message: &[u8]) -> Option<[u8; DIGEST]>
    ensures { result ≡ digest_of message.now }
{
    if message.len() > LONGEST_INPUT {
        return None;
    }
    Some(hash_bytes(&hash_message(message)))
}

// The same for Rust and C, with the digest written to `out`; false, and zeros, if the message is too long. The static library
// `wire_c` exports it.
pub fn wire_sha256(message: &[u8], out: &mut [u8; DIGEST]) -> bool
    ensures { (result ≡ fits (digest_of message.now)) × (out.new ≡ bytes_of (digest_of message.now)) }
{
    let digest = sha256(message);
    *out = digest.unwrap_or([0; DIGEST]);
    digest.is_some()
}

// Section 5.3.3.
const INITIAL_HASH: [u32; 8] = [
    0x6a09_e667,
    0xbb67_ae85,
    0x3c6e_f372,
    0xa54f_f53a,
    0x510e_527f,
    0x9b05_688c,
    0x1f83_d9ab,
    0x5be0_cd19,
];

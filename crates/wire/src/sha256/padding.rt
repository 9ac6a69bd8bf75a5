// The words of a padded message (FIPS 180-4, sections 5.1.1 and 5.2.1), made one by one: the padded message stands nowhere.
ghost use Rattle.std.specs.Prelude.{◌≡◌, ◌+◌, ◌-◌, ◌*◌, ◌/◌, ◌%◌, ◌<◌, ◌≤◌, min, length, take, drop, replicate};
ghost use Rattle.base.specs.BigEndian.{from_bytes};
ghost use Rattle.wire.specs.Sha256.{longest_input, padded, block, block_count, words};

use base::big_endian::from_four;

// How many words of the block that starts at `start` are the message's alone.
fn full_words(length: usize, start: usize) -> usize
    ensures { result ≡ min 16 ((length - start) / 4) }
{
    (length.saturating_sub(start) / 4).min(16)
}

// The word that starts at `at` of the padded message, of `total` bytes, if the message does not fill it.
fn padding_word(message: &[u8], at: usize, total: usize) -> u32
    requires { (length message.now ≤ longest_input) × (length message.now < at + 4) × (at % 4 ≡ 0) × (at + 4 ≤ total) × (total ≡ 64 * block_count (length message.now)) }
    ensures { result ≡ from_bytes (take 4 (drop at (padded message.now))) }
{
    let n = message.len();
    if n < at {
        if at + 4 < total {
            return 0;
        }
        return (8 * n) as u32;
    }
    if n < at + 1 {
        return from_four(0x80, 0, 0, 0);
    }
    if n < at + 2 {
        return from_four(message[at], 0x80, 0, 0);
    }
    if n < at + 3 {
        return from_four(message[at], message[at + 1], 0x80, 0);
    }
    from_four(message[at], message[at + 1], message[at + 2], 0x80)
}

// The first words of block i, which the message fills.
fn load_message(message: &[u8], i: usize, full: usize, w: &mut [u32; 64])
    requires { (4 * full ≤ length message.now - 64 * i) × (full ≤ 16) × (length w.old ≡ 64) }
    ensures { (length w.new ≡ 64) × (take full w.new ≡ words (block (padded message.now) i) full) × (drop full w.new ≡ drop full w.old) }
{
    for j in 0..full {
        let at = 64 * i + 4 * j;
        w[j] = from_four(
            message[at],
            message[at + 1],
            message[at + 2],
            message[at + 3],
        );
    }
}

// The other words of block i, of `blocks` blocks. All but the first and the last of them are zero, as they were made.
fn load_padding(message: &[u8], i: usize, blocks: usize, full: usize, w: &mut [u32; 64])
    requires { (length message.now ≤ longest_input) × (i < blocks) × (blocks ≡ block_count (length message.now)) × (full ≡ min 16 ((length message.now - 64 * i) / 4)) × (length w.old ≡ 64) × (take full w.old ≡ words (block (padded message.now) i) full) × (drop full w.old ≡ drop full (replicate 64 0)) }
    ensures { (length w.new ≡ 64) × (take 16 w.new ≡ words (block (padded message.now) i) 16) }
{
    if full == 16 {
        return;
    }
    w[full] = padding_word(message, 64 * i + 4 * full, 64 * blocks);
    if full < 15 {
        w[15] = padding_word(message, 64 * i + 60, 64 * blocks);
    }
}

// The 16 words of block i, of `blocks` blocks, at the front of w, which is zero.
pub(super) fn load(message: &[u8], i: usize, blocks: usize, w: &mut [u32; 64])
    requires { (length message.now ≤ longest_input) × (i < blocks) × (blocks ≡ block_count (length message.now)) × (w.old ≡ replicate 64 0) }
    ensures { (length w.new ≡ 64) × (take 16 w.new ≡ words (block (padded message.now) i) 16) }
{
    let full = full_words(message.len(), 64 * i);
    load_message(message, i, full, w);
    load_padding(message, i, blocks, full, w);
}

// The message schedule and the 64 rounds (FIPS 180-4, section 6.2.2).
ghost use Rattle.std.specs.Prelude.{◌≡◌, ◌+◌, ◌<◌, length, take, slice_index, slice_set};
ghost use Rattle.wire.specs.declared.sha256.rounds.WorkingVariables.{WorkingVariables};
ghost use Rattle.wire.specs.Sha256.{K as round_constants, next_word, schedule, working_variables, T₁, T₂, round, rounds, next_hash, compress};

use crate::sha256::functions::{big_sigma0, big_sigma1, ch, maj, small_sigma0, small_sigma1};

// By value, so that the compiler keeps them in registers.
#[derive(Drop)]
pub(super) struct WorkingVariables {
    pub a: u32,
    pub b: u32,
    pub c: u32,
    pub d: u32,
    pub e: u32,
    pub f: u32,
    pub g: u32,
    pub h: u32,
}

#[tactic(auto, unfolding(crate::specs::Sha256::next_word))]
fn next_word(w: &[u32; 64], t: usize) -> u32
    requires { t < 48 }
    ensures { result ≡ next_word w.now t }
{
    small_sigma1(w[t + 14])
        .wrapping_add(w[t + 9])
        .wrapping_add(small_sigma0(w[t + 1]))
        .wrapping_add(w[t])
}

#[tactic(auto, using(crate::proofs::sha256::rounds::Schedule::t1_sum))]
fn t1(e: u32, f: u32, g: u32, h: u32, k: u32, w: u32) -> u32
    ensures { result ≡ T₁ e f g h k w }
{
    h.wrapping_add(big_sigma1(e))
        .wrapping_add(ch(e, f, g))
        .wrapping_add(k)
        .wrapping_add(w)
}

#[tactic(auto, using(crate::proofs::sha256::rounds::Schedule::t2_sum))]
fn t2(a: u32, b: u32, c: u32) -> u32
    ensures { result ≡ T₂ a b c }
{
    big_sigma0(a).wrapping_add(maj(a, b, c))
}

fn round(v: WorkingVariables, k: u32, w: u32) -> WorkingVariables
    ensures { result ≡ round k w v }
{
    let x = t1(v.e, v.f, v.g, v.h, k, w);
    let y = t2(v.a, v.b, v.c);
    WorkingVariables {
        a: x.wrapping_add(y),
        b: v.a,
        c: v.b,
        d: v.c,
        e: v.d.wrapping_add(x),
        f: v.e,
        g: v.f,
        h: v.g,
    }
}

// Round t, and beside it, where the processor has time to spare, the schedule's word 16 further on.
fn round_and_word(
    v: WorkingVariables,
    k: &[u32; 64],
    w: &mut [u32; 64],
    t: usize,
) -> WorkingVariables
    requires { (t < 48) × (k.now ≡ round_constants) × (length w.old ≡ 64) }
    ensures { (result ≡ round (slice_index round_constants t) (slice_index w.old t) v) × (w.new ≡ slice_set w.old (t + 16) (next_word w.old t)) × (length w.new ≡ 64) }
{
    let x = round(v, k[t], w[t]);
    w[t + 16] = next_word(w, t);
    x
}

// Round t, with the schedule complete.
fn round_at(v: WorkingVariables, k: &[u32; 64], w: &[u32; 64], t: usize) -> WorkingVariables
    requires { (t < 64) × (k.now ≡ round_constants) }
    ensures { result ≡ round (slice_index round_constants t) (slice_index w.now t) v }
{
    round(v, k[t], w[t])
}

// The first 48 rounds, which complete the schedule. Eight rounds a turn, written out: fewer moves between registers (docs/SPEED.md).
fn first_rounds(start: WorkingVariables, k: &[u32; 64], w: &mut [u32; 64]) -> WorkingVariables
    requires { (k.now ≡ round_constants) × (length w.old ≡ 64) }
    ensures { (w.new ≡ schedule (take 16 w.old) 48) × (result ≡ rounds w.new start 48) }
{
    let mut v = start;
    for turn in 0..6 {
        let t = 8 * turn;
        v = round_and_word(v, k, w, t);
        v = round_and_word(v, k, w, t + 1);
        v = round_and_word(v, k, w, t + 2);
        v = round_and_word(v, k, w, t + 3);
        v = round_and_word(v, k, w, t + 4);
        v = round_and_word(v, k, w, t + 5);
        v = round_and_word(v, k, w, t + 6);
        v = round_and_word(v, k, w, t + 7);
    }
    v
}

// The last 16 rounds: from the variables after 48 rounds, whatever they started as, to those after 64. Four a turn, for speed too.
fn last_rounds(middle: WorkingVariables, k: &[u32; 64], w: &[u32; 64]) -> WorkingVariables
    requires { k.now ≡ round_constants }
    ensures { (start : WorkingVariables) → middle ≡ rounds w.now start 48 → result ≡ rounds w.now start 64 }
{
    let mut v = middle;
    for turn in 0..4 {
        let t = 48 + 4 * turn;
        v = round_at(v, k, w, t);
        v = round_at(v, k, w, t + 1);
        v = round_at(v, k, w, t + 2);
        v = round_at(v, k, w, t + 3);
    }
    v
}

fn working_variables(hash: &[u32; 8]) -> WorkingVariables
    ensures { result ≡ working_variables hash.now }
{
    WorkingVariables {
        a: hash[0],
        b: hash[1],
        c: hash[2],
        d: hash[3],
        e: hash[4],
        f: hash[5],
        g: hash[6],
        h: hash[7],
    }
}

#[tactic(auto, unfolding(crate::specs::Sha256::next_hash))]
fn next_hash(hash: &[u32; 8], v: WorkingVariables) -> [u32; 8]
    ensures { result ≡ next_hash hash.now v }
{
    [
        v.a.wrapping_add(hash[0]),
        v.b.wrapping_add(hash[1]),
        v.c.wrapping_add(hash[2]),
        v.d.wrapping_add(hash[3]),
        v.e.wrapping_add(hash[4]),
        v.f.wrapping_add(hash[5]),
        v.g.wrapping_add(hash[6]),
        v.h.wrapping_add(hash[7]),
    ]
}

// The next hash value, by the block whose 16 words stand at the front of w; the rest of w is room for the schedule.
// The constants are taken once and lent: each use of a const array writes it out anew, and with a static a digest takes 5 % more time.
#[tactic(auto, unfolding(crate::specs::Sha256::compress, crate::specs::Sha256::K))]
pub(super) fn compress(hash: &[u32; 8], w: &mut [u32; 64]) -> [u32; 8]
    requires { length w.old ≡ 64 }
    ensures { result ≡ compress hash.now (take 16 w.old) }
{
    let k = K;
    let middle = first_rounds(working_variables(hash), &k, w);
    next_hash(hash, last_rounds(middle, &k, w))
}

// Section 4.2.2.
const K: [u32; 64] = [
    0x428a_2f98,
    0x7137_4491,
    0xb5c0_fbcf,
    0xe9b5_dba5,
    0x3956_c25b,
    0x59f1_11f1,
    0x923f_82a4,
    0xab1c_5ed5,
    0xd807_aa98,
    0x1283_5b01,
    0x2431_85be,
    0x550c_7dc3,
    0x72be_5d74,
    0x80de_b1fe,
    0x9bdc_06a7,
    0xc19b_f174,
    0xe49b_69c1,
    0xefbe_4786,
    0x0fc1_9dc6,
    0x240c_a1cc,
    0x2de9_2c6f,
    0x4a74_84aa,
    0x5cb0_a9dc,
    0x76f9_88da,
    0x983e_5152,
    0xa831_c66d,
    0xb003_27c8,
    0xbf59_7fc7,
    0xc6e0_0bf3,
    0xd5a7_9147,
    0x06ca_6351,
    0x1429_2967,
    0x27b7_0a85,
    0x2e1b_2138,
    0x4d2c_6dfc,
    0x5338_0d13,
    0x650a_7354,
    0x766a_0abb,
    0x81c2_c92e,
    0x9272_2c85,
    0xa2bf_e8a1,
    0xa81a_664b,
    0xc24b_8b70,
    0xc76c_51a3,
    0xd192_e819,
    0xd699_0624,
    0xf40e_3585,
    0x106a_a070,
    0x19a4_c116,
    0x1e37_6c08,
    0x2748_774c,
    0x34b0_bcb5,
    0x391c_0cb3,
    0x4ed8_aa4a,
    0x5b9c_ca4f,
    0x682e_6ff3,
    0x748f_82ee,
    0x78a5_636f,
    0x84c8_7814,
    0x8cc7_0208,
    0x90be_fffa,
    0xa450_6ceb,
    0xbef9_a3f7,
    0xc671_78f2,
];

// All short runs (document 02, #109): every order of up to four deliveries behind one write and one read.
#![tactic(auto)]

ghost use Rattle.std.specs.Prelude.{◌≡◌, ◌≤◌, ◌<◌};
ghost use Rattle.text.specs.Put.{Puts};
ghost use Rattle.deliveries.specs.ShortRuns.{falling_factorial, deliveries, run_at, delivery_line, run_text, text_of, printed};
ghost use Rattle.deliveries.specs.Writing.{delivery_of, deliveries_in, Takes, lines_at, IsPlace, WritesAll};

use text::buffer::put;

// 8 runs of 19 bytes, 56 of 25, 336 of 31 and 1,680 of 37.
pub const LENGTH: usize = 74_128;

// The numbers of all deliveries, 0 to 7, an octal digit each: the last digit is the first delivery's.
#[tactic(auto, unfolding(crate::specs::ShortRuns::deliveries, crate::specs::Writing::deliveries_in))]
fn all() -> u32
    ensures { deliveries_in 8 result ≡ deliveries }
{
    0o76543210
}

// A delivery's number, and those of the others.
#[derive(Drop)]
struct Taken {
    number: u8,
    others: u32,
}

// The delivery at a place among the unused ones.
fn take_out(unused: u32, place: u32) -> Taken
    ensures { Takes unused place result }
{
    if place == 0 {
        return Taken {
            number: (unused % 8) as u8,
            others: unused / 8,
        };
    }
    let taken = take_out(unused / 8, place - 1);
    Taken {
        number: taken.number,
        others: taken.others * 8 + unused % 8,
    }
}

// n · (n − 1) · …, so many factors: the runs of k out of n deliveries. It calls itself where the definition does, so that no invariant is needed.
#[tactic(auto, using(crate::proofs::Factorials::factorial_few, crate::proofs::Factorials::factorial_step))]
fn falling_factorial(n: u32, k: u32) -> u32
    requires { (n ≤ 8) × (k ≤ n) }
    ensures { result ≡ falling_factorial n k }
{
    if k == 0 {
        return 1;
    }
    n * falling_factorial(n - 1, k - 1)
}

// `h H M`, a line.
#[tactic(auto, using(text::proofs::Putting::same_bytes, crate::proofs::Texts::line_of))]
fn put_delivery(out: &mut [u8], at: usize, number: u8) -> usize
    requires { number < 8 }
    ensures { Puts out.old at (delivery_line (delivery_of number)) result out.new }
{
    let replica = b'1' + number % 4;
    let message = b'1' + number / 4;
    put(out, at, &[b'h', b' ', replica, b' ', message, b'\n'])
}

// The lines of a run of k out of `count` unused deliveries, by how many runs come before it. As many runs begin with each delivery.
fn put_deliveries(out: &mut [u8], at: usize, k: u32, count: u32, unused: u32, before: u32) -> usize
    requires { IsPlace k count unused before }
    ensures { Puts out.old at (lines_at k count unused before) result out.new }
{
    if k == 0 {
        return at;
    }
    let size = falling_factorial(count - 1, k - 1);
    let taken = take_out(unused, before / size);
    let next = put_delivery(out, at, taken.number);
    put_deliveries(out, next, k - 1, count - 1, taken.others, before % size)
}

// A run with k deliveries, by how many come before it.
fn put_run(out: &mut [u8], at: usize, k: u32, before: u32) -> usize
    requires { (k ≤ 8) × (before < falling_factorial 8 k) }
    ensures { Puts out.old at (run_text (run_at k before)) result out.new }
{
    let opened = put(out, at, b"w 1 0000\nr 2\n");
    put_deliveries(out, opened, k, 8, all(), before)
}

// All runs with k deliveries.
fn put_runs(out: &mut [u8], at: usize, k: u32) -> usize
    requires { k ≤ 8 }
    ensures { Puts out.old at (text_of k) result out.new }
{
    let count = falling_factorial(8, k);
    let mut next = at;
    for i in 0..count {
        next = put_run(out, next, k, i);
    }
    next
}

fn put_all(out: &mut [u8]) -> usize
    ensures { Puts out.old 0 printed result out.new }
{
    let one = put_runs(out, 0, 1);
    let two = put_runs(out, one, 2);
    let three = put_runs(out, two, 3);
    put_runs(out, three, 4)
}

// All short runs in front of the output, and its old bytes behind them: how many bytes were written, or none into an output that is shorter.
pub fn write(out: &mut [u8]) -> Option<usize>
    ensures { WritesAll out.old result out.new }
{
    if out.len() < LENGTH {
        return None;
    }
    Some(put_all(out))
}

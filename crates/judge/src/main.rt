// Judges a replica's log on standard input: prints `accepted`, or the number of the first entry that is wrong, 0 for the head. Says on
// standard error what was expected.
#![tactic(auto)]

mod explaining;

use audit::judging::{Finding, HEAD, begin, judge_part};
use audit::window::move_front;
use base::slices::{between, front};
use console::{read_full, zeros};
use explaining::{explain, explain_head, explain_unread};
use protocol::replica::Bank;
use std::io;
use std::io::Read;

// The bytes of the log at hand: more than the longest entry has.
const WINDOW: usize = 262_144;

// A turn uses over 65,000 bytes, so these are enough for any log.
const TURNS: u64 = 1_099_511_627_776;

// The input read behind what is there; answers where it ends.
fn fill(input: &mut impl Read, window: &mut [u8], from: usize) -> io::Result<usize> {
    if window.len() < from {
        return Ok(from);
    }
    let n = read_full(input, &mut window[from..])?;
    Ok(from + n)
}

// Whether the input has ended: then one more read gets nothing.
fn has_ended(input: &mut impl Read) -> bool {
    matches!(input.read(&mut [0; 1]), Ok(0))
}

// Where the input seems to end and does not, nothing is said about the log.
fn is_unread(rt: &impl Eprint, input: &mut impl Read, last: bool) -> io::Result<bool> {
    if !last || has_ended(input) {
        return Ok(false);
    }
    explain_unread(rt)?;
    Ok(true)
}

// The judgement. If it is wrong, the bytes start with that entry, and the bank is the one that the entries before it left.
fn end_with(
    rt: &(impl Print + Eprint),
    finding: Finding,
    bank: Bank,
    bytes: &[u8],
    number: u64,
) -> io::Result<()> {
    if finding == Finding::Right {
        return println!(rt; "accepted");
    }
    println!(rt; "{number}")?;
    explain(rt, bank, bytes, number)
}

// The entries, of which the first stand in front of the window. What is left of each part goes to the front, and more is read
// behind it.
fn judge(
    rt: &(impl Print + Eprint),
    input: &mut impl Read,
    mut bank: Bank,
    window: &mut [u8],
    mut end: usize,
) -> io::Result<()> {
    let mut number: u64 = 1;
    for _ in 0..TURNS {
        let last = end < window.len();
        if is_unread(rt, input, last)? {
            return Ok(());
        }
        let judged = judge_part(bank, front(window, end), last);
        bank = judged.bank;
        // No log has so many entries that the sum does not fit.
        number = number.saturating_add(judged.agreed as u64);
        if judged.finding != Finding::More {
            return end_with(
                rt,
                judged.finding,
                bank,
                between(window, judged.used, end),
                number,
            );
        }
        let rest = move_front(window, judged.used, end);
        let Ok(more) = fill(input, window, rest) else {
            return explain_unread(rt);
        };
        end = more;
    }
    Ok(())
}

fn main(rt: HostRuntime) -> io::Result<()> {
    let mut input = rt.stdin();
    let mut window = zeros::<WINDOW>();
    let Ok(n) = fill(&mut input, &mut window, 0) else {
        return explain_unread(&rt);
    };
    if is_unread(&rt, &mut input, n < window.len())? {
        return Ok(());
    }
    let Ok(bank) = begin(front(&window, n)) else {
        println!(&rt; "0")?;
        return explain_head(&rt, n);
    };
    let rest = move_front(&mut window, HEAD, n);
    let Ok(end) = fill(&mut input, &mut window, rest) else {
        return explain_unread(&rt);
    };
    judge(&rt, &mut input, bank, &mut window, end)
}

// A log is judged part by part, with the bank that the calls before left.
ghost use Rattle.std.specs.Prelude.{◌≡◌};
ghost use Rattle.base.specs.Refusal.{outcome};
ghost use Rattle.audit.specs.Judging.{checked_entry, ending_for, JudgesPart, begun};
ghost use Rattle.audit.specs.Reading.{entry_by};

use crate::calling::call_at;
use crate::comparing::{agrees, by_number};
use crate::reading::{EntryPlaces, read_entry};
use base::party::ReplicaId;
use base::refusal::Refusal;
use base::slices::{behind, between};
use protocol::replica::Bank;

// The longest entry: an opening byte, three lengths with 65,535 bytes each, and the answer's byte.
pub const LONGEST_ENTRY: usize = 196_613;

// What a part of a log shows.
#[derive(Clone, Copy, Debug, PartialEq, Eq)]
pub enum Finding {
    Right,
    Wrong,
    More,
}

// How many entries agreed, their bytes, and the bank that they left; then what was found right behind them.
#[derive(Drop)]
pub struct PartJudged {
    pub finding: Finding,
    pub agreed: usize,
    pub used: usize,
    pub bank: Bank,
}

// The bank that an entry's call leaves, if the entry agrees with what the bank answers.
fn check_entry(bank: Bank, bytes: &[u8], places: EntryPlaces) -> Option<Bank>
    ensures { result ≡ checked_entry bank (entry_by bytes.now places) }
{
    let called = call_at(bank, bytes, places.call);
    if agrees(by_number(called.answer), &called.out, bytes, places.answer) {
        Some(called.bank)
    } else {
        None
    }
}

// What is found where no whole entry starts.
fn ending(bytes: &[u8], last: bool) -> Finding
    ensures { result ≡ ending_for bytes.now last }
{
    if last && bytes.is_empty() {
        Finding::Right
    } else if !last && bytes.len() < LONGEST_ENTRY {
        Finding::More
    } else {
        Finding::Wrong
    }
}

// The entries of a part of a log, after which more may come unless it is the last.
pub fn judge_part(mut bank: Bank, part: &[u8], last: bool) -> PartJudged
    ensures { JudgesPart bank part.now last result }
{
    let mut agreed = 0;
    let mut used = 0;
    let finding = loop {
        let rest = behind(part, used);
        let Some(places) = read_entry(rest) else {
            break ending(rest, last);
        };
        let Some(next) = check_entry(bank, rest, places) else {
            break Finding::Wrong;
        };
        bank = next;
        used += places.end;
        agreed += 1;
    };
    PartJudged {
        finding,
        agreed,
        used,
        bank,
    }
}

// f, the replica's number, and the office's key.
pub const HEAD: usize = 58;

// The bank that a head sets up, or refusal 16, also for a short head.
#[tactic(auto, using(crate::proofs::Heads::begins_short, crate::proofs::Heads::begins_long))]
pub fn begin(log: &[u8]) -> Result<Bank, Refusal>
    ensures { outcome result ≡ begun log.now }
{
    if log.len() < HEAD {
        return Err(Refusal::SetUp);
    }
    bank::fresh(log[0], ReplicaId(log[1]), between(log, 2, HEAD))
}

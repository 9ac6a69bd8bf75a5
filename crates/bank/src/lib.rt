// A replica with its sixteen registers (document 02, #103) and its withdrawn clients (#105): setting up, the step by value, the thin step
// over a lent bank, and orders.
#![tactic(auto)]

pub mod exported;
mod orders;

ghost use Rattle.std.specs.Prelude.{◌≡◌, ◌<◌};
ghost use Rattle.base.specs.Party.{register_place};
ghost use Rattle.base.specs.Refusal.{outcome};
ghost use Rattle.wire.specs.Parts.{last_register};
ghost use Rattle.protocol.specs.Bank.{fresh_bank, no_bank, bank_setup};
ghost use Rattle.bank.specs.Making.{new_bank};
ghost use Rattle.bank.specs.Ordering.{OrderSteps};
ghost use Rattle.bank.specs.Stepping.{BankSteps};

use base::bytes::array;
use base::client_set::ClientSet;
use base::party::{REGISTERS, ReplicaId, register_place, replica_setup};
use base::refusal::Refusal;
use lms::layout::KEY;
use lms::signature::is_public_key;
use orders::withdraw;
use protocol::replica::Bank;
use register_replica::{fresh_register, register_in_place};
use wire::parts::last_register;

// What a step leaves.
#[derive(Drop)]
pub struct BankStepped {
    pub answer: Result<usize, Refusal>,
    pub bank: Bank,
}

// What an order leaves. One generic struct for both would be no plainer: each says what was handed over.
#[derive(Drop)]
pub struct BankOrdered {
    pub answer: Result<(), Refusal>,
    pub bank: Bank,
}

fn fresh_bank(f: u8, id: ReplicaId, key: [u8; KEY]) -> Bank
    ensures { result ≡ fresh_bank f id key }
{
    Bank {
        f,
        id,
        registers: [fresh_register(); REGISTERS],
        withdrawn: ClientSet::nobody(),
        key,
    }
}

// The record of no replica: a fresh one of replica 0, for f = 0.
pub fn nobody() -> Bank
    ensures { result ≡ no_bank }
{
    fresh_bank(0, ReplicaId(0), [0; KEY])
}

// Whether a replica can be set up with these numbers and this key.
#[tactic(auto, unfolding(base::specs::Outcome::guard))]
fn bank_setup(f: u8, id: ReplicaId, key: &[u8]) -> Result<(), Refusal>
    ensures { outcome result ≡ bank_setup f id key.now }
{
    replica_setup(f, id)?;
    if !is_public_key(key) {
        return Err(Refusal::SetUp);
    }
    Ok(())
}

// The replica with these numbers and the office's key, or refusal 16.
pub fn fresh(f: u8, id: ReplicaId, key: &[u8]) -> Result<Bank, Refusal>
    ensures { outcome result ≡ new_bank f id key.now }
{
    bank_setup(f, id, key)?;
    Ok(fresh_bank(f, id, array(key)))
}

// Where the register stands that a message is for, found without a walk over its fields. A message for none is refused wherever it
// is judged, so that the tests and their order are the step's alone.
fn place_of(message: &[u8]) -> usize
    ensures { (result ≡ register_place (last_register message.now)) × (result < 16) }
{
    register_place(last_register(message))
}

// A message is handed to a replica, with a verdict for each signature and an output for the reply.
pub fn step(mut bank: Bank, message: &[u8], verdicts: &[u8], out: &mut [u8]) -> BankStepped
    ensures { BankSteps bank message.now verdicts.now out.old (outcome result.answer) result.bank out.new }
{
    let answer = step_in_place(&mut bank, message, verdicts, out);
    BankStepped { answer, bank }
}

// The same on a bank that is lent: the message's register is lent on, and nothing else is touched.
pub fn step_in_place(
    bank: &mut Bank,
    message: &[u8],
    verdicts: &[u8],
    out: &mut [u8],
) -> Result<usize, Refusal>
    ensures { BankSteps bank.old message.now verdicts.now out.old (outcome result) bank.new out.new }
{
    let at = place_of(message);
    register_in_place(
        bank.f,
        bank.id,
        bank.withdrawn,
        &mut bank.registers[at],
        message,
        verdicts,
        out,
    )
}

// An order is handed to a replica.
pub fn take_order(mut bank: Bank, order: &[u8]) -> BankOrdered
    ensures { OrderSteps bank order.now (outcome result.answer) result.bank }
{
    let answer = take_order_in_place(&mut bank, order);
    BankOrdered { answer, bank }
}

// The same on a bank that is lent: the set alone is stored.
#[tactic(auto, using(crate::proofs::Ordering::order_taken, crate::proofs::Ordering::order_refused))]
pub fn take_order_in_place(bank: &mut Bank, order: &[u8]) -> Result<(), Refusal>
    ensures { OrderSteps bank.old order.now (outcome result) bank.new }
{
    let withdrawn = withdraw(&bank.key, bank.withdrawn, order)?;
    bank.withdrawn = withdrawn;
    Ok(())
}

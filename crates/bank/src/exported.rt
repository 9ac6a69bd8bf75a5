// The replica for Rust and C: records in C's layout, and numbers in place of enums. The static library `bank_c` exports it.
ghost use Rattle.std.specs.Prelude.{◌≡◌};
ghost use Rattle.base.specs.Refusal.{outcome};
ghost use Rattle.protocol.specs.Bank.{bank_setup, made_bank};
ghost use Rattle.bank.specs.Exported.{in_numbers, is_good, StepsInNumbers, taking_in_numbers, OrdersInNumbers};

use crate::{fresh, nobody, step_in_place, take_order_in_place};
use base::party::ReplicaId;
use base::refusal::Refusal;
use protocol::replica::Bank;

// An answer: the length of the message to send if `sent`, and the refusal's number otherwise.
#[repr(C)]
#[derive(Drop)]
pub struct NumberedAnswer {
    pub sent: bool,
    pub number: usize,
}

// The answer to an order: the refusal's number unless it is taken, and then 0.
#[repr(C)]
#[derive(Drop)]
pub struct NumberedTaking {
    pub taken: bool,
    pub number: u8,
}

// A replica as it is set up. If that is refused, which is refusal 16, `good` is false.
#[repr(C)]
#[derive(Drop)]
pub struct MadeBank {
    pub good: bool,
    pub bank: Bank,
}

impl From<Result<usize, Refusal>> for NumberedAnswer {
    ghost from_gives = { λ answer numbered. numbered ≡ in_numbers (outcome answer) };

    fn from(answer: Result<usize, Refusal>) -> NumberedAnswer {
        match answer {
            Ok(length) => NumberedAnswer {
                sent: true,
                number: length,
            },
            Err(refusal) => NumberedAnswer {
                sent: false,
                number: usize::from(refusal.number()),
            },
        }
    }
}

impl From<Result<(), Refusal>> for NumberedTaking {
    ghost from_gives = { λ answer numbered. numbered ≡ taking_in_numbers (outcome answer) };

    fn from(answer: Result<(), Refusal>) -> NumberedTaking {
        match answer {
            Ok(()) => NumberedTaking {
                taken: true,
                number: 0,
            },
            Err(refusal) => NumberedTaking {
                taken: false,
                number: refusal.number(),
            },
        }
    }
}

#[tactic(auto, unfolding(protocol::specs::Bank::made_bank))]
pub fn bank_fresh(f: u8, id: ReplicaId, key: &[u8]) -> MadeBank
    ensures { (result.good ≡ is_good (bank_setup f id key.now)) × (result.bank ≡ made_bank f id key.now) }
{
    match fresh(f, id, key) {
        Ok(bank) => MadeBank { good: true, bank },
        Err(_) => MadeBank {
            good: false,
            bank: nobody(),
        },
    }
}

pub fn bank_step(bank: &mut Bank, message: &[u8], verdicts: &[u8], out: &mut [u8]) -> NumberedAnswer
    ensures { StepsInNumbers bank.old message.now verdicts.now out.old result bank.new out.new }
{
    step_in_place(bank, message, verdicts, out).into()
}

pub fn bank_take_order(bank: &mut Bank, order: &[u8]) -> NumberedTaking
    ensures { OrdersInNumbers bank.old order.now result bank.new }
{
    take_order_in_place(bank, order).into()
}

// The replica for Rust and C: a static library, whose functions are those of `bank::exported` under their own names.
#![tactic(auto)]

ghost use Rattle.std.specs.Prelude.{◌≡◌};
ghost use Rattle.protocol.specs.Bank.{bank_setup, made_bank};
ghost use Rattle.bank.specs.Exported.{is_good, StepsInNumbers, OrdersInNumbers};

use bank::exported;
use bank::exported::{MadeBank, NumberedAnswer, NumberedTaking};
use base::party::ReplicaId;
use protocol::replica::Bank;

#[unsafe(no_mangle)]
pub extern "C" fn bank_fresh(f: u8, id: ReplicaId, key: &[u8]) -> MadeBank
    ensures { (result.good ≡ is_good (bank_setup f id key.now)) × (result.bank ≡ made_bank f id key.now) }
{
    exported::bank_fresh(f, id, key)
}

#[unsafe(no_mangle)]
pub extern "C" fn bank_step(
    bank: &mut Bank,
    message: &[u8],
    verdicts: &[u8],
    out: &mut [u8],
) -> NumberedAnswer
    ensures { StepsInNumbers bank.old message.now verdicts.now out.old result bank.new out.new }
{
    exported::bank_step(bank, message, verdicts, out)
}

#[unsafe(no_mangle)]
pub extern "C" fn bank_take_order(bank: &mut Bank, order: &[u8]) -> NumberedTaking
    ensures { OrdersInNumbers bank.old order.now result bank.new }
{
    exported::bank_take_order(bank, order)
}

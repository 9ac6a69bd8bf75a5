// Replicas, each with a bank of sixteen registers.
use crate::answers::Outcome;
use crate::parties::{Call, Party};
use crate::words::hex;
use base::party::ReplicaId;
use base::refusal::Refusal;
use protocol::replica::Bank;

// So many bytes of a key are taken.
const KEY: usize = 64;

fn sent(answer: Result<usize, Refusal>) -> Outcome {
    match answer {
        Ok(length) => Outcome::Sent(length),
        Err(refusal) => Outcome::Refused(refusal),
    }
}

impl Party for Bank {
    fn set_up(f: u8, id: u8, word: &[u8]) -> Option<Result<Bank, Refusal>> {
        let mut room = [0; KEY];
        Some(bank::fresh(f, ReplicaId(id), hex(word, &mut room)?))
    }

    fn call(self, call: Call<'_>, out: &mut [u8]) -> Option<(Bank, Outcome)> {
        let mut bank = self;
        let outcome = match call {
            Call::HandOver(message, verdicts) => {
                sent(bank::step_in_place(&mut bank, message, verdicts, out))
            }
            Call::Order(order) => bank::take_order_in_place(&mut bank, order).into(),
            _ => return None,
        };
        Some((bank, outcome))
    }
}

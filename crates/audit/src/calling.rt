// The calls of a log's entries, made on a bank: the one place that steps it.
ghost use Rattle.std.specs.Prelude.{◌≡◌};
ghost use Rattle.protocol.specs.Events.{request_handed, order_handed};
ghost use Rattle.audit.specs.Calling.{MakesCall};
ghost use Rattle.audit.specs.Reading.{call_by};

use crate::reading::CallPlaces;
use bank::{step_in_place, take_order_in_place};
use base::refusal::Refusal;
use protocol::replica::Bank;
use wire::layout::LONGEST_MESSAGE;
use wire::parts::part;

// What a call answers, its reply in front of the output, and the bank that it leaves. A taken order has a reply of no bytes.
// The reply's length stands beside the array that it is in: no heap, fixed memory.
#[derive(Drop)]
pub struct Called {
    pub answer: Result<usize, Refusal>,
    pub out: [u8; LONGEST_MESSAGE],
    pub bank: Bank,
}

fn call_message(mut bank: Bank, message: &[u8], verdicts: &[u8]) -> Called
    ensures { MakesCall bank (request_handed message.now verdicts.now) result }
{
    let mut out = [0; LONGEST_MESSAGE];
    let answer = step_in_place(&mut bank, message, verdicts, &mut out);
    Called { answer, out, bank }
}

fn call_order(mut bank: Bank, order: &[u8]) -> Called
    ensures { MakesCall bank (order_handed order.now) result }
{
    let taken = take_order_in_place(&mut bank, order);
    Called {
        answer: taken.map(|()| 0),
        out: [0; LONGEST_MESSAGE],
        bank,
    }
}

// The call that stands at these places.
pub fn call_at(bank: Bank, bytes: &[u8], places: CallPlaces) -> Called
    ensures { MakesCall bank (call_by bytes.now places) result }
{
    match places {
        CallPlaces::Message { message, verdicts } => call_message(
            bank,
            part(bytes, message),
            part(bytes, verdicts),
        ),
        CallPlaces::Order(order) => call_order(bank, part(bytes, order)),
    }
}

// Where the parts of an entry stand, without the bank.
ghost use Rattle.std.specs.Prelude.{◌≡◌};
ghost use Rattle.audit.specs.Reading.{call_end, FindsPrefixed, FindsRequest, FindsOrder, FindsCall, FindsAnswer, FindsEntry};

use base::big_endian::from_two;
use wire::message::Span;

// An entry opens with one of these.
const MESSAGE: u8 = 0;

const ORDER: u8 = 1;

// What was received, by places from the entry's first byte on: a message with its verdicts, or an order, which has none.
#[derive(Clone, Copy)]
pub enum CallPlaces {
    Message { message: Span, verdicts: Span },
    Order(Span),
}

impl CallPlaces {
    fn end(self) -> usize
        ensures { result ≡ call_end self }
    {
        match self {
            CallPlaces::Message { verdicts, .. } => verdicts.end,
            CallPlaces::Order(order) => order.end,
        }
    }
}

// An entry's parts, by places from its first byte on: the call, the reply or the refusal's number, and where the entry ends.
#[derive(Clone, Copy)]
pub struct EntryPlaces {
    pub call: CallPlaces,
    pub answer: Result<Span, u8>,
    pub end: usize,
}

// Bytes behind their length; none where they are cut short.
#[tactic(auto, using(crate::proofs::Places::no_length, crate::proofs::Places::prefixed_missing, crate::proofs::Places::prefixed_there))]
fn prefixed_at(bytes: &[u8], at: usize) -> Option<Span>
    ensures { FindsPrefixed bytes.now at result }
{
    if bytes.len() < at || bytes.len() - at < 2 {
        return None;
    }
    // `as`: u32 to usize has no From.
    let length = from_two(bytes[at], bytes[at + 1]) as usize;
    if bytes.len() - at - 2 < length {
        return None;
    }
    Some(Span {
        start: at + 2,
        end: at + 2 + length,
    })
}

// What was answered, and where it ends.
#[tactic(auto, unfolding(crate::specs::Log::recorded_in))]
fn answer_at(bytes: &[u8], at: usize) -> Option<(Result<Span, u8>, usize)>
    ensures { FindsAnswer bytes.now at result }
{
    if bytes.len() <= at {
        return None;
    }
    if bytes[at] != 0 {
        return Some((Err(bytes[at]), at + 1));
    }
    let reply = prefixed_at(bytes, at + 1)?;
    Some((Ok(reply), reply.end))
}

// A message and its verdicts, behind the opening byte.
#[tactic(auto, unfolding(crate::specs::Log::request_in))]
fn read_request(bytes: &[u8]) -> Option<CallPlaces>
    ensures { FindsRequest bytes.now result }
{
    let message = prefixed_at(bytes, 1)?;
    let verdicts = prefixed_at(bytes, message.end)?;
    Some(CallPlaces::Message { message, verdicts })
}

#[tactic(auto, unfolding(crate::specs::Log::order_in))]
fn read_order(bytes: &[u8]) -> Option<CallPlaces>
    ensures { FindsOrder bytes.now result }
{
    Some(CallPlaces::Order(prefixed_at(bytes, 1)?))
}

#[tactic(auto, unfolding(crate::specs::Log::received_in))]
fn read_call(bytes: &[u8]) -> Option<CallPlaces>
    ensures { FindsCall bytes.now result }
{
    match *bytes.first()? {
        MESSAGE => read_request(bytes),
        ORDER => read_order(bytes),
        _ => None,
    }
}

// What some bytes start with: an entry, or none that is whole.
#[tactic(auto, unfolding(crate::specs::Log::entry_in))]
pub fn read_entry(bytes: &[u8]) -> Option<EntryPlaces>
    ensures { FindsEntry bytes.now result }
{
    let call = read_call(bytes)?;
    let (answer, end) = answer_at(bytes, call.end())?;
    Some(EntryPlaces { call, answer, end })
}

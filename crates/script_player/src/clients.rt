// Clients, and viewing clients.
use crate::answers::{Card, Outcome, Word};
use crate::parties::{Call, Party};
use base::party::ClientId;
use base::refusal::Refusal;
use client::handing::hand;
use client::viewer;
use client::viewer::Viewer;
use protocol::client::{Client, ClientAnswer};
use text::decimal::read_decimal;
use wire::layout::CARD_ROOM;

// The outcome of a call, with the card that stands beside the answer.
fn outcome(answer: ClientAnswer, length: u8, bytes: [u8; CARD_ROOM]) -> Outcome {
    match answer {
        ClientAnswer::Send(length) => Outcome::Sent(length),
        ClientAnswer::Counted => Outcome::Said(Word::Counted),
        ClientAnswer::Done(timestamp, signers) => {
            Outcome::Done(timestamp, Card { length, bytes }, signers)
        }
        ClientAnswer::Ended => Outcome::Said(Word::Ended),
        ClientAnswer::Refused(refusal) => Outcome::Refused(refusal),
    }
}

impl Party for Client {
    fn set_up(f: u8, id: u8, word: &[u8]) -> Option<Result<Client, Refusal>> {
        Some(client::fresh(f, ClientId(id), read_decimal(word)?))
    }

    fn call(self, call: Call<'_>, out: &mut [u8]) -> Option<(Client, Outcome)> {
        let stepped = match call {
            Call::Write(register, card) => client::begin_write(self, register, card, out),
            Call::Read(register) => client::begin_read(self, register, out),
            Call::HandOver(message, verdicts) => client::step(self, message, verdicts, out),
            Call::Hand(register, proof, verdicts) => {
                let handed = hand(self, register, proof, verdicts);
                return Some((handed.client, handed.answer.into()));
            }
            // A client takes no orders.
            Call::Order(_) => return None,
        };
        let outcome = outcome(stepped.answer, stepped.card_length, stepped.card);
        Some((stepped.client, outcome))
    }
}

impl Party for Viewer {
    fn set_up(f: u8, id: u8, word: &[u8]) -> Option<Result<Viewer, Refusal>> {
        Some(viewer::fresh(f, ClientId(id), read_decimal(word)?))
    }

    fn call(self, call: Call<'_>, out: &mut [u8]) -> Option<(Viewer, Outcome)> {
        let stepped = match call {
            Call::Read(register) => viewer::begin_view(self, register, out),
            Call::HandOver(message, verdicts) => viewer::step(self, message, verdicts, out),
            // A viewing client writes nothing, and takes neither orders nor written proofs.
            _ => return None,
        };
        let outcome = outcome(stepped.answer, stepped.card_length, stepped.card);
        Some((stepped.viewer, outcome))
    }
}

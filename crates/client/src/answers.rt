// What a call returns.
ghost use Rattle.std.specs.Prelude.{◌≡◌};
ghost use Rattle.wire.specs.Sha256.{sha256};
ghost use Rattle.protocol.specs.Client.{current_card, with_phase};
ghost use Rattle.client.specs.Leaving.{stepped, plain, done_with, sent_as};

use crate::Stepped;
use base::bytes::array;
use base::refusal::Refusal;
use base::slices::front;
use base::timestamp::Timestamp;
use protocol::client::{Client, ClientAnswer, Phase};
use wire::layout::{CARD_ROOM, DIGEST};

// What a call leaves that is not refused: its answer, the card beside Done, and the record. Not `Stepped`, which a refusal leaves too.
#[derive(Drop)]
pub struct Taken {
    pub answer: ClientAnswer,
    pub card_length: u8,
    pub card: [u8; CARD_ROOM],
    pub client: Client,
}

// A refusal leaves the record as it was. Arrays go by locals: the borrow check covers no pattern that moves them into a literal.
pub(super) fn stepped(client: Client, taken: Result<Taken, Refusal>) -> Stepped
    ensures { result ≡ stepped client taken }
{
    match taken {
        Ok(taken) => {
            let card = taken.card;
            let client = taken.client;
            Stepped {
                answer: taken.answer,
                card_length: taken.card_length,
                card,
                client,
            }
        }
        Err(refusal) => Stepped {
            answer: ClientAnswer::Refused(refusal),
            card_length: 0,
            card: [0; CARD_ROOM],
            client,
        },
    }
}

// An answer with no card beside it.
pub(super) fn plain(answer: ClientAnswer, client: Client) -> Taken
    ensures { result ≡ plain answer client }
{
    Taken {
        answer,
        card_length: 0,
        card: [0; CARD_ROOM],
        client,
    }
}

// The reply counts, and the client waits in this phase.
pub(super) fn waits(client: Client, phase: Phase) -> Taken
    ensures { result ≡ plain ClientAnswer.Counted (with_phase phase client) }
{
    plain(ClientAnswer::Counted, Client { phase, ..client })
}

// The message that was written is to be sent.
pub(super) fn sent(written: Result<usize, Refusal>, client: Client) -> Result<Taken, Refusal>
    ensures { result ≡ sent_as written client }
{
    Ok(plain(ClientAnswer::Send(written?), client))
}

// The card that the record holds. A record of any value has at most 17 bytes of one.
fn current_card(client: &Client) -> &[u8]
    ensures { result.now ≡ current_card client.now }
{
    front(&client.card, usize::from(client.card_length))
}

// Done with the card and the signers that the record holds, which is then idle.
pub(super) fn done(timestamp: Timestamp, client: Client) -> Taken
    ensures { result ≡ done_with timestamp (current_card client) client.signers (with_phase Phase.Idle client) }
{
    let card = current_card(&client);
    Taken {
        answer: ClientAnswer::Done(timestamp, client.signers),
        card_length: card.len() as u8,
        card: array(card),
        client: Client {
            phase: Phase::Idle,
            ..client
        },
    }
}

// The digest of the card that the record holds.
#[tactic(auto, using(crate::proofs::Records::short_digest, protocol::proofs::ArrayLaws::card_in_short))]
pub(super) fn card_digest(client: &Client) -> [u8; DIGEST]
    ensures { result ≡ sha256 (current_card client.now) }
{
    wire::sha256::sha256(current_card(client)).unwrap_or([0; DIGEST])
}

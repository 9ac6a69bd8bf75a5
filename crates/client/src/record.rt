// Changes of a client's record, and its parts as a writer takes them.
ghost use Rattle.std.specs.Prelude.{◌≡◌, ◌≤◌, ◌<◌, length};
ghost use Rattle.base.specs.Party.{register_place};
ghost use Rattle.wire.specs.Layout.{card_room};
ghost use Rattle.wire.specs.Parts.{prepared_part};
ghost use Rattle.wire.specs.Proof.{prepared_from};
ghost use Rattle.wire.specs.Writing.{kept_proof, kept_card};
ghost use Rattle.protocol.specs.Client.{current_card, best_proof, beginning, with_proof, keep_better, keep_better_card, with_written_for, with_last_written, written_in_place, built};
ghost use Rattle.client.specs.Arrays.{Keeps};

use crate::shown::Shown;
use crate::signatures::Built;
use base::bytes::array;
use base::party::{RegisterId, register_place};
use base::replica_set::ReplicaSet;
use base::timestamp::Timestamp;
use protocol::client::{Client, Phase, Written};
use wire::layout::{DIGEST, ENTRIES_ROOM, SIGNATURES_ROOM};
use wire::parts;
use wire::writer::{KeptCard, KeptProof};

// The card that is written, or the best card read.
pub(super) fn kept_card(client: &Client) -> KeptCard<'_>
    ensures { kept_card result.length result.card.now ≡ current_card client.now }
{
    KeptCard {
        length: client.card_length,
        card: &client.card,
    }
}

// The prepared proof of the best reply.
pub(super) fn best_proof(client: &Client, best: Timestamp) -> KeptProof<'_, DIGEST>
    ensures { (result.timestamp ≡ best) × (kept_proof result ≡ best_proof client.now best) }
{
    KeptProof {
        timestamp: best,
        digest: &client.digest,
        entry_count: client.entry_count,
        entries: &client.entries,
    }
}

// A new operation: its register, its nonce, its card, no reply yet. That a card has at most 17 bytes is required here and in three more:
// a type for checked cards would be wire's, whose check takes any slice.
pub(super) fn beginning(
    client: Client,
    register: RegisterId,
    nonce: u64,
    phase: Phase,
    card: &[u8],
) -> Client
    requires { length card.now ≤ card_room }
    ensures { result ≡ beginning register nonce phase card.now client }
{
    Client {
        register,
        last_nonce: nonce,
        phase,
        card_length: card.len() as u8,
        card: array(card),
        digest: [0; DIGEST],
        signers: ReplicaSet::empty(),
        entry_count: 0,
        entries: [0; ENTRIES_ROOM],
        signatures: [0; SIGNATURES_ROOM],
        ..client
    }
}

// A proof that is there, with its signers, in place of the one that was kept.
fn with_proof(client: Client, shown: Shown) -> Client
    requires { 0 < length shown.proof.now }
    ensures { result ≡ with_proof (prepared_from shown.entry.proof.now) client }
{
    Client {
        digest: array(parts::digest(shown.proof)),
        signers: shown.signers,
        entry_count: parts::entry_count::<DIGEST>(shown.proof),
        entries: array(parts::entries::<DIGEST>(shown.proof)),
        ..client
    }
}

// A better reply's proof is kept, with its signers.
#[tactic(auto, using(crate::proofs::Records::better_there))]
pub(super) fn keep_better(client: Client, best: Timestamp, shown: Shown) -> Client
    ensures { result ≡ keep_better best (prepared_part shown.entry.proof.now) client }
{
    if !shown.is_better(best) {
        return client;
    }
    with_proof(client, shown)
}

// And its card. Not one function with `keep_better`: each is a test and a literal, and their contracts differ.
#[tactic(auto, using(crate::proofs::Records::better_there))]
pub(super) fn keep_better_card(client: Client, best: Timestamp, card: &[u8], shown: Shown) -> Client
    requires { length card.now ≤ card_room }
    ensures { result ≡ keep_better_card best card.now (prepared_part shown.entry.proof.now) client }
{
    if !shown.is_better(best) {
        return client;
    }
    Client {
        card_length: card.len() as u8,
        card: array(card),
        ..with_proof(client, shown)
    }
}

// The counted replicas and their signatures as a proof's entries.
pub(super) fn built(client: &Client, counted: ReplicaSet) -> Built
    ensures { Keeps (built client.now counted client.now.signatures) result }
{
    crate::signatures::gather(
        base::party::replica_count(client.f),
        counted,
        &client.signatures,
    )
}

// The written proof of a register, and another one there.
pub(super) fn written_for(client: &Client, register: RegisterId) -> &Written
    ensures { result.now ≡ written_in_place (register_place register) client.now }
{
    &client.written[register_place(register)]
}

pub(super) fn with_written_for(mut client: Client, register: RegisterId, last: Written) -> Client
    ensures { result ≡ with_written_for register last client }
{
    client.written[register_place(register)] = last;
    client
}

// The client's own write is finished: its WRITTENs are the last written proof of its register. The array goes by a local, as in `stepped`.
pub(super) fn with_last_written(client: Client, timestamp: Timestamp, counted: ReplicaSet) -> Client
    ensures { result ≡ with_last_written timestamp (built client counted client.signatures) client }
{
    let proof = built(&client, counted);
    let entries = proof.entries;
    let last = Written {
        timestamp,
        entry_count: proof.count,
        entries,
        own: true,
    };
    with_written_for(client, client.register, last)
}

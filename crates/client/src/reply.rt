// A message that passed its tests, and whether it is the reply that the client awaits.
ghost use Rattle.std.specs.Prelude.{◌≡◌, ◌&&◌, eqb};
ghost use Rattle.base.specs.Counting.{replica};
ghost use Rattle.base.specs.Same.{same};
ghost use Rattle.base.specs.Timestamp.{number};
ghost use Rattle.protocol.specs.Client.{is_new, towards};
ghost use Rattle.protocol.specs.Parts.{card_stands};
ghost use Rattle.wire.specs.Parts.{part_at, card_at, prepared_part};
ghost use Rattle.client.specs.Messages.{Passing};

use crate::shown::Shown;
use base::bytes::same;
use base::party::{ClientId, ReplicaId};
use base::replica_set::ReplicaSet;
use base::timestamp::Timestamp;
use protocol::client::{Client, Phase};
use wire::layout::DIGEST;
use wire::message::Fields;
use wire::parts;

// A message that tests 2 to 11 let through at a client, its fields, and who signed its prepared proof.
#[derive(Clone, Copy)]
pub struct Reply<'a> {
    pub message: &'a [u8],
    pub fields: Fields,
    pub signers: ReplicaSet,
    pub ghost passed: { ∥ Passing message.now fields signers ∥₁ },
}

// Whether no reply of this replica was taken yet.
fn is_new(counted: ReplicaSet, sender: ReplicaId) -> bool
    ensures { result ≡ is_new counted sender }
{
    !counted.has(sender)
}

impl<'a> Reply<'a> {
    pub fn sender(self) -> ReplicaId
        ensures { result ≡ replica self.entry.fields.sender }
    {
        ReplicaId(self.fields.sender)
    }

    pub fn digest(self) -> &'a [u8]
        ensures { result.now ≡ part_at self.entry.message.now self.entry.fields.digest }
    {
        parts::part(self.message, self.fields.digest)
    }

    pub fn signature(self) -> &'a [u8]
        ensures { result.now ≡ part_at self.entry.message.now self.entry.fields.signature }
    {
        parts::part(self.message, self.fields.signature)
    }

    pub fn card(self) -> &'a [u8]
        ensures { result.now ≡ card_at self.entry.message.now self.entry.fields.card }
    {
        parts::card(self.message, self.fields.card)
    }

    #[tactic(auto, using(crate::proofs::Parting::proof_there, crate::proofs::Parting::signed_by))]
    pub fn shown(self) -> Shown<'a>
        ensures { result.proof.now ≡ part_at self.entry.message.now self.entry.fields.prepared }
    {
        Shown {
            proof: parts::part(self.message, self.fields.prepared),
            signers: self.signers,
        }
    }

    // Test 14 of a CARD.
    pub fn card_stands(self) -> bool
        ensures { result ≡ card_stands (card_at self.entry.message.now self.entry.fields.card) (prepared_part (part_at self.entry.message.now self.entry.fields.prepared)) }
    {
        self.shown().card_stands(self.card())
    }

    // The phase that it meets: to one for another register than its operation's the client is as an idle one.
    pub fn meets(self, client: &Client) -> Phase
        ensures { result ≡ (towards self.entry.fields.register client.now).phase }
    {
        if self.fields.register != client.register {
            return Phase::Idle;
        }
        client.phase
    }

    // Whether it has the nonce and the client awaited, and its replica's was not taken yet.
    pub fn is_awaited(self, asked: u64, id: ClientId, counted: ReplicaSet) -> bool
        ensures { result ≡ (eqb self.entry.fields.nonce asked && (eqb self.entry.fields.addressed.0 id.0 && is_new counted (replica self.entry.fields.sender))) }
    {
        self.fields.nonce == asked && self.fields.addressed == id && is_new(counted, self.sender())
    }

    // The same of a WRITTEN, which has the timestamp awaited.
    pub fn is_awaited_written(self, asked: Timestamp, counted: ReplicaSet) -> bool
        ensures { result ≡ (eqb (number self.entry.fields.timestamp) (number asked) && is_new counted (replica self.entry.fields.sender)) }
    {
        self.fields.timestamp.is(asked) && is_new(counted, self.sender())
    }

    // And of a PREPARED, which has the digest too.
    pub fn is_awaited_prepared(
        self,
        asked: Timestamp,
        kept: &[u8; DIGEST],
        counted: ReplicaSet,
    ) -> bool
        ensures { result ≡ (eqb (number self.entry.fields.timestamp) (number asked) && (same (part_at self.entry.message.now self.entry.fields.digest) kept.now && is_new counted (replica self.entry.fields.sender))) }
    {
        self.fields.timestamp.is(asked)
            && same(self.digest(), kept)
            && is_new(counted, self.sender())
    }
}

// A reply's prepared proof, against the largest timestamp so far.
ghost use Rattle.std.specs.Prelude.{◌≡◌};
ghost use Rattle.base.specs.Timestamp.{of_number};
ghost use Rattle.protocol.specs.Client.{is_better, best_of, showed_by};
ghost use Rattle.protocol.specs.Parts.{card_stands};
ghost use Rattle.base.specs.Same.{same};
ghost use Rattle.wire.specs.Parts.{prepared_part, prepared_timestamp, prepared_signers, WholeIfThere};
ghost use Rattle.client.specs.Messages.{whole_prop};

use base::bytes::same;
use base::party::ReplicaId;
use base::replica_set::ReplicaSet;
use base::timestamp::Timestamp;
use wire::parts;

// The part of a message that carries its prepared proof, empty if it is missing, and who signed it.
#[derive(Clone, Copy)]
pub struct Shown<'a> {
    pub proof: &'a [u8],
    pub signers: ReplicaSet,
    pub ghost whole: { WholeIfThere proof.now } by { whole_prop proof.now },
    pub ghost signed: { signers ≡ prepared_signers (prepared_part proof.now) },
}

impl Shown<'_> {
    // 0.0 where the proof is missing.
    #[tactic(auto, using(wire::proofs::MessageParts::shown))]
    pub fn timestamp(self) -> Timestamp
        ensures { result ≡ of_number (prepared_timestamp (prepared_part self.entry.proof.now)) }
    {
        parts::timestamp(self.proof)
    }

    // Whether its timestamp is larger than the largest so far: on a tie the first reply's proof and card are kept.
    pub fn is_better(self, best: Timestamp) -> bool
        ensures { result ≡ is_better best (prepared_part self.entry.proof.now) }
    {
        best.is_before(self.timestamp())
    }

    // The larger timestamp.
    pub fn best_of(self, best: Timestamp) -> Timestamp
        ensures { result ≡ best_of best (prepared_part self.entry.proof.now) }
    {
        if self.is_better(best) {
            self.timestamp()
        } else {
            best
        }
    }

    // The replicas that showed the largest timestamp, by a reply of this sender.
    pub fn showed_by(self, best: Timestamp, sender: ReplicaId, showed: ReplicaSet) -> ReplicaSet
        ensures { result ≡ showed_by best (prepared_part self.entry.proof.now) sender showed }
    {
        if self.is_better(best) {
            return ReplicaSet::empty().with(sender);
        }
        if best.is(self.timestamp()) {
            return showed.with(sender);
        }
        showed
    }

    // Test 14 of a card. Behind no proof it is the starting card.
    pub fn card_stands(self, card: &[u8]) -> bool
        ensures { result ≡ card_stands card.now (prepared_part self.entry.proof.now) }
    {
        if self.proof.is_empty() {
            return same(card, &[0, 0]);
        }
        wire::card::stands_under(card, parts::digest(self.proof))
    }
}

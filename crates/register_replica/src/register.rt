// What PREPARE and WRITE do to the parts of a register.
ghost use Rattle.std.specs.Prelude.{◌≡◌, ◌&&◌, ◌||◌, eqb, leb, ltb, ◌-◌, ◌*◌, ◌≤◌, max, length, get_or, take, drop};
ghost use Rattle.base.specs.Same.{same};
ghost use Rattle.base.specs.Timestamp.{number};
ghost use Rattle.protocol.specs.RegisterReplica.{holding};
ghost use Rattle.wire.specs.Layout.{card_room};
ghost use Rattle.wire.specs.Parts.{Whole};
ghost use Rattle.wire.specs.Proof.{prepared_from, signer_set};
ghost use Rattle.register_replica.specs.Stepping.{putting_count, putting_digest, putting};

use crate::Prepared;
use crate::writer::Writer;
use base::bytes::{array, put, same};
use base::replica_set::ReplicaSet;
use base::timestamp::Timestamp;
use protocol::replica::{Held, SLOT_DIGESTS, SLOTS, Slots};
use wire::layout::DIGEST;
use wire::parts;
use wire::writer::KeptProof;

// The timestamp of a client's slot, whose count is 0 if the slot is unused. Counts and digests go by value: lent, a PREPARE copies all
// slots (measured: 2,312 bytes in place of 256).
pub(super) fn slot(counts: [u32; SLOTS], client: Writer) -> Timestamp
    ensures { result ≡ record { count = get_or counts (client.id.0 - 1) 0; client = client.id } }
{
    Timestamp {
        count: counts[client.place()],
        client: client.id,
    }
}

// Whether a client's slot has this digest.
fn has_digest(digests: [u8; SLOT_DIGESTS], client: Writer, digest: &[u8; DIGEST]) -> bool
    ensures { result ≡ same (take 32 (drop (32 * (client.id.0 - 1)) digests)) digest.now }
{
    let at = DIGEST * client.place();
    same(&digests[at..at + DIGEST], digest)
}

// Whether a client's slot, whose timestamp is `slot`, has this timestamp and digest.
pub(super) fn slot_is(
    slot: Timestamp,
    digests: [u8; SLOT_DIGESTS],
    client: Writer,
    timestamp: Timestamp,
    digest: &[u8; DIGEST],
) -> bool
    ensures { result ≡ (eqb (number slot) (number timestamp) && same (take 32 (drop (32 * (client.id.0 - 1)) digests)) digest.now) }
{
    slot.is(timestamp) && has_digest(digests, client, digest)
}

// Whether a slot takes a new timestamp.
fn slot_takes(slot: Timestamp, timestamp: Timestamp, written: Timestamp) -> bool
    ensures { result ≡ (eqb slot.count 0 || (leb (number slot) (number written) && ltb (number slot) (number timestamp))) }
{
    slot.count == 0 || (!written.is_before(slot) && slot.is_before(timestamp))
}

// Whether a PREPARE is taken: the slot has its timestamp and digest, or takes them.
pub(super) fn slot_admits(
    slot: Timestamp,
    again: bool,
    timestamp: Timestamp,
    written: Timestamp,
) -> bool
    ensures { result ≡ (again || (eqb slot.count 0 || (leb (number slot) (number written) && ltb (number slot) (number timestamp)))) }
{
    again || slot_takes(slot, timestamp, written)
}

// Whether a PREPARE that is taken leaves all as it was: the slot has its timestamp and digest, and no written proof is later.
pub(super) fn is_kept(again: bool, before: Timestamp, written: Timestamp) -> bool
    ensures { result ≡ (eqb (number before) (number written) && again) }
{
    before.is(written) && again
}

pub(super) fn later(a: Timestamp, b: Timestamp) -> Timestamp
    ensures { number result ≡ max (number a) (number b) }
{
    a.max(b)
}

// A slot's count, and its digest, stored among those of all slots: two arrays, since their layout is the C interface's.
pub(super) fn put_count(counts: &mut [u32; SLOTS], prepared: Prepared)
    ensures { counts.new ≡ putting_count prepared counts.old }
{
    counts[prepared.client.place()] = prepared.count;
}

pub(super) fn put_digest(digests: &mut [u8; SLOT_DIGESTS], prepared: Prepared)
    ensures { digests.new ≡ putting_digest prepared digests.old }
{
    let at = prepared.client.place();
    put(digests, 32 * at, &prepared.digest);
}

// The slots with what a PREPARE puts.
pub(super) fn put_slot(slots: Slots, prepared: Prepared) -> Slots
    ensures { result ≡ putting prepared slots }
{
    let mut next = slots;
    put_count(&mut next.counts, prepared);
    put_digest(&mut next.digests, prepared);
    next.written = prepared.written;
    next
}

// The proof that is held, as it is written.
pub(super) fn kept_proof<'a>(held: &'a Held) -> KeptProof<'a, DIGEST>
    ensures timestamp { result.timestamp ≡ held.now.timestamp }
    ensures digest { result.digest.now ≡ held.now.digest }
    ensures entry_count { result.entry_count ≡ held.now.entry_count }
    ensures entries { result.entries.now ≡ held.now.entries }
{
    KeptProof {
        timestamp: held.timestamp,
        digest: &held.digest,
        entry_count: held.entry_count,
        entries: &held.entries,
    }
}

// A card and its prepared proof, as they are held, with those who signed it.
pub(super) fn holding(card: &[u8], proof: &[u8], signers: ReplicaSet) -> Held
    requires { Whole 32 proof.now × (signers ≡ signer_set (prepared_from proof.now).entries) × (length card.now ≤ card_room) }
    ensures { result ≡ holding card.now (prepared_from proof.now) }
{
    Held {
        timestamp: parts::timestamp(proof),
        card_length: card.len() as u8,
        card: array(card),
        digest: array(parts::digest(proof)),
        signers,
        entry_count: parts::entry_count::<DIGEST>(proof),
        entries: array(parts::entries::<DIGEST>(proof)),
    }
}

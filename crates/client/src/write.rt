// A write's replies: STAMPs, PREPAREDs, and the WRITTENs that end it, or a write-back.
ghost use Rattle.std.specs.Prelude.{◌≡◌, List, ℕ, ◌≤◌, length};
ghost use Rattle.base.specs.Counting.{replica};
ghost use Rattle.base.specs.ReplicaSet.{with};
ghost use Rattle.base.specs.Timestamp.{successor};
ghost use Rattle.wire.specs.Message.{longest};
ghost use Rattle.wire.specs.Parts.{part_at};
ghost use Rattle.protocol.specs.Client.{client_answers, to_prepare, after_stamp, after_prepared, after_written, with_signature, with_signatures};
ghost use Rattle.client.specs.Messages.{after_tests};
ghost use Rattle.client.specs.Leaving.{call_of, Takes, TakesAny};

use crate::answers::{Taken, card_digest, done, plain, sent, waits};
use crate::read::after_write_back;
use crate::record::{best_proof, built, keep_better, kept_card, with_last_written, written_for};
use crate::reply::Reply;
use crate::role::Role;
use crate::signatures::keep_signature;
use base::refusal::Refusal;
use base::replica_set::ReplicaSet;
use base::timestamp::Timestamp;
use protocol::client::{Client, ClientAnswer, Phase};
use wire::layout::{ENTRIES_ROOM, SIGNATURES_ROOM};
use wire::message::Kind;
use wire::writer::KeptProof;

// PREPARE the successor of the largest timestamp. The last count has none: the write ends.
fn to_prepare(client: Client, best: Timestamp, out: &mut [u8]) -> Result<Taken, Refusal>
    requires { longest ≤ length out.old }
    ensures { Takes out.old (to_prepare client best (successor best client.id)) result out.new }
{
    let Some(next) = best.successor(client.id) else {
        let phase = Phase::Idle;
        return Ok(plain(ClientAnswer::Ended, Client { phase, ..client }));
    };
    let digest = card_digest(&client);
    let last = written_for(&client, client.register);
    let written = wire::writer::write_prepare(
        out,
        client.register,
        client.id,
        next,
        &digest,
        best_proof(&client, best),
        KeptProof {
            timestamp: last.timestamp,
            digest: &[],
            entry_count: last.entry_count,
            entries: &last.entries,
        },
    );
    // The best reply's proof is no longer needed.
    let preparing = Client {
        phase: Phase::Prepareds(next, ReplicaSet::empty()),
        digest,
        signers: ReplicaSet::empty(),
        entry_count: 0,
        entries: [0; ENTRIES_ROOM],
        ..client
    };
    sent(written, preparing)
}

// A STAMP more was taken.
#[tactic(auto, unfolding(protocol::specs::Client::after_stamp))]
fn after_stamp(
    client: Client,
    nonce: u64,
    best: Timestamp,
    counted: ReplicaSet,
    out: &mut [u8],
) -> Result<Taken, Refusal>
    requires { longest ≤ length out.old }
    ensures { Takes out.old (after_stamp nonce best counted client) result out.new }
{
    if counted.is_quorum(client.f) {
        return to_prepare(client, best, out);
    }
    Ok(waits(client, Phase::Stamps(nonce, best, counted)))
}

// A STAMP, and the phase that it meets.
pub(super) fn on_stamp(client: Client, reply: Reply, out: &mut [u8]) -> Result<Taken, Refusal>
    requires { (longest ≤ length out.old) × (reply.fields.kind ≡ Kind.Stamp) }
    ensures { call_of client result out.new ≡ client_answers client out.old (after_tests Role.Ordinary client reply.entry.message.now) }
{
    let Phase::Stamps(asked, best, counted) = reply.meets(&client) else {
        return Err(Refusal::NotAwaited);
    };
    if !reply.is_awaited(asked, client.id, counted) {
        return Err(Refusal::NotAwaited);
    }
    let shown = reply.shown();
    after_stamp(
        keep_better(client, best, shown),
        asked,
        shown.best_of(best),
        counted.with(reply.sender()),
        out,
    )
}

// A PREPARED more was taken: from q of them the proof is built, and WRITE sent.
fn after_prepared(
    client: Client,
    timestamp: Timestamp,
    counted: ReplicaSet,
    out: &mut [u8],
) -> Result<Taken, Refusal>
    requires { longest ≤ length out.old }
    ensures { Takes out.old (after_prepared timestamp counted client) result out.new }
{
    if !counted.is_quorum(client.f) {
        return Ok(waits(client, Phase::Prepareds(timestamp, counted)));
    }
    let proof = built(&client, counted);
    let written = wire::writer::write_write(
        out,
        client.register,
        client.id,
        kept_card(&client),
        KeptProof {
            timestamp,
            digest: &client.digest,
            entry_count: proof.count,
            entries: &proof.entries,
        },
    );
    // The proof's signers are kept in place of the signatures.
    let writing = Client {
        phase: Phase::Writtens(timestamp, ReplicaSet::empty()),
        signers: proof.signers,
        signatures: [0; SIGNATURES_ROOM],
        ..client
    };
    sent(written, writing)
}

// A PREPARED, and the phase that it meets.
pub(super) fn on_prepared(
    mut client: Client,
    reply: Reply,
    out: &mut [u8],
) -> Result<Taken, Refusal>
    requires { (longest ≤ length out.old) × (reply.fields.kind ≡ Kind.Prepared) }
    ensures { call_of client result out.new ≡ client_answers client out.old (after_tests Role.Ordinary client reply.entry.message.now) }
{
    let Phase::Prepareds(asked, counted) = reply.meets(&client) else {
        return Err(Refusal::NotAwaited);
    };
    if !reply.is_awaited_prepared(asked, &client.digest, counted) {
        return Err(Refusal::NotAwaited);
    }
    let sender = reply.sender();
    keep_signature(&mut client.signatures, sender, reply.signature());
    after_prepared(client, asked, counted.with(sender), out)
}

// A WRITTEN more was taken: q of them end the write, and are the next written proof.
#[tactic(auto, unfolding(protocol::specs::Client::after_written))]
fn after_written(client: Client, timestamp: Timestamp, written: ReplicaSet) -> Taken
    ensures { TakesAny (after_written timestamp written client) result }
{
    if !written.is_quorum(client.f) {
        return waits(client, Phase::Writtens(timestamp, written));
    }
    done(timestamp, with_last_written(client, timestamp, written))
}

// A WRITTEN to a client that waits for them to end its write.
fn count_written(mut client: Client, asked: Timestamp, counted: ReplicaSet, reply: Reply) -> Taken
    requires { reply.fields.kind ≡ Kind.Written }
    ensures { TakesAny
        (after_written asked (with counted (replica reply.entry.fields.sender))
        (with_signatures (with_signature client.signatures (replica reply.entry.fields.sender) (part_at reply.entry.message.now reply.entry.fields.signature)) client))
        result }
{
    let sender = reply.sender();
    keep_signature(&mut client.signatures, sender, reply.signature());
    after_written(client, asked, counted.with(sender))
}

// A WRITTEN, and the phase that it meets: a write's, or a write-back's.
pub(super) fn on_written(client: Client, reply: Reply) -> Result<Taken, Refusal>
    requires { reply.fields.kind ≡ Kind.Written }
    ensures { (old : List ℕ) → call_of client result old ≡ client_answers client old (after_tests Role.Ordinary client reply.entry.message.now) }
{
    match reply.meets(&client) {
        Phase::Writtens(asked, counted) => {
            if !reply.is_awaited_written(asked, counted) {
                return Err(Refusal::NotAwaited);
            }
            Ok(count_written(client, asked, counted, reply))
        }
        Phase::WriteBack(asked, counted) => {
            if !reply.is_awaited_written(asked, counted) {
                return Err(Refusal::NotAwaited);
            }
            Ok(after_write_back(client, asked, counted.with(reply.sender())))
        }
        _ => Err(Refusal::NotAwaited),
    }
}

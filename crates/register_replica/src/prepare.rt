// PREPARE: the client's slot takes its timestamp and digest.
ghost use Rattle.std.specs.Prelude.{◌≡◌, ◌≤◌, length};
ghost use Rattle.base.specs.Timestamp.{number, of_number, successor};
ghost use Rattle.wire.specs.Message.{longest};
ghost use Rattle.wire.specs.declared.message.Kind.TheVariants.{Prepare};
ghost use Rattle.protocol.specs.RegisterReplica.{is_timestamp, with_slots, on_prepare, register_answers};
ghost use Rattle.register_replica.specs.Leaving.{Leaves, Passes, Answers};

use crate::answers::{keep, refuse};
use crate::register::{is_kept, later, put_slot, slot, slot_admits, slot_is};
use crate::writer::Writer;
use crate::{Change, Prepared, Stepped};
use base::bytes::array;
use base::party::{ClientId, RegisterId};
use base::refusal::Refusal;
use base::replica_set::ReplicaSet;
use base::timestamp::Timestamp;
use protocol::replica::{Register, RegisterReplica, Slots};
use wire::layout::DIGEST;
use wire::message::Fields;
use wire::parts;

fn with_slots(replica: RegisterReplica, slots: Slots) -> RegisterReplica
    ensures { result ≡ with_slots replica slots }
{
    let register = Register {
        slots,
        ..replica.register
    };
    RegisterReplica {
        register,
        ..replica
    }
}

// Test 13, with 0.0 for a missing prepared proof.
fn is_successor(timestamp: Timestamp, shown: Timestamp, client: ClientId) -> bool
    ensures { result ≡ is_timestamp (number timestamp) (successor (of_number (number shown)) client) }
{
    shown.successor(client) == Some(timestamp)
}

// PREPARE, with 0.0 for the timestamp of a missing proof.
fn prepare(
    replica: RegisterReplica,
    register: RegisterId,
    client: Writer,
    timestamp: Timestamp,
    digest: &[u8; DIGEST],
    shown: Timestamp,
    last: Timestamp,
    out: &mut [u8],
) -> Stepped
    requires { longest ≤ length out.old }
    ensures { Leaves replica (register_answers register replica out.old (on_prepare replica client.id (number timestamp) digest.now (number shown) (number last))) result out.new }
{
    if !is_successor(timestamp, shown, client.id) {
        return refuse(replica, Refusal::NotSuccessor);
    }
    let before = replica.register.slots.written;
    let written = later(before, last);
    let held = slot(replica.register.slots.counts, client);
    let again = slot_is(
        held,
        replica.register.slots.digests,
        client,
        timestamp,
        digest,
    );
    if !slot_admits(held, again, timestamp, written) {
        // A refused PREPARE leaves the written timestamp too as it was.
        return refuse(replica, Refusal::NotTaken);
    }
    let answer = wire::writer::write_prepared(out, register, replica.id, timestamp, digest);
    if is_kept(again, before, written) {
        return keep(replica, answer);
    }
    let prepared = Prepared {
        client,
        count: timestamp.count,
        digest: *digest,
        written,
    };
    let next = put_slot(replica.register.slots, prepared);
    Stepped {
        answer,
        replica: with_slots(replica, next),
        change: Change::Prepares(prepared),
    }
}

// PREPARE, taken out of a message that tests 2 to 11 let through.
pub(super) fn on_prepare(
    replica: RegisterReplica,
    message: &[u8],
    fields: Fields,
    out: &mut [u8],
) -> Stepped
    requires { ((signers : ReplicaSet) × Passes replica message.now fields signers) × (fields.kind ≡ Prepare) × (longest ≤ length out.old) }
    ensures { Answers replica message.now fields out.old result out.new }
{
    let client = Writer {
        id: ClientId(fields.sender),
    };
    let digest = array(parts::part(message, fields.digest));
    // 0.0 where the proof is missing.
    let shown = parts::timestamp(parts::part(message, fields.prepared));
    let last = parts::timestamp(parts::part(message, fields.written));
    prepare(
        replica,
        fields.register,
        client,
        fields.timestamp,
        &digest,
        shown,
        last,
        out,
    )
}

// What a party makes of a message before its own rules: tests 2 to 11 on bytes and verdicts of any number and value.
ghost use Rattle.std.specs.Prelude.{◌≡◌, true, if◌then◌else◌};
ghost use Rattle.base.specs.BitMap.{bit};
ghost use Rattle.base.specs.Refusal.{outcome};
ghost use Rattle.base.specs.Timestamp.{is_issued};
ghost use Rattle.wire.specs.Acceptance.{numbered, in_its_range, may_send, is_served, acceptance};
ghost use Rattle.wire.specs.Accepting.{opened, proof_judged, Ready, Judges};
ghost use Rattle.wire.specs.Kind.{kind_number};

use crate::checks::{check_proof, first_refusal, verdicts_fit};
use crate::layout::DIGEST;
use crate::message::{Fields, Kind, Party};
use crate::parts;
use crate::signatures::count_in;
use base::client_set::ClientSet;
use base::party::{ClientId, ReplicaId, is_client, is_register, is_replica, is_writer};
use base::refusal::Refusal;
use base::replica_set::ReplicaSet;
use base::slices::{behind, front};
use base::timestamp::Timestamp;

// Test 6.
fn in_range(party: Party, f: u8, sender: u8) -> bool
    ensures { result ≡ in_its_range f (numbered party sender) }
{
    match party {
        Party::Replica => is_client(ClientId(sender)),
        Party::Client => is_replica(f, ReplicaId(sender)),
    }
}

// Test 19: a client that is no writer sends READ alone.
fn may_send(party: Party, kind: Kind, sender: u8) -> bool
    ensures { result ≡ may_send (kind_number kind) (numbered party sender) }
{
    party == Party::Client || kind == Kind::Read || is_writer(ClientId(sender))
}

// Test 23: a withdrawn client is served no more.
fn is_served(party: Party, withdrawn: ClientSet, sender: u8) -> bool
    ensures { result ≡ is_served withdrawn (numbered party sender) }
{
    party == Party::Client || !withdrawn.has(ClientId(sender))
}

// Tests 2 to 8, with 19 and 20 behind 6, and 23 behind 8.
#[tactic(auto, using(crate::proofs::Tests6To11::opened_unread, crate::proofs::Tests6To11::out_of_range, crate::proofs::Tests6To11::of_viewer, crate::proofs::Tests6To11::for_none, crate::proofs::Tests6To11::not_each, crate::proofs::Tests6To11::forged, crate::proofs::Tests6To11::of_withdrawn, crate::proofs::Tests6To11::open_to, crate::proofs::Passing::passed_on))]
fn open(
    party: Party,
    f: u8,
    withdrawn: ClientSet,
    bytes: &[u8],
    verdicts: &[u8],
) -> Result<Fields, Refusal>
    ensures { outcome result ≡ opened party f withdrawn bytes.now verdicts.now }
{
    let fields = crate::reader::read(party, bytes)?;
    if !in_range(party, f, fields.sender) {
        return Err(Refusal::Sender);
    }
    if !may_send(party, fields.kind, fields.sender) {
        return Err(Refusal::NotForViewers);
    }
    if !is_register(fields.register) {
        return Err(Refusal::Register);
    }
    if !verdicts_fit(verdicts, count_in(bytes, fields)) {
        return Err(Refusal::Verdicts);
    }
    if verdicts[0] != 1 {
        return Err(Refusal::NotGenuine);
    }
    if !is_served(party, withdrawn, fields.sender) {
        return Err(Refusal::Withdrawn);
    }
    Ok(fields)
}

// Tests 9 to 11 of a proof with a digest of D bytes; good and signed by nobody if there is none.
#[tactic(auto, unfolding(crate::specs::Accepting::proof_judged))]
fn check_if_there<const D: usize>(
    f: u8,
    proof: &[u8],
    verdicts: &[u8],
) -> Result<ReplicaSet, Refusal>
    ensures { outcome result ≡ proof_judged D f proof.now verdicts.now }
{
    if proof.is_empty() {
        return Ok(ReplicaSet::empty());
    }
    check_proof(
        f,
        parts::entries::<D>(proof),
        verdicts,
        parts::timestamp(proof),
    )
}

// Test 11 of the timestamp field, if it is there.
fn issued_if_there(map: u16, timestamp: Timestamp) -> bool
    ensures { result ≡ (if bit map 3 then is_issued timestamp else true) }
{
    (map >> 3) % 2 == 0 || timestamp.is_issued()
}

// Tests 9 to 11: the verdicts are the message's own, those of the prepared proof's entries, and those of the written proof's.
fn judge(f: u8, bytes: &[u8], verdicts: &[u8], fields: Fields) -> Result<ReplicaSet, Refusal>
    requires { Ready bytes.now verdicts.now fields }
    ensures { Judges f bytes.now verdicts.now (outcome result) }
{
    let prepared = parts::part(bytes, fields.prepared);
    let written = parts::part(bytes, fields.written);
    let entries = behind(verdicts, 1);
    let first = usize::from(parts::entry_count::<DIGEST>(prepared));
    first_refusal(
        check_if_there::<DIGEST>(f, prepared, front(entries, first)),
        check_if_there::<0>(f, written, behind(entries, first)),
        issued_if_there(fields.map, fields.timestamp),
    )
}

// What a message with its verdicts is to the party that is handed it, where these clients are withdrawn: its fields and its
// prepared proof's signers, or the refusal.
pub fn accept(
    party: Party,
    f: u8,
    withdrawn: ClientSet,
    bytes: &[u8],
    verdicts: &[u8],
) -> Result<(Fields, ReplicaSet), Refusal>
    ensures { outcome result ≡ acceptance party f withdrawn bytes.now verdicts.now }
{
    let fields = open(party, f, withdrawn, bytes, verdicts)?;
    let signers = judge(f, bytes, verdicts, fields)?;
    Ok((fields, signers))
}

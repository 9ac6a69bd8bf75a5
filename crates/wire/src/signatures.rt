// The signatures of a message: its own and those of its proofs' entries; and those of a written proof by itself. So many verdicts come with it.
// A signing box, which makes and judges them, asks here how many there are, whose each is, and which bytes it covers.
ghost use Rattle.std.specs.Prelude.{◌≡◌, ◌-◌, ◌≤◌, ◌++◌, length, take};
ghost use Rattle.std.proofs.Math.Option.{some};
ghost use Rattle.std.proofs.Math.ListN.{get_elem?};
ghost use Rattle.base.specs.Outcome.{accepted, guard};
ghost use Rattle.base.specs.declared.party.RegisterId.{RegisterId};
ghost use Rattle.wire.specs.Acceptance.{numbered};
ghost use Rattle.wire.specs.Accepting.{count_in};
ghost use Rattle.wire.specs.Decode.{reading};
ghost use Rattle.wire.specs.Layout.{signature as signature_in};
ghost use Rattle.wire.specs.Message.{longest};
ghost use Rattle.wire.specs.Parts.{proof_part};
ghost use Rattle.wire.specs.Proof.{proof_from};
ghost use Rattle.wire.specs.Signatures.{signatures_to, signature_to, handed_signatures, handed_signature, signer_of, signer_at, ShowsSignature, EntriesStand, signatures_if_there, prepared_signatures, written_signatures};
ghost use Rattle.wire.specs.Writing.{roomy};

use crate::handed_proof::is_whole;
use crate::layout::{DIGEST, ENTRY, LONGEST_MESSAGE, SIGNATURE};
use crate::message::{Fields, Party};
use crate::parts;
use crate::writer::{put_prepared_body, put_written_body};
use base::bytes::{array, put};
use base::party::{ClientId, RegisterId, ReplicaId};
use base::refusal::Refusal;
use base::slices::front;

// Whose a signature is.
#[derive(Drop)]
pub enum Signer {
    Replica(ReplicaId),
    Client(ClientId),
}

// A signature of a message: its signer, and how many bytes it covers.
#[derive(Drop)]
pub struct Signed {
    pub signer: Signer,
    pub covered: usize,
}

// How many signatures a message with these fields has.
pub(super) fn count_in(bytes: &[u8], fields: Fields) -> usize
    ensures { result ≡ count_in bytes.now fields }
{
    let prepared = parts::part(bytes, fields.prepared);
    let written = parts::part(bytes, fields.written);
    1 + usize::from(parts::entry_count::<DIGEST>(prepared))
        + usize::from(parts::entry_count::<0>(written))
}

// How many signatures a message has, for the party that can read it. One that it cannot read has none.
pub fn signature_count(party: Party, bytes: &[u8]) -> usize
    ensures { (result ≡ length (signatures_to party bytes.now)) × (result ≤ 64) }
{
    match crate::reader::read(party, bytes) {
        Ok(fields) => count_in(bytes, fields),
        Err(_) => 0,
    }
}

// The sender with a number, of a message that this party takes.
fn sender(party: Party, number: u8) -> Signer
    ensures { signer_of result ≡ numbered party number }
{
    match party {
        Party::Replica => Signer::Client(ClientId(number)),
        Party::Client => Signer::Replica(ReplicaId(number)),
    }
}

// The message's own: its sender's, over all bytes before it.
fn own(party: Party, number: u8, bytes: &[u8], out: &mut [u8]) -> Signed
    requires { (64 ≤ length bytes.now) × (length bytes.now ≤ length out.old) }
    ensures { ShowsSignature
        (accepted (some (record { signer = numbered party number; covers = take (length bytes.now - 64) bytes.now; bytes = signature_in bytes.now })))
        out.old (Ok (Some result)) out.new }
{
    let covered = bytes.len() - SIGNATURE;
    put(out, 0, front(bytes, covered));
    Signed {
        signer: sender(party, number),
        covered,
    }
}

// The signer of a proof's i-th entry.
fn signer_at<const D: usize>(proof: &[u8], i: usize) -> Option<ReplicaId>
    requires { EntriesStand D proof.now }
    ensures { result ≡ signer_at D proof.now i }
{
    if usize::from(parts::entry_count::<D>(proof)) <= i {
        return None;
    }
    Some(ReplicaId(parts::entries::<D>(proof)[ENTRY * i]))
}

// Behind test 1 contracts require `longest ≤ length out.old`, as the engines' do: the lent output stays a slice.
// An entry's of a prepared proof: its replica's, over the PREPARED for this register with the proof's timestamp and digest.
// Not one function with `of_written`: what is written differs by the kind of message; what they share is `signer_at`.
fn of_prepared(register: RegisterId, proof: &[u8], i: usize, out: &mut [u8]) -> Option<Signed>
    requires { EntriesStand 32 proof.now × (longest ≤ length out.old) }
    ensures { ShowsSignature (accepted (get_elem? (prepared_signatures register (proof_from 32 proof.now)) i)) out.old (Ok result) out.new }
{
    let replica = signer_at::<DIGEST>(proof, i)?;
    let digest = array::<DIGEST>(parts::digest(proof));
    let covered = put_prepared_body(out, register, replica, parts::timestamp(proof), &digest);
    Some(Signed {
        signer: Signer::Replica(replica),
        covered,
    })
}

// An entry's of a written proof: its replica's, over the WRITTEN for this register with the proof's timestamp.
fn of_written(register: RegisterId, proof: &[u8], i: usize, out: &mut [u8]) -> Option<Signed>
    requires { EntriesStand 0 proof.now × (longest ≤ length out.old) }
    ensures { ShowsSignature (accepted (get_elem? (written_signatures register (proof_from 0 proof.now)) i)) out.old (Ok result) out.new }
{
    let replica = signer_at::<0>(proof, i)?;
    let covered = put_written_body(out, register, replica, parts::timestamp(proof));
    Some(Signed {
        signer: Signer::Replica(replica),
        covered,
    })
}

// An entry's, the prepared proof's entries first.
fn of_entries(
    register: RegisterId,
    prepared: &[u8],
    written: &[u8],
    i: usize,
    out: &mut [u8],
) -> Option<Signed>
    requires { EntriesStand 32 prepared.now × EntriesStand 0 written.now × (longest ≤ length out.old) }
    ensures { ShowsSignature
        (accepted (get_elem? (signatures_if_there (prepared_signatures register) (proof_part 32 prepared.now) ++ signatures_if_there (written_signatures register) (proof_part 0 written.now)) i))
        out.old (Ok result) out.new }
{
    let first = usize::from(parts::entry_count::<DIGEST>(prepared));
    if i < first {
        return of_prepared(register, prepared, i, out);
    }
    of_written(register, written, i - first, out)
}

// Of a message with these fields.
fn of_fields(party: Party, bytes: &[u8], fields: Fields, i: usize, out: &mut [u8]) -> Option<Signed>
    requires { (reading party bytes.now ≡ accepted fields) × (longest ≤ length out.old) }
    ensures { ShowsSignature (signature_to party bytes.now i) out.old (Ok result) out.new }
{
    if i == 0 {
        return Some(own(party, fields.sender, bytes, out));
    }
    let prepared = parts::part(bytes, fields.prepared);
    let written = parts::part(bytes, fields.written);
    of_entries(fields.register, prepared, written, i - 1, out)
}

// Whose the i-th signature of a message is, the message's own being number 0, and which bytes it covers: they stand in front of the output, its old bytes behind.
pub fn signature(
    party: Party,
    bytes: &[u8],
    i: usize,
    out: &mut [u8],
) -> Result<Option<Signed>, Refusal>
    ensures { ShowsSignature (guard 1 (roomy out.old) (signature_to party bytes.now i)) out.old result out.new }
{
    if out.len() < LONGEST_MESSAGE {
        return Err(Refusal::OutputTooShort);
    }
    let fields = crate::reader::read(party, bytes)?;
    Ok(of_fields(party, bytes, fields, i, out))
}

// How many signatures a written proof by itself has (document 02, #106): one for each entry. Other bytes have none.
#[tactic(auto, using(crate::proofs::ProofSignatures::none_counted, crate::proofs::ProofSignatures::all_counted))]
pub fn handed_signature_count(proof: &[u8]) -> usize
    ensures { ((register : RegisterId) → result ≡ length (handed_signatures register proof.now)) × (result ≤ 255) }
{
    if !is_whole(proof) {
        return 0;
    }
    usize::from(parts::entry_count::<0>(proof))
}

// Whose the i-th of them is, if the proof is for this register, and which bytes it covers, as `signature` says it of a message.
pub fn handed_signature(
    register: RegisterId,
    proof: &[u8],
    i: usize,
    out: &mut [u8],
) -> Result<Option<Signed>, Refusal>
    ensures { ShowsSignature (guard 1 (roomy out.old) (handed_signature register proof.now i)) out.old result out.new }
{
    if out.len() < LONGEST_MESSAGE {
        return Err(Refusal::OutputTooShort);
    }
    if !is_whole(proof) {
        return Err(Refusal::FieldLengths);
    }
    Ok(of_written(register, proof, i, out))
}

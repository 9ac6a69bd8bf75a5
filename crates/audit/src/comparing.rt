// Whether what a log says was answered is what a replica answers.
ghost use Rattle.std.specs.Prelude.{◌≡◌};
ghost use Rattle.base.specs.Refusal.{outcome};
ghost use Rattle.protocol.specs.Events.{answered_by};
ghost use Rattle.audit.specs.Comparing.{common, numbered};
ghost use Rattle.audit.specs.Log.{agrees, before_signature, same_but_signature};
ghost use Rattle.audit.specs.Reading.{recorded_by};

use base::bytes::same;
use base::refusal::Refusal;
use base::slices::front;
use wire::layout::SIGNATURE;
use wire::message::Span;
use wire::parts::part;

fn before_signature(reply: &[u8]) -> &[u8]
    ensures { result.now ≡ before_signature reply.now }
{
    front(reply, reply.len().saturating_sub(SIGNATURE))
}

#[tactic(auto, using(std::proofs::lemmas::Bool::Decides::nat_tests), unfolding(crate::specs::Log::same_but_signature))]
fn same_but_signature(sent: &[u8], reply: &[u8]) -> bool
    ensures { result ≡ same_but_signature sent.now reply.now }
{
    sent.len() == reply.len() && same(before_signature(sent), before_signature(reply))
}

// A replica's answer with its refusal's number.
pub(super) fn by_number(answer: Result<usize, Refusal>) -> Result<usize, u8>
    ensures { numbered result ≡ outcome answer }
{
    answer.map_err(|refusal| refusal.number())
}

// The replica's answer, its reply in front of `out`; and the log's, in the bytes of the entry. Refusals are compared by number, of
// any value: a log's is a byte, and may be none of `Refusal`.
pub fn agrees(
    answer: Result<usize, u8>,
    out: &[u8],
    bytes: &[u8],
    recorded: Result<Span, u8>,
) -> bool
    ensures { result ≡ agrees (answered_by (numbered answer) out.now) (recorded_by bytes.now recorded) }
{
    match (answer, recorded) {
        (Ok(length), Ok(reply)) => same_but_signature(front(out, length), part(bytes, reply)),
        (Err(refusal), Err(number)) => refusal == number,
        _ => false,
    }
}

// How many bytes two slices have in common in front.
pub fn common(a: &[u8], b: &[u8]) -> usize
    ensures { result ≡ common a.now b.now }
{
    a.iter().zip(b).take_while(|(x, y)| x == y).count()
}

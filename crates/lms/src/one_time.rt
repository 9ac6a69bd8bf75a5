// The one-time signature, LM-OTS: the key that its chains end in (Algorithm 4b).
ghost use Rattle.std.specs.Prelude.{◌≡◌, ◌-◌, ◌≤◌, length};
ghost use Rattle.lms.specs.LmOts.{head, sum, checked, chain, zs, Kc};

use crate::layout::{C_AT, CHAINS, ENDS, MESSAGE, STEP, Y_AT};
use crate::strings::{Place, part};
use base::big_endian::to_two;
use base::bytes::put;
use wire::layout::DIGEST;

const D_PBLC: u16 = 0x8080;

const D_MESG: u16 = 0x8181;

// At most 32 * 255.
#[tactic(auto, using(crate::proofs::Values::sum_next), unfolding(crate::specs::LmOts::sum))]
fn checksum(values: &[u8; DIGEST]) -> u16
    ensures { result ≡ sum values.now 32 }
{
    let mut sum = 0;
    for value in values {
        sum += u16::from(255 - *value);
    }
    sum
}

fn with_checksum(values: &[u8; DIGEST]) -> [u8; CHAINS]
    ensures { result ≡ checked values.now }
{
    let sum = checksum(values);
    let mut all = [0u8; CHAINS];
    put(&mut all, 0, values);
    put(&mut all, DIGEST, &to_two(sum));
    all
}

impl Place {
    // Chain i from one step to its end.
    #[tactic(auto, using(crate::proofs::Chains::chain_start, crate::proofs::Chains::chain_next))]
    fn chain_end(self, i: u16, from: u8, start: [u8; DIGEST]) -> [u8; DIGEST]
        ensures { result ≡ chain (head self.identifier self.number i) from (255 - from) start }
    {
        let mut tmp = start;
        for j in from..255 {
            tmp = self.hash::<STEP>(i, &[j], &tmp);
        }
        tmp
    }

    // The ends of all chains, one behind the other.
    #[tactic(auto, unfolding(crate::specs::LmOts::zs))]
    fn chain_ends(self, values: &[u8; CHAINS], signature: &[u8]) -> [u8; CHAINS * DIGEST]
        requires { length signature.now ≡ 1124 }
        ensures { result ≡ zs self.identifier self.number values.now signature.now 34 }
    {
        let mut ends = [0u8; CHAINS * DIGEST];
        for (i, from) in values.iter().enumerate() {
            let start = part(signature, Y_AT + DIGEST * i);
            let end = self.chain_end(i as u16, *from, start);
            put(&mut ends, DIGEST * i, &end);
        }
        ends
    }

    #[tactic(auto, unfolding(crate::specs::LmOts::Q, crate::specs::LmOts::Kc))]
    pub(super) fn candidate_key(self, message: &[u8], signature: &[u8]) -> [u8; DIGEST]
        requires { (length message.now ≤ 4042) × (length signature.now ≡ 1124) }
        ensures { result ≡ Kc self.identifier self.number message.now signature.now }
    {
        let hash = self.hash::<MESSAGE>(D_MESG, &part(signature, C_AT), message);
        let ends = self.chain_ends(&with_checksum(&hash), signature);
        self.hash::<ENDS>(D_PBLC, &ends, &[])
    }
}

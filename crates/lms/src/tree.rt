// From a leaf of the tree to its root (Algorithm 6a).
ghost use Rattle.std.specs.Prelude.{◌≡◌, ◌/◌, ◌≤◌, ◌<◌, length};
ghost use Rattle.lms.specs.Lms.{identifier, leaf_number, leaf, parent, climb, Tc};

use crate::layout::{
    IDENTIFIER_AT, LEAF, LEAF_NUMBER_AT, NODE, ONE_TIME_AT, PATH_AT, ROOT_AT, TREE_TYPE_AT,
};
use crate::strings::{Place, part};
use base::bytes::array;
use base::slices::between;
use wire::layout::DIGEST;
use wire::numbers::four_at;

const D_LEAF: u16 = 0x8282;

const D_INTR: u16 = 0x8383;

// The tree's height, and its leaves: these are the nodes 32 to 63.
const HEIGHT: usize = 5;

pub(super) const LEAVES: u32 = 32;

impl Place {
    // The hash at a leaf's node.
    #[tactic(auto, unfolding(crate::specs::Lms::leaf))]
    fn leaf(self, key: &[u8; DIGEST]) -> [u8; DIGEST]
        ensures { result ≡ leaf self.identifier self.number key.now }
    {
        self.hash::<LEAF>(D_LEAF, key, &[])
    }

    fn above(self) -> Place
        ensures { result ≡ record self { number = self.number / 2 } }
    {
        Place {
            number: self.number / 2,
            ..self
        }
    }

    // The hash at the node above one, by that one's hash and its sibling's.
    #[tactic(auto, using(std::proofs::lemmas::Bool::Decides::nat_tests), unfolding(crate::specs::Lms::parent))]
    fn parent(self, sibling: &[u8; DIGEST], tmp: &[u8; DIGEST]) -> [u8; DIGEST]
        ensures { result ≡ parent self.identifier self.number sibling.now tmp.now }
    {
        if self.number % 2 == 1 {
            self.above().hash::<NODE>(D_INTR, sibling, tmp)
        } else {
            self.above().hash::<NODE>(D_INTR, tmp, sibling)
        }
    }

    #[tactic(auto, using(crate::proofs::Climbing::climbing))]
    fn climb(self, signature: &[u8], leaf: [u8; DIGEST]) -> [u8; DIGEST]
        requires { length signature.now ≡ 1292 }
        ensures { result ≡ climb self.identifier signature.now self.number leaf 5 }
    {
        let mut tmp = leaf;
        let mut node = self;
        for i in 0..HEIGHT {
            let sibling = part(signature, PATH_AT + DIGEST * i);
            tmp = node.parent(&sibling, &tmp);
            node = node.above();
        }
        tmp
    }
}

pub(super) fn candidate_root(key: &[u8], message: &[u8], signature: &[u8]) -> [u8; DIGEST]
    requires key { length key.now ≡ 56 }
    requires message { length message.now ≤ 4042 }
    requires signature { length signature.now ≡ 1292 }
    requires leaf { leaf_number signature.now < 32 }
    ensures { result ≡ Tc (identifier key.now) (leaf_number signature.now) message.now signature.now }
{
    let identifier = array(between(key, IDENTIFIER_AT, ROOT_AT));
    let q = four_at(signature, LEAF_NUMBER_AT);
    let one_time = between(signature, ONE_TIME_AT, TREE_TYPE_AT);
    let leaf = Place {
        identifier,
        number: q,
    };
    let key = leaf.candidate_key(message, one_time);
    let node = Place {
        identifier,
        number: LEAVES + q,
    };
    node.climb(signature, node.leaf(&key))
}

// A digest compared word by word, which takes a WRITE fewer instructions than byte by byte (docs/SPEED.md).
ghost use Rattle.std.specs.Prelude.{◌≡◌, [], ◌∷◌};
ghost use Rattle.base.specs.BigEndian.{to_bytes};
ghost use Rattle.base.specs.Same.{same};
ghost use Rattle.wire.specs.Sha256.{hash_bytes};

use crate::layout::DIGEST;
use base::big_endian::from_four;

// Whether a word has these bytes.
#[tactic(auto, using(crate::proofs::Words::word_same))]
fn same_word(word: u32, a: u8, b: u8, c: u8, d: u8) -> bool
    ensures { result ≡ same (to_bytes 4 word) (a ∷ b ∷ c ∷ d ∷ []) }
{
    word == from_four(a, b, c, d)
}

// Whether some bytes are those of this hash.
pub(super) fn same_hash(hash: &[u32; 8], bytes: &[u8]) -> bool
    ensures { result ≡ same (hash_bytes hash.now 8) bytes.now }
{
    if bytes.len() != DIGEST {
        return false;
    }
    for i in 0..8 {
        let at = 4 * i;
        if !same_word(
            hash[i],
            bytes[at],
            bytes[at + 1],
            bytes[at + 2],
            bytes[at + 3],
        ) {
            return false;
        }
    }
    true
}

// A signature's check (Algorithm 6).
ghost use Rattle.std.specs.Prelude.{◌≡◌};
ghost use Rattle.lms.specs.Lms.{is_public_key, signature_formed, genuine};

use crate::layout::{
    KEY, KEY_ONE_TIME_TYPE_AT, KEY_TREE_TYPE_AT, LEAF_NUMBER_AT, LONGEST_MESSAGE, ONE_TIME_AT,
    ROOT_AT, SIGNATURE, TREE_TYPE_AT,
};
use crate::strings::part;
use crate::tree::{LEAVES, candidate_root};
use base::bytes::same;
use wire::numbers::four_at;

const LMOTS_SHA256_N32_W8: u32 = 4;

const LMS_SHA256_M32_H5: u32 = 5;

#[tactic(auto, using(std::proofs::lemmas::Bool::Decides::nat_tests), unfolding(crate::specs::Lms::is_public_key))]
pub fn is_public_key(key: &[u8]) -> bool
    ensures { result ≡ is_public_key key.now }
{
    key.len() == KEY
        && four_at(key, KEY_TREE_TYPE_AT) == LMS_SHA256_M32_H5
        && four_at(key, KEY_ONE_TIME_TYPE_AT) == LMOTS_SHA256_N32_W8
}

#[tactic(auto, using(std::proofs::lemmas::Bool::Decides::nat_tests), unfolding(crate::specs::Lms::signature_formed))]
fn signature_formed(signature: &[u8]) -> bool
    ensures { result ≡ signature_formed signature.now }
{
    signature.len() == SIGNATURE
        && four_at(signature, ONE_TIME_AT) == LMOTS_SHA256_N32_W8
        && four_at(signature, TREE_TYPE_AT) == LMS_SHA256_M32_H5
        && four_at(signature, LEAF_NUMBER_AT) < LEAVES
}

#[tactic(auto, using(crate::proofs::Tested::public_key_long, crate::proofs::Tested::signature_long, crate::proofs::Tested::low_leaf), unfolding(crate::specs::Lms::genuine))]
pub fn verify(key: &[u8], message: &[u8], signature: &[u8]) -> bool
    ensures { result ≡ genuine key.now message.now signature.now }
{
    is_public_key(key)
        && signature_formed(signature)
        && message.len() <= LONGEST_MESSAGE
        && same(
            &candidate_root(key, message, signature),
            &part(key, ROOT_AT),
        )
}

// The lengths of keys, of signatures and of what is hashed, and where their parts stand (RFC 8554's sections 4.5, 5.3 and 5.4).
use wire::layout::DIGEST;

pub const KEY: usize = 56;

pub(super) const SIGNATURE: usize = 1_292;

// The digest takes no more with what is hashed before it.
pub(super) const LONGEST_MESSAGE: usize = 4_042;

// A key has the tree's type code, the one-time type code, the identifier and the root.
pub(super) const KEY_TREE_TYPE_AT: usize = 0;

pub(super) const KEY_ONE_TIME_TYPE_AT: usize = 4;

pub(super) const IDENTIFIER_AT: usize = 8;

pub(super) const IDENTIFIER: usize = 16;

pub(super) const ROOT_AT: usize = IDENTIFIER_AT + IDENTIFIER;

// A signature has the leaf's number, a one-time signature, which starts with its type code, the tree's type code and the path.
pub(super) const LEAF_NUMBER_AT: usize = 0;

pub(super) const ONE_TIME_AT: usize = 4;

pub(super) const TREE_TYPE_AT: usize = 1_128;

pub(super) const PATH_AT: usize = 1_132;

// A one-time signature has the type code, C and the strings y from which its chains go on.
pub(super) const C_AT: usize = 4;

pub(super) const Y_AT: usize = C_AT + DIGEST;

// A chain for each byte of a hash and of its checksum.
pub(super) const CHAINS: usize = DIGEST + 2;

// What each hash starts with: the identifier, four bytes and two.
pub(super) const HEAD: usize = IDENTIFIER + 4 + 2;

// What is hashed of a message, in a chain (one block), of the chains' ends, of a leaf and of a node above.
pub(super) const MESSAGE: usize = HEAD + DIGEST + LONGEST_MESSAGE;

pub(super) const STEP: usize = HEAD + 1 + DIGEST;

pub(super) const ENDS: usize = HEAD + CHAINS * DIGEST;

pub(super) const LEAF: usize = HEAD + DIGEST;

pub(super) const NODE: usize = HEAD + 2 * DIGEST;

// Strings: parts of them, and the hashes of those that start with a place in a tree.
ghost use Rattle.std.specs.Prelude.{◌≡◌, ◌++◌, ◌+◌, ◌≤◌, length};
ghost use Rattle.wire.specs.Sha256.{sha256};
ghost use Rattle.lms.specs.LmOts.{part, head};

use crate::layout::{HEAD, IDENTIFIER};
use base::big_endian::{to_four, to_two};
use base::bytes::{array, put};
use base::slices::{behind, front};
use wire::layout::DIGEST;
use wire::sha256::sha256;

pub(super) fn part(bytes: &[u8], at: usize) -> [u8; DIGEST]
    requires { at + 32 ≤ length bytes.now }
    ensures { result ≡ part bytes.now at }
{
    array(behind(bytes, at))
}

#[tactic(auto, using(crate::proofs::Hashing::hashed))]
fn hash(message: &[u8]) -> [u8; DIGEST]
    requires { length message.now ≤ 4096 }
    ensures { result ≡ sha256 message.now }
{
    sha256(message).unwrap_or([0; DIGEST])
}

// What each hash starts with: a tree's identifier, and the number of a leaf or of a node there.
#[derive(Clone, Copy)]
pub(super) struct Place {
    pub identifier: [u8; IDENTIFIER],
    pub number: u32,
}

impl Place {
    fn head(self, d: u16) -> [u8; HEAD]
        ensures { result ≡ head self.identifier self.number d }
    {
        let mut head = [0u8; HEAD];
        put(&mut head, 0, &self.identifier);
        put(&mut head, IDENTIFIER, &to_four(self.number));
        put(&mut head, IDENTIFIER + 4, &to_two(d));
        head
    }

    // The hash of the head and of two strings behind it, put together in N bytes.
    pub(super) fn hash<const N: usize>(self, d: u16, first: &[u8], second: &[u8]) -> [u8; DIGEST]
        requires fits { 22 + length first.now + length second.now ≤ N }
        requires short { N ≤ 4096 }
        ensures { result ≡ sha256 (head self.identifier self.number d ++ (first.now ++ second.now)) }
    {
        let mut buffer = [0u8; N];
        put(&mut buffer, 0, &self.head(d));
        put(&mut buffer, HEAD, first);
        put(&mut buffer, HEAD + first.len(), second);
        hash(front(&buffer, HEAD + first.len() + second.len()))
    }
}

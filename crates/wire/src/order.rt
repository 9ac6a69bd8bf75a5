// Withdrawal orders (document 02, #105) as bytes: their shape, whom they name, and what is signed.
ghost use Rattle.std.specs.Prelude.{◌≡◌};
ghost use Rattle.wire.specs.Order.{client_named, order_covered, order_signature, is_order};

use base::bytes::same;
use base::party::{ClientId, is_client};
use base::slices::{behind, front};

const ORDER: usize = 1_299;

// The bytes in front of the signature.
const COVERED: usize = 7;

const CLIENT_AT: usize = 2;

// The client that an order names: none where it has no such byte.
pub fn client_named(order: &[u8]) -> ClientId
    ensures { result ≡ client_named order.now }
{
    ClientId(order.get(CLIENT_AT).copied().unwrap_or(0))
}

pub fn order_covered(order: &[u8]) -> &[u8]
    ensures { result.now ≡ order_covered order.now }
{
    front(order, COVERED)
}

pub fn order_signature(order: &[u8]) -> &[u8]
    ensures { result.now ≡ order_signature order.now }
{
    behind(order, COVERED)
}

// Test 21.
#[tactic(auto, unfolding(crate::specs::Order::is_order))]
pub fn is_order(order: &[u8]) -> bool
    ensures { result ≡ is_order order.now }
{
    order.len() == ORDER && same(front(order, 2), &[0, 3]) && is_client(client_named(order))
}

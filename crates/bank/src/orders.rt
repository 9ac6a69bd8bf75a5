// Withdrawal orders (document 02, #105): their tests, and who is withdrawn afterwards.
ghost use Rattle.std.specs.Prelude.{◌≡◌};
ghost use Rattle.base.specs.Refusal.{outcome};
ghost use Rattle.protocol.specs.Order.{is_signed, ordered};
ghost use Rattle.bank.specs.Ordering.{withdrawal};

use base::client_set::ClientSet;
use base::refusal::Refusal;
use lms::layout::KEY;
use lms::signature::verify;
use wire::order::{client_named, is_order, order_covered, order_signature};

// Test 22.
fn is_signed(key: &[u8; KEY], order: &[u8]) -> bool
    ensures { result ≡ is_signed key.now order.now }
{
    verify(key, order_covered(order), order_signature(order))
}

// Who is withdrawn once a replica with this key, where these were, has taken an order.
#[tactic(auto, unfolding(base::specs::Outcome::guard, protocol::specs::Order::ordered))]
pub(super) fn withdraw(
    key: &[u8; KEY],
    withdrawn: ClientSet,
    order: &[u8],
) -> Result<ClientSet, Refusal>
    ensures { outcome result ≡ withdrawal withdrawn (ordered key.now order.now) }
{
    if !is_order(order) {
        return Err(Refusal::Order);
    }
    if !is_signed(key, order) {
        return Err(Refusal::OrderNotGenuine);
    }
    Ok(withdrawn.with(client_named(order)))
}

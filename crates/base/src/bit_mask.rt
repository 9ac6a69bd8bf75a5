// Sets of the numbers low to high as masks: low is the lowest bit.
ghost use Rattle.std.specs.Prelude.{◌≡◌, ◌+◌, ◌<◌};
ghost use Rattle.base.specs.Mask.{in_mask, put_in};

use crate::party::within;

#[tactic(auto, unfolding(crate::specs::Range::within))]
pub(super) fn has(low: u8, high: u8, mask: u64, id: u8) -> bool
    requires { high < low + 64 }
    ensures { result ≡ in_mask low high mask id }
{
    within(low, high, id) && (mask >> (id - low)) % 2 == 1
}

#[tactic(auto, unfolding(crate::specs::Range::within))]
pub(super) fn with(low: u8, high: u8, mask: u64, id: u8) -> u64
    requires { high < low + 64 }
    ensures { result ≡ put_in low high mask id }
{
    if within(low, high, id) {
        mask | (1 << (id - low))
    } else {
        mask
    }
}

// Numbers from their bytes and as bytes, the most significant byte first. A function for each width, since each is one call of the
// library's; one for all widths would be a loop.
ghost use Rattle.std.specs.Prelude.{◌≡◌, ◌∷◌, []};
ghost use Rattle.base.specs.BigEndian.{from_bytes, to_bytes};

#[tactic(auto, unfolding(crate::specs::BigEndian::from_bytes))]
pub fn from_two(a: u8, b: u8) -> u32
    ensures { result ≡ from_bytes (a ∷ b ∷ []) }
{
    u32::from(u16::from_be_bytes([a, b]))
}

#[tactic(auto, unfolding(crate::specs::BigEndian::from_bytes))]
pub fn from_four(a: u8, b: u8, c: u8, d: u8) -> u32
    ensures { result ≡ from_bytes (a ∷ b ∷ c ∷ d ∷ []) }
{
    u32::from_be_bytes([a, b, c, d])
}

#[tactic(auto, unfolding(crate::specs::BigEndian::to_bytes))]
pub fn to_two(n: u16) -> [u8; 2]
    ensures { result ≡ to_bytes 2 n }
{
    u16::to_be_bytes(n)
}

#[tactic(auto, unfolding(crate::specs::BigEndian::to_bytes))]
pub fn to_four(n: u32) -> [u8; 4]
    ensures { result ≡ to_bytes 4 n }
{
    u32::to_be_bytes(n)
}

#[tactic(auto, unfolding(crate::specs::BigEndian::to_bytes))]
pub fn to_eight(n: u64) -> [u8; 8]
    ensures { result ≡ to_bytes 8 n }
{
    u64::to_be_bytes(n)
}

// The number in front of a field's bytes; 0 where there are too few of them, as in a field that is not there.
ghost use Rattle.std.specs.Prelude.{◌≡◌, ◌+◌, ◌≤◌, length, take, drop, slice_index};
ghost use Rattle.base.specs.BigEndian.{from_bytes};
ghost use Rattle.wire.specs.Parts.{number_part};

pub(super) fn first_byte(field: &[u8]) -> u8
    ensures { result ≡ slice_index field.now 0 }
{
    field.first().copied().unwrap_or(0)
}

#[tactic(auto, using(crate::proofs::Windows::eight_in_front))]
pub(super) fn eight_bytes(field: &[u8]) -> u64
    ensures { result ≡ number_part 8 field.now }
{
    let [a, b, c, d, e, f, g, h, ..] = *field else {
        return 0;
    };
    u64::from_be_bytes([a, b, c, d, e, f, g, h])
}

pub fn four_at(bytes: &[u8], at: usize) -> u32
    requires { at + 4 ≤ length bytes.now }
    ensures { result ≡ from_bytes (take 4 (drop at bytes.now)) }
{
    base::big_endian::from_four(bytes[at], bytes[at + 1], bytes[at + 2], bytes[at + 3])
}

// Parts of a slice, for places of any value: what lies behind its end is not there.
ghost use Rattle.std.specs.Prelude.{◌≡◌, take, drop};
ghost use Rattle.base.specs.Bytes.{between};

pub fn between(bytes: &[u8], at: usize, end: usize) -> &[u8]
    ensures { result.now ≡ between bytes.now at end }
{
    let end = end.min(bytes.len());
    &bytes[at.min(end)..end]
}

// So many bytes in front, and all but these.
pub fn front(bytes: &[u8], count: usize) -> &[u8]
    ensures { result.now ≡ take count bytes.now }
{
    &bytes[..count.min(bytes.len())]
}

pub fn behind(bytes: &[u8], count: usize) -> &[u8]
    ensures { result.now ≡ drop count bytes.now }
{
    &bytes[count.min(bytes.len())..]
}

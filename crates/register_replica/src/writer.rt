// The clients that write, each of which has a slot.
ghost use Rattle.std.specs.Prelude.{◌≡◌, ◌-◌, ◌≤◌, ◌<◌};

use base::party::ClientId;

#[derive(Clone, Copy)]
pub struct Writer {
    pub id: ClientId,
    pub ghost writes: { (1 ≤ id.0) × (id.0 ≤ 64) },
}

impl Writer {
    // Where its slot stands among all.
    pub(super) fn place(self) -> usize
        ensures place { result ≡ self.id.0 - 1 }
        ensures among { result < 64 }
    {
        usize::from(self.id.0) - 1
    }
}

// The bytes of a log that are at hand: what is left of them goes to the front, and more is read behind it.
ghost use Rattle.audit.specs.Window.{MovesFront};

// The bytes between two places, moved to the front: how many they are.
pub fn move_front(bytes: &mut [u8], from: usize, to: usize) -> usize
    ensures { MovesFront bytes.old from to result bytes.new }
{
    let to = to.min(bytes.len());
    let from = from.min(to);
    bytes.copy_within(from..to, 0);
    to - from
}

// The messages sent since `new`.
use base::bytes::array;
use base::slices::front;

// So many messages are kept, the first ones.
const KEPT: usize = 200;

const ROOM: usize = 1_600;

// A message of so many bytes, at the front of its room.
#[derive(Clone, Copy)]
pub struct Message {
    length: usize,
    bytes: [u8; ROOM],
}

// Message M stands at M - 1.
#[derive(Drop)]
pub struct Log {
    sent: usize,
    kept: [Message; KEPT],
}

impl Log {
    pub fn empty() -> Log {
        let nothing = Message {
            length: 0,
            bytes: [0; ROOM],
        };
        Log {
            sent: 0,
            kept: [nothing; KEPT],
        }
    }

    pub fn clear(&mut self) {
        self.sent = 0;
    }

    // Keeps a message that is sent, if it is one of the first, and answers its number.
    pub fn keep(&mut self, message: &[u8]) -> usize {
        if let Some(kept) = self.kept.get_mut(self.sent) {
            *kept = Message {
                length: message.len(),
                bytes: array(message),
            };
        }
        self.sent = self.sent.saturating_add(1);
        self.sent
    }

    // The message with a number, if it is one of the kept.
    pub fn message(&self, number: usize) -> Option<&[u8]> {
        if number > self.sent {
            return None;
        }
        let kept = self.kept.get(number.checked_sub(1)?)?;
        Some(front(&kept.bytes, kept.length))
    }
}

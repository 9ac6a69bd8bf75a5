// The lengths of a message and of its parts, in bytes.
pub const LONGEST_MESSAGE: usize = 1_580;

// The bit maps of fields 0 to 9 are below this number.
pub const MAPS: u16 = 1_024;

pub const SIGNATURE: usize = 64;

// A message's last field, and what stands behind it.
pub const REGISTER_AND_SIGNATURE: usize = 1 + SIGNATURE;

pub const TIMESTAMP: usize = 5;

pub const DIGEST: usize = 32;

// A proof's entry: signer and signature.
pub const ENTRY: usize = 1 + SIGNATURE;

// A proof before its entries: timestamp, digest and number of entries; the written one has no digest.
pub const PREPARED_HEAD: usize = TIMESTAMP + DIGEST + 1;

pub const WRITTEN_HEAD: usize = TIMESTAMP + 1;

// A proof of the largest quorum has so many entries.
pub const MOST_ENTRIES: u8 = 11;

pub const LONGEST_CARD: u8 = 17;

// `as`, since usize::from is no constant. Room for a card, for the entries of a proof, and for a signature of each replica, in the parties' records.
pub const CARD_ROOM: usize = LONGEST_CARD as usize;

pub const ENTRIES_ROOM: usize = ENTRY * MOST_ENTRIES as usize;

pub const SIGNATURES_ROOM: usize = 16 * SIGNATURE;

// SHA-256, cards, and the message reader and writer: the lower crate on whose contracts replica and client rest.
#![tactic(auto)]

pub mod acceptance;
pub mod card;
pub mod card_part;
pub mod checks;
mod digest_words;
mod frame;
pub mod handed_proof;
pub mod layout;
pub mod message;
pub mod numbers;
pub mod order;
pub mod parts;
pub mod reader;
pub mod sha256;
pub mod signatures;
pub mod writer;

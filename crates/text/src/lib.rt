// Text: lines, words, hex digits, decimals and timestamps, read from bytes and put into them.
#![tactic(auto)]

pub mod buffer;
pub mod decimal;
pub mod hex;
pub mod line;
pub mod timestamp;

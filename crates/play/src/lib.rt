// The run player but for reading and writing: what it keeps of its input, its grammar, one turn, what a turn prints, and all of
// it together.
#![tactic(auto)]

mod calls;
mod grammar;
pub mod input;
mod log;
mod output;
pub mod session;
mod turn;
mod world;

// Judging another maker's replica by its log (document 02, #110): what it answered, against what a fresh bank answers.
#![tactic(auto)]

pub mod calling;
pub mod comparing;
pub mod judging;
pub mod reading;
pub mod window;

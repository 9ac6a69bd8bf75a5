// Concrete runs: the theorem about runs is not empty, its bound and its true verdicts are needed, views fall back, and one timestamp has
// a digest for each register. This crate has no code.
#![tactic(auto)]

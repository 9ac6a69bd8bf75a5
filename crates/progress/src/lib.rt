// Progress of every run: how many messages an operation sends, that they are not refused, and when it finishes. This crate has no code.
#![tactic(auto)]

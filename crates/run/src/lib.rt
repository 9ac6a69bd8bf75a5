// Runs of replicas and clients, and the theorem about every run. This crate has no code.
#![tactic(auto)]

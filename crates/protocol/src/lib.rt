// The records of replica and client, and in specs/ what they do: the definitions that the engines' contracts cite.
#![tactic(auto)]

pub mod client;
pub mod replica;

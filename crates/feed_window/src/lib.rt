// What is kept of streams that arrive in portions (RULES, Requests, No. 5): spans of the window, portions, and the word that a stream has
// ended.
#![tactic(auto)]

pub mod portions;
pub mod spans;

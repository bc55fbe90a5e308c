// What a program over streams in portions does with a line (RULES, Requests, No. 5): the call that it holds, and the answer as a line.
#![tactic(auto)]

pub mod answers;
pub mod lines;

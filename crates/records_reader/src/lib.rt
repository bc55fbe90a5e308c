// The reader of one stream: its bytes and a place.
#![tactic(auto)]

pub mod reader;

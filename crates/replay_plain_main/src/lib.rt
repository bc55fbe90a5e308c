// The replay program by the plain engine (RULES, Requests, No. 12): the same work, and by its contract the same output.
#![tactic(auto)]

use records_plain::plain::Plain;
use std::io::Input;

// The program: replays standard input to standard output, and answers the status to end with.
pub fn replay_plain_main(rt: &(impl Input + Print + Eprint)) -> u8 {
    replay_main::replayed_by::<Plain>(rt)
}

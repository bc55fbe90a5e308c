// replay_plain: the program that rt runs on `stdin` and holds to `stdout`, both the same as `replay`'s.
#![tactic(auto)]

use std::process::ExitCode;

fn main(rt: HostRuntime) -> ExitCode {
    ExitCode::from(replay_plain_main::replay_plain_main(&rt))
}

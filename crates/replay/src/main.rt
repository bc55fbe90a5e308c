// replay: the program that rt runs on `stdin` and holds to `stdout`, and that people run by
// `tools/program`.
#![tactic(auto)]

use std::process::ExitCode;

fn main(rt: HostRuntime) -> ExitCode {
    ExitCode::from(replay_main::replay_main(&rt))
}

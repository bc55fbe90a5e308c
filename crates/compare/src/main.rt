// compare: the program that rt runs on `stdin` and holds to `stdout`, and that people run by
// `tools/program`.
#![tactic(auto)]

use std::process::ExitCode;

fn main(rt: HostRuntime) -> ExitCode {
    ExitCode::from(compare_main::compare_main(&rt))
}

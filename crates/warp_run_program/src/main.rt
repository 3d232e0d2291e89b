//! The program of one run: a site and an upload come in on standard input, and the report goes to standard output. It has no words.
#![tactic(auto)]

use std::io;
use std::process::ExitCode;
use upload_reader::Fed;
use warp_run::{Told, exit_with, run};

fn main(rt: HostRuntime) -> ExitCode {
    let mut reader = Fed::new(rt.stdin());
    let mut writer = Told::new(io::writer(&rt));
    let status = run(&rt, &mut reader, &mut writer);
    exit_with(&rt, status.code(), status.line())
}

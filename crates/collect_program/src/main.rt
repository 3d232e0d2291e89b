//! The program of the collector: `collect PORT FOLDER [ORIGIN] [MEBIBYTES]`.
#![tactic(auto)]

use collect_server::{Serving, accept_call};
use std::env;
use std::io::Eprint;
use std::process::ExitCode;

fn main(rt: HostRuntime) -> ExitCode {
    let collecting = match accept_call(env::args(&rt)) {
        Ok(collecting) => collecting,
        Err(fault) => return end(&rt, fault.code(), fault.line()),
    };
    let mut serving = match Serving::open(&rt, collecting) {
        Ok(serving) => serving,
        Err(fault) => return end(&rt, fault.code(), fault.line()),
    };
    for _ in rt.forever() {
        match serving.round(&rt) {
            Ok(()) => {}
            Err(fault) => return end(&rt, fault.code(), fault.line()),
        }
    }
    ExitCode::SUCCESS
}

fn end<R: Eprint>(rt: &R, code: u8, line: &str) -> ExitCode {
    match eprintln!(rt; "warp_server: {line}") {
        Ok(()) => ExitCode::from(code),
        Err(_) => ExitCode::from(code),
    }
}

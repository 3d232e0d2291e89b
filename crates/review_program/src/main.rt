//! The program of the administrator's page: `review PORT SITEFILE UPLOADS..`.
#![tactic(auto)]

use review_server::{ReviewFault, ReviewServer, accept_call};
use std::env;
use std::io::{Eprint, IsTerminal};
use std::process::ExitCode;
use warp_run::exit_with;

fn main(rt: HostRuntime) -> ExitCode {
    let reviewing = match accept_call(env::args(&rt)) {
        Ok(reviewing) => reviewing,
        Err(fault) => return exit_with(&rt, fault.code(), Some(fault.line())),
    };
    let (port, site_file) = (reviewing.port, reviewing.site_file.copy());
    let mut server = match ReviewServer::open(&rt, reviewing, rt.stderr().is_terminal()) {
        Ok(server) => server,
        Err(fault) => {
            let code = exit_with(&rt, fault.code(), Some(fault.line()));
            if let Ok(name) = site_file {
                say_wrong(&rt, name.as_str(), fault);
            }
            return code;
        }
    };
    let _ = eprintln!(rt; "http://127.0.0.1:{port}/");
    for _ in rt.forever() {
        match server.round(&rt) {
            Ok(()) => {}
            Err(fault) => return exit_with(&rt, fault.code(), Some(fault.line())),
        }
    }
    ExitCode::SUCCESS
}

// What is wrong with the site's file.
fn say_wrong(rt: &impl Eprint, name: &str, fault: ReviewFault) {
    let Some(wrong) = fault.wrong() else {
        return;
    };
    let _ = rt.eprint(name);
    let _ = rt.eprint(":");
    let _ = rt.eprintln(wrong);
}

//! The program of the replay server: a site and uploads come in, on standard input, over connections or from files, and the report goes to standard output.
#![tactic(auto)]

use replay_folder::{ReplayEnd, replay};
use site_file::FileWrong;
use std::io::IsTerminal;
use std::process::ExitCode;
use std::{env, io};
use upload_reader::Fed;
use warp_server::{Call, Told, accept_call, exit_with, listen, run};

fn main(rt: HostRuntime) -> ExitCode {
    let mut writer = Told::new(io::writer(&rt));
    match accept_call(env::args(&rt)) {
        Err(fault) => exit_with(&rt, fault.code(), Some(fault.line())),
        Ok(Call::Run) => {
            let mut reader = Fed::new(rt.stdin());
            let status = run(&rt, &mut reader, &mut writer);
            exit_with(&rt, status.code(), status.line())
        }
        Ok(Call::Listen(listening)) => {
            let status = listen(&rt, &listening, &mut writer);
            exit_with(&rt, status.code(), status.line())
        }
        Ok(Call::Replay(replaying)) => {
            let site_file = replaying.site_file.copy();
            let ReplayEnd { status, wrong } = replay(
                &rt,
                replaying,
                rt.stderr().is_terminal(),
                &mut writer,
            );
            let code = exit_with(&rt, status.code(), status.line());
            if let (Ok(name), Some(wrong)) = (site_file, wrong) {
                say_wrong(&rt, name.as_str(), wrong);
            }
            code
        }
    }
}

// What is wrong with the site's file.
fn say_wrong(rt: &impl Eprint, name: &str, wrong: FileWrong) {
    let _ = rt.eprint(name);
    let _ = rt.eprint(":");
    let _ = rt.eprintln(wrong);
}

//! Calls that are refused memory, where no run of the server's program shows what stands then. The word is a case, which makes one call and says what stood
//! behind it: `whole`, or what was promised, or `WRONG`. Without a word each case is called, with ample memory.
#![tactic(auto)]

mod desks;
mod fixtures;
mod marks;
mod quiet;
mod rounds;

use std::process::ExitCode;
use std::rt::{Env, Files};
use std::sync::Wait;
use std::thread::Threads;
use std::{env, fs};

const CASES: &str = "in-turn again quiet-pages quiet-desks quiet-lanes";

fn main(rt: HostRuntime) -> ExitCode {
    let right = match word(&rt) {
        Some(word) => print_one(&rt, word.as_str()),
        None => print_all(&rt),
    };
    if right {
        ExitCode::SUCCESS
    } else {
        ExitCode::FAILURE
    }
}

// The word behind the program's name.
fn word<T: AllocGlobal + Env>(rt: &T) -> Option<String> {
    let mut words = env::args(rt).ok()?;
    let _program = words.next();
    words.next()
}

fn print_all<T: AllocGlobal + Threads + Wait + Files + Print + Eprint + Sync>(rt: &T) -> bool {
    let mut right = true;
    for name in CASES.split_whitespace() {
        right = print_one(rt, name) && right;
    }
    right
}

fn print_one<T: AllocGlobal + Threads + Wait + Files + Print + Eprint + Sync>(
    rt: &T,
    name: &str,
) -> bool {
    let stood = call(rt, name);
    let text = stood.unwrap_or("WRONG");
    println!(rt; "{name} {text}").is_ok() && stood.is_some()
}

fn call<T: AllocGlobal + Threads + Wait + Files + Eprint + Sync>(
    rt: &T,
    name: &str,
) -> Option<&'static str> {
    match name {
        "in-turn" => rounds::in_turn(rt),
        "again" => rounds::again(rt),
        "quiet-pages" => quiet::pages(rt),
        "quiet-desks" => desks::desks(rt),
        "quiet-lanes" => quiet::lanes(rt),
        file => hold(rt, file),
    }
}

// A word that is no case is a file that is read, by which somebody outside holds the program up.
fn hold<T: AllocGlobal + Files>(rt: &T, file: &str) -> Option<&'static str> {
    let _held = fs::read(rt, file).ok()?;
    None
}

//! The files and folders of this machine.
ghost use Rattle.std.specs.Prelude.{◌≡◌, None, ⊤};

use crate::opens::{OpensUploads, Watches};
use byte_streams::Fed;
use page_tree::Text;
use std::fs::File;
use std::io::ErrorKind;
use std::rt::Files;
use std::time::{Clock, Instant};
use std::{fs, io, mem};
use warp_run::Listed;

/// What a name of a folder stands as that is no UTF-8: no file has such a name.
const NO_TEXT: &str = "\u{FFFD}\u{0}.jsonl";

/// The files and folders of this machine. Of these std says nothing, so neither do the relations.
#[derive(Drop)]
pub struct Folders<'a, T> {
    rt: &'a T,
}

impl<'a, T> Folders<'a, T> {
    pub fn new(rt: &'a T) -> Folders<'a, T>
        ensures { result.rt ≡ rt.entry }
    {
        Folders { rt }
    }
}

impl<T: Files<File = File> + AllocGlobal> OpensUploads for Folders<'_, T> {
    type File = Fed<File>;

    ghost opened = { λ _ _ _. ⊤ };

    ghost listed = { λ _ _ _. ⊤ };

    fn open(&self, path: &str) -> io::Result<Fed<File>>
        ensures { ⊤ }
    {
        Ok(Fed::new(fs::open(self.rt, path)?))
    }

    // Where nothing stands, opening it tells so.
    fn list(&self, path: &str) -> io::Result<Option<Listed<Text>>>
        ensures { ⊤ }
    {
        match fs::metadata(self.rt, path) {
            Ok(metadata) => if metadata.is_dir() {
                Ok(Some(names_in(self.rt, path)?))
            } else {
                Ok(None)
            },
            Err(error) => match error.kind() {
                ErrorKind::OutOfMemory => Err(error),
                _ => Ok(None),
            },
        }
    }
}

fn names_in<T: Files + AllocGlobal>(rt: &T, folder: &str) -> io::Result<Listed<Text>> {
    let alloc = rt.alloc();
    let mut names = Vec::new(alloc);
    for entry in fs::read_dir(&rt, folder)? {
        let name = match entry {
            Ok(entry) => Text::from_str(alloc, entry.file_name())?,
            Err(error) => match error.kind() {
                ErrorKind::InvalidFilename => Text::from_str(alloc, NO_TEXT)?,
                _ => return Err(error),
            },
        };
        if names.push(name).is_err() {
            return Err(io::Error::from(ErrorKind::OutOfMemory));
        }
    }
    Ok(Listed::from(names))
}

/// Says on standard error how far it is, at most once a second, where it is to.
#[derive(Drop)]
pub struct ProgressLine<'a, T> {
    rt: &'a T,
    shown: bool,
    last: Option<Instant>,
}

impl<'a, T> ProgressLine<'a, T> {
    /// Says it where it is to be shown.
    pub fn new(rt: &'a T, shown: bool) -> ProgressLine<'a, T>
        ensures rt { result.rt ≡ rt.entry }
        ensures shown { result.shown ≡ shown }
        ensures last { result.last ≡ None }
    {
        ProgressLine {
            rt,
            shown,
            last: None,
        }
    }
}

impl<T: Clock + Eprint> Watches for ProgressLine<'_, T> {
    fn tell(&mut self, done: usize, of: usize) {
        if !self.shown {
            return;
        }
        let Ok(now) = Instant::now(self.rt) else {
            return;
        };
        match self.last {
            None => self.last = Some(now),
            Some(last) => if now.duration_since(last).as_secs() > 0 {
                self.last = Some(now);
                say(self.rt, done, of);
            },
        }
    }

    // The program ends behind it, and the system takes all of its memory at once.
    fn let_go<X: Drop>(&mut self, made: X) {
        mem::forget(made);
    }
}

fn say(rt: &impl Eprint, done: usize, of: usize) {
    let _ = rt.eprint(done);
    let _ = rt.eprint(" of ");
    let _ = rt.eprint(of);
    let _ = rt.eprintln(" uploads");
}

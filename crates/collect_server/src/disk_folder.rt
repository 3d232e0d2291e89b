//! Folders of this machine.
ghost use Rattle.std.specs.Prelude.{None, false};

use disk_file::{DiskFile, file_fault};
use std::alloc::{AllocError, Global};
use std::fs::{File, OpenOptions, TryLockError};
use std::io::{Eprint, ErrorKind};
use std::rt::Files;
use std::{fs, io};
use upload_files::FileFault;
use upload_folder::Folder;
use upload_reader::Client;

/// Why a folder can't be used.
#[derive(Debug, Drop)]
pub enum FolderFault {
    /// Another server has it.
    InUse,
    Failed(io::Error),
}

impl From<io::Error> for FolderFault {
    fn from(fault: io::Error) -> FolderFault {
        FolderFault::Failed(fault)
    }
}

impl From<AllocError> for FolderFault {
    fn from(fault: AllocError) -> FolderFault {
        FolderFault::Failed(io::Error::from(fault))
    }
}

/// A folder that this server alone writes to, as long as it holds the lock. Of what lies there nothing is known, as of
/// `DiskFile`.
#[derive(Drop)]
pub struct DiskFolder<'a, R> {
    rt: &'a R,
    alloc: Global,
    path: String,
    folder: File,
    lock: File,
    // how many clients have a file, and how many may have one
    files: u64,
    limit: u64,
    // The name of a new file may be gone: no file is opened any more.
    broken: bool,
}

impl<'a, R: AllocGlobal + Files<File = File> + Clone + Drop> DiskFolder<'a, R> {
    /// The folder at that path, which is made if it isn't there; `limit` clients may have a file.
    pub fn open(rt: &'a R, path: &str, limit: u64) -> Result<DiskFolder<'a, R>, FolderFault> {
        let alloc = rt.alloc();
        fs::create_dir_all(rt, path)?;
        let lock = OpenOptions::new()
            .write(true)
            .create(true)
            .open(rt, format!(in alloc; "{path}/lock")?)?;
        match lock.try_lock() {
            Ok(()) => {}
            Err(TryLockError::WouldBlock) => return Err(FolderFault::InUse),
            Err(TryLockError::Error(fault)) => return Err(FolderFault::Failed(fault)),
        }
        let folder = fs::open(rt, path)?;
        folder.sync_all()?;
        Ok(DiskFolder {
            rt,
            alloc,
            path: String::from_str(alloc, path)?,
            folder,
            lock,
            files: count_files(rt, path)?,
            limit,
            broken: false,
        })
    }

    fn path_of(&self, client: &Client) -> Result<String, FileFault> {
        let folder = self.path.as_str();
        let name = client.text();
        match format!(in self.alloc; "{folder}/{name}.jsonl") {
            Ok(path) => Ok(path),
            Err(_) => Err(FileFault::Failed),
        }
    }
}

// How many clients' files there are.
fn count_files<R: Files + AllocGlobal + Clone + Drop>(rt: &R, path: &str) -> io::Result<u64> {
    let mut files: u64 = 0;
    for entry in fs::read_dir(rt, path)? {
        if entry?.file_name().ends_with(".jsonl") {
            files = files.saturating_add(1);
        }
    }
    Ok(files)
}

fn open_file<R: Files<File = File>>(rt: &R, path: &str, new: bool) -> io::Result<DiskFile> {
    let file = OpenOptions::new()
        .read(true)
        .write(true)
        .create_new(new)
        .open(rt, path)?;
    DiskFile::new(file, new)
}

impl<R: Eprint> DiskFolder<'_, R> {
    // Writes a line on standard error.
    fn say_broken(&self) {
        let path = self.path.as_str();
        match eprintln!(self.rt;
            "warp_server: the folder {path} can't be synced: no file is opened until the next start"
        ) {
            Ok(()) => {}
            Err(_) => {}
        }
    }
}

impl<R: AllocGlobal + Files<File = File> + Eprint + Clone + Drop> Folder<DiskFile>
    for DiskFolder<'_, R> {
    ghost lies = { λ _ _. None };

    ghost known = { λ _. false };

    fn find(&mut self, client: &Client) -> Result<Option<DiskFile>, FileFault> {
        if self.broken {
            return Err(FileFault::Failed);
        }
        let path = self.path_of(client)?;
        match open_file(self.rt, path.as_str(), false) {
            Ok(file) => Ok(Some(file)),
            Err(fault) => {
                if fault.kind() == ErrorKind::NotFound {
                    Ok(None)
                } else {
                    Err(file_fault(&fault))
                }
            }
        }
    }

    fn create(&mut self, client: &Client) -> Result<DiskFile, FileFault> {
        if self.broken {
            return Err(FileFault::Failed);
        }
        if self.files >= self.limit {
            return Err(FileFault::Full);
        }
        let path = self.path_of(client)?;
        match open_file(self.rt, path.as_str(), true) {
            Ok(file) => {
                self.files = self.files.saturating_add(1);
                match self.folder.sync_all() {
                    Ok(()) => Ok(file),
                    Err(_) => {
                        self.broken = true;
                        self.say_broken();
                        Err(FileFault::Failed)
                    }
                }
            }
            Err(fault) => Err(file_fault(&fault)),
        }
    }

    fn close(&mut self, _client: &Client, file: DiskFile) {
        drop(file);
    }

    /// Writes a line on standard error.
    fn shut(&mut self, client: &Client) {
        let name = client.text();
        match eprintln!(self.rt;
            "warp_server: the file of {name} isn't touched until the next start"
        ) {
            Ok(()) => {}
            Err(_) => {}
        }
    }
}

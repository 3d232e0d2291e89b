//! A folder in memory, of which nothing is known: it gives out files that fail.
ghost use Rattle.std.specs.Prelude.{None, false};

use file_fakes::MemoryFile;
use std::alloc::Global;
use upload_files::FileFault;
use upload_folder::Folder;
use upload_reader::Client;

/// Each file that it makes fails at the call of that number. A file that was closed lies there. So many files may be open.
#[derive(Drop)]
pub(crate) struct MemoryFolder {
    alloc: Global,
    lying: Vec<(Client, MemoryFile)>,
    fails_at: u64,
    room: u64,
    open: u64,
    most: u64,
}

impl MemoryFolder {
    /// With room for so many files.
    pub(crate) fn new(alloc: Global, fails_at: u64, room: u64) -> MemoryFolder {
        MemoryFolder {
            alloc,
            lying: Vec::new(alloc),
            fails_at,
            room,
            open: 0,
            most: u64::MAX,
        }
    }

    /// So many files may be open.
    pub(crate) fn with_most(self, most: u64) -> MemoryFolder {
        let mut folder = self;
        folder.most = most;
        folder
    }
}

impl Folder<MemoryFile> for MemoryFolder {
    ghost lies = { λ _ _. None };

    ghost known = { λ _. false };

    fn find(&mut self, client: &Client) -> Result<Option<MemoryFile>, FileFault> {
        if self.open >= self.most {
            return Err(FileFault::Crowded);
        }
        for place in 0..self.lying.len() {
            if self.lying[place].0 == *client {
                let (_, file) = self.lying.swap_remove(place);
                self.open = self.open.saturating_add(1);
                return Ok(Some(file));
            }
        }
        Ok(None)
    }

    fn create(&mut self, _client: &Client) -> Result<MemoryFile, FileFault> {
        if self.open >= self.most {
            return Err(FileFault::Crowded);
        }
        match self.room.checked_sub(1) {
            Some(room) => {
                self.room = room;
                self.open = self.open.saturating_add(1);
                Ok(MemoryFile::new(self.alloc, self.fails_at))
            }
            None => Err(FileFault::Full),
        }
    }

    fn close(&mut self, client: &Client, file: MemoryFile) {
        self.open = self.open.saturating_sub(1);
        if let Ok(name) = client.copy() {
            let _lies = self.lying.push((name, file));
        }
    }

    fn shut(&mut self, _client: &Client) {}
}

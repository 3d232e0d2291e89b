//! Whoever opens files and folders, and is told how far it is.
ghost use Rattle.std.specs.Prelude.{ℕ, List, Option, Result};
ghost use Rattle.std.specs.declared.io.Error.{Error};

use page_tree::Text;
use std::io;
use warp_run::Listed;

/// Opens files, and lists folders. Contracts see what it says of itself by two relations.
pub trait OpensUploads {
    /// A file, open for reading.
    type File;

    // To open the file at that path gave that.
    ghost opened: { Self → List ℕ → Result Self.File Error → Type 0 };
    // What stands at that path: a folder with these names, or none.
    ghost listed: { Self → List ℕ → Result (Option (List (List ℕ))) Error → Type 0 };

    /// Opens the file at this path for reading.
    fn open(&self, path: &str) -> io::Result<Self::File>
        ensures { opened self.now path.now result };

    /// The names in the folder at this path, in any order; none where no folder stands there. One that is no text is told by another.
    fn list(&self, path: &str) -> io::Result<Option<Listed<Text>>>
        ensures { listed self.now path.now result };
}

/// Is told how far it is. No contract says what becomes of that.
pub trait Watches {
    /// So many uploads are done, of so many.
    fn tell(&mut self, done: usize, of: usize);

    /// What replaying made, once its report is written: it is let go, or left to the system where the program ends.
    fn let_go<X: Drop>(&mut self, made: X);
}

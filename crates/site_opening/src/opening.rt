//! The site of a file that is kept open.
ghost use Rattle.std.specs.Prelude.{◌≡◌, false, IfOk};
ghost use Rattle.byte_streams.specs.Answers.{bytes_of};
ghost use Rattle.byte_streams.specs.Cutting.{ending_of};
ghost use Rattle.site_file.specs.SiteFile.{FileSite, IsSiteFile};
ghost use Rattle.site_file.specs.Kept.{AnswersAsFile};
ghost use Rattle.site_opening.specs.Opening.{IsSiteInFile};

use byte_streams::Lines;
use file_source::FileSource;
use site_file::{NoSiteFile, SiteFile, read_site_file};
use std::alloc::Global;
use std::hash::RandomState;
use upload_files::{FileFault, GrowingFile};

/// The site that a file says, and the file, with how many bytes it has.
#[derive(Drop)]
pub struct SiteInFile<F> {
    pub site: SiteFile,
    pub file: F,
    pub whole: u64,
}

/// Why there is none.
#[derive(Clone, Copy, Debug, PartialEq, Eq)]
pub enum NoSite {
    /// The file says none, a read failed, or memory was refused.
    Unread(NoSiteFile),
    /// It isn't known to stay.
    Unsynced(FileFault),
}

/// Reads the site that a file says, and syncs it: so all of its bytes stay, whoever wrote them. It hashes texts by these keys.
pub fn open_site<F: GrowingFile + Send + Drop>(
    alloc: Global,
    keys: RandomState,
    file: F,
) -> Result<SiteInFile<F>, NoSite>
    ensures { F.lost file ≡ false → IfOk result (IsSiteInFile F.seen F.durable F.lost) }
{
    let (site, source) = read_whole(alloc, keys, file)?;
    let whole = source.count();
    let mut file = source.into_file();
    match file.sync() {
        Ok(()) => Ok(SiteInFile { site, file, whole }),
        Err(fault) => Err(NoSite::Unsynced(fault)),
    }
}

// Reads a file to its end, and gives it back.
fn read_whole<F: GrowingFile + Send + Drop>(
    alloc: Global,
    keys: RandomState,
    file: F,
) -> Result<(SiteFile, FileSource<F>), NoSite>
    ensures says { IfOk result (λ both. (first : FileSite)
        × IsSiteFile (bytes_of both.1.answers) (ending_of both.1.answers) first × AnswersAsFile both.0 first) }
    ensures sound { F.lost file ≡ false → IfOk result (λ both. F.lost both.1.file ≡ false) }
{
    let Ok(mut lines) = Lines::over(alloc, FileSource::new(file)) else {
        return Err(NoSite::Unread(NoSiteFile::NoMemory));
    };
    let read = read_site_file(alloc, keys, &mut lines);
    let source = lines.into_reader();
    match read {
        Ok(site) => Ok((site, source)),
        Err(why) => Err(NoSite::Unread(why)),
    }
}

//! The site, read from its file.
ghost use Rattle.std.specs.Prelude.{◌≢◌, IfOk, IfErr};
ghost use Rattle.byte_streams.specs.Reading.{WasRead};
ghost use Rattle.site_file.specs.Kept.{SaysNoFile};
ghost use Rattle.site_file.specs.declared.file.NoSiteFile.TheVariants.{NoMemory};
ghost use Rattle.replay_folder.specs.Replays.{ReadsSite, SaysFileSite};

use byte_streams::{Lines, Source};
use site_file::{NoSiteFile, SiteFile, read_site_file};
use std::hash::RandomState;
use std::random::RandomSource;

/// The site that the file says; or why it says none.
pub(crate) fn site_of_file<F: Source + Drop, T: AllocGlobal + RandomSource>(
    rt: &T,
    file: F,
) -> Result<SiteFile, NoSiteFile>
    ensures site { IfOk result (λ site. ReadsSite (WasRead F.answers F.remaining) file (SaysFileSite site)) }
    ensures refused { IfErr result (λ none. none ≢ NoMemory
        → ReadsSite (WasRead F.answers F.remaining) file (λ input ending. SaysNoFile input ending none)) }
{
    let Ok(keys) = RandomState::new(rt) else {
        return Err(NoSiteFile::NoMemory);
    };
    let Ok(mut lines) = Lines::over(rt.alloc(), file) else {
        return Err(NoSiteFile::NoMemory);
    };
    let site = read_site_file(rt.alloc(), keys, &mut lines);
    let _read = lines.into_reader();
    site
}

//! All of it: the site's file, the uploads, the report.
ghost use Rattle.std.specs.Prelude.{◌≡◌, None, ⊤, IfOk, IfErr};
ghost use Rattle.byte_streams.specs.Reading.{WasRead};
ghost use Rattle.byte_streams.specs.Streams.{fed_answers};
ghost use Rattle.byte_streams.specs.declared.source.Fed.{Fed};
ghost use Rattle.byte_streams.specs.Writing.{WritesNothing, writes_of};
ghost use Rattle.warp_server.specs.program.Listen.{unopened_status};
ghost use Rattle.replay_folder.specs.Replays.{ReplaysOn, Replays};
ghost use Rattle.replay_folder.specs.inside.{Reports, no_site_end};

use crate::halves::{replay_uploads, report_replayed};
use crate::machine::{Folders, ProgressLine};
use crate::opens::{OpensUploads, Watches};
use crate::site::site_of_file;
use byte_streams::{Sink, Source};
use page_tree::NoMemory;
use site_file::{FileWrong, NoSiteFile, SiteFile};
use std::fs::File;
use std::io::ErrorKind;
use std::random::RandomSource;
use std::rt::Files;
use std::sync::Wait;
use std::thread::Threads;
use std::time::Clock;
use warp_run::{ReportFault, Status, written_status};
use warp_server::{Replaying, Words};

/// How replaying ended.
#[derive(Clone, Copy, Debug, PartialEq, Eq)]
pub struct ReplayEnd {
    pub status: Status,
    /// What is wrong with the site's file, where that is why.
    pub wrong: Option<FileWrong>,
}

/// Replays uploads and folders of uploads on the site of a file. It is `replay_by` with the files of this machine, of which no contract says what was opened;
/// once a second it says on standard error how far it is, where that is shown. It is for a program that ends behind it: the memory of what it made is left to the
/// system.
pub fn replay<
    W: Sink,
    T: AllocGlobal + Files<File = File> + RandomSource + Clock + Eprint + Threads + Wait + Sync,
>(rt: &T, asked: Replaying, shown: bool, writer: &mut W) -> ReplayEnd
where
    T::Dir: Send,
    ensures { Replays {F = Fed File} (λ _ _. ⊤) (λ _ _. ⊤) (WasRead {R = Fed File} fed_answers (λ _. None)) asked
        (writes_of W.puts W.contents writer.old writer.new) result.status result.wrong }
{
    let mut progress = ProgressLine::new(rt, shown);
    replay_by(rt, &Folders::new(rt), asked, &mut progress, writer)
}

/// Reads the site from its file; takes the uploads that the words name, each to its end behind what its client uploaded before; replays on the site what the logs
/// keep, by the site's workers; puts the site's decisions; and writes the report, with a line for each upload.
///
/// Nothing is written where the site's file says no site. An upload that can't be opened, or that doesn't begin with a hello, is told by its line, and the status is
/// 4 then. Where memory is refused while messages are taken, the rest is left unread, and the report is written; elsewhere nothing is written then.
pub fn replay_by<
    F: Source + Drop + Send,
    O: OpensUploads<File = F> + Sync,
    P: Watches + Send,
    W: Sink,
    T: AllocGlobal + RandomSource + Threads + Wait + Sync,
>(rt: &T, opener: &O, asked: Replaying, watcher: &mut P, writer: &mut W) -> ReplayEnd
    ensures { Replays (O.opened opener.now) (O.listed opener.now) (WasRead F.answers F.remaining) asked
        (writes_of W.puts W.contents writer.old writer.new) result.status result.wrong }
{
    let Replaying { site_file, uploads } = asked;
    let file = match opener.open(site_file.as_str()) {
        Ok(file) => file,
        Err(error) => return ReplayEnd {
            status: status_unopened(error.kind()),
            wrong: None,
        },
    };
    match site_of_file(rt, file) {
        Err(none) => no_site_end(none),
        Ok(site) => ReplayEnd {
            status: replay_on(rt, opener, uploads, watcher, &site, writer),
            wrong: None,
        },
    }
}

// The same on the site.
fn replay_on<
    F: Source + Drop + Send,
    O: OpensUploads<File = F> + Sync,
    P: Watches + Send,
    W: Sink,
    T: AllocGlobal + Threads + Wait + Sync,
>(rt: &T, opener: &O, uploads: Words, watcher: &mut P, site: &SiteFile, writer: &mut W) -> Status
    ensures { ReplaysOn (O.opened opener.now) (O.listed opener.now) (WasRead F.answers F.remaining) site.now uploads
        (writes_of W.puts W.contents writer.old writer.new) result }
{
    match report_uploads(rt, opener, uploads, watcher, site, writer) {
        Err(_) => Status::OutOfMemory,
        Ok(both) => written_status(both.0, both.1),
    }
}

// How it ends once its report is written, and whether that was.
fn report_uploads<
    F: Source + Drop + Send,
    O: OpensUploads<File = F> + Sync,
    P: Watches + Send,
    W: Sink,
    T: AllocGlobal + Threads + Wait + Sync,
>(
    rt: &T,
    opener: &O,
    uploads: Words,
    watcher: &mut P,
    site: &SiteFile,
    writer: &mut W,
) -> Result<(Status, Result<(), ReportFault>), NoMemory>
    ensures reported { IfOk result (Reports (O.opened opener.now) (O.listed opener.now) (WasRead F.answers F.remaining)
        site.now uploads (writes_of W.puts W.contents writer.old writer.new)) }
    ensures nothing { IfErr result (λ _. WritesNothing (writes_of W.puts W.contents writer.old writer.new)) }
{
    let replayed = replay_uploads(rt, opener, uploads, watcher, site)?;
    let report = report_replayed(rt.alloc(), &replayed, writer);
    let status = replayed.status;
    watcher.let_go(replayed);
    Ok((status, report))
}

// How it ends where the file can't be opened.
fn status_unopened(kind: ErrorKind) -> Status
    ensures { result ≡ unopened_status kind }
{
    match kind {
        ErrorKind::OutOfMemory => Status::OutOfMemory,
        _ => Status::InputOutput,
    }
}

fn no_site_end(none: NoSiteFile) -> ReplayEnd
    ensures { result ≡ no_site_end none }
{
    match none {
        NoSiteFile::Wrong(wrong) => ReplayEnd {
            status: Status::BadSite,
            wrong: Some(wrong),
        },
        NoSiteFile::ReadFailed => ReplayEnd {
            status: Status::InputOutput,
            wrong: None,
        },
        NoSiteFile::NoMemory => ReplayEnd {
            status: Status::OutOfMemory,
            wrong: None,
        },
    }
}

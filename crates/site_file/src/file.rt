//! The whole file.
ghost use Rattle.std.specs.Prelude.{◌≡◌, nat_lt, length, IfOk, IfErr};
ghost use Rattle.byte_streams.specs.Cutting.{ending_of};
ghost use Rattle.byte_streams.specs.Reading.{input, uncut_bytes, ReadsWhile};
ghost use Rattle.site_file.specs.Addition.{addition_in};
ghost use Rattle.site_file.specs.SiteFile.{FileSite, IsSiteFile, FileIsUndecided};
ghost use Rattle.site_file.specs.Kept.{file_site, file_own, AnswersAsFile, IsUnread, SaysNoFile};
ghost use Rattle.site_file.specs.inside.{AddsWhatIsSaid, HasTaken, TakesFileLine, TakesRest, no_file_line, nothing_added, kept_at_end};

use crate::adding::add_line;
use crate::first_line::read_first;
use crate::growing::Growing;
use crate::json_lines::JsonLines;
use crate::wrong::{FileWrong, FileWrongKind, NoAddition};
use byte_streams::{LineFault, Lines, Source};
use own_pages::OwnPages;
use site_line::Site;
use std::alloc::Global;
use std::hash::RandomState;

/// The longest line of a site file, in bytes, without its line end.
const MAX_FILE_LINE: usize = 1_048_576;

/// A site of a file: what a site line says, for all its lines together, and the pages of single visits.
#[derive(Drop)]
pub struct SiteFile {
    pub(crate) site: Site,
    pub(crate) own: OwnPages,
}

impl SiteFile {
    /// The site without the pages of single visits.
    pub fn site(&self) -> &Site
        ensures { result.now ≡ file_site self.now }
    {
        &self.site
    }

    /// The pages of single visits.
    pub fn own_pages(&self) -> &OwnPages
        ensures { result.now ≡ file_own self.now }
    {
        &self.own
    }
}

/// Why a file is no site.
#[derive(Clone, Copy, Debug, PartialEq, Eq)]
pub enum NoSiteFile {
    /// This is its first faulty line.
    Wrong(FileWrong),
    /// A read failed.
    ReadFailed,
    /// An allocation was refused.
    NoMemory,
}

/// The site that the lines of a source say, to its end: a site line, and lines that add to it; or the first that is wrong. It hashes texts by these keys.
pub fn read_site_file<R: Source>(
    alloc: Global,
    keys: RandomState,
    lines: &mut Lines<R>,
) -> Result<SiteFile, NoSiteFile>
    requires fresh { IsUnread lines.old }
    ensures reads { ReadsWhile FileIsUndecided lines.old lines.new }
    ensures site { IfOk result (λ site. (file : FileSite)
        × IsSiteFile (input lines.new) (ending_of lines.new.answers) file × AnswersAsFile site file) }
    ensures refused { IfErr result (SaysNoFile (input lines.new) (ending_of lines.new.answers)) }
{
    let growing = begin_file(alloc, keys, lines)?;
    let all = add_rest(alloc, lines, growing)?;
    Ok(all.finish())
}

// With what the first line says.
fn begin_file<R: Source>(
    alloc: Global,
    keys: RandomState,
    lines: &mut Lines<R>,
) -> Result<Growing, NoSiteFile>
    requires fresh { IsUnread lines.old }
    ensures reads { ReadsWhile FileIsUndecided lines.old lines.new }
    ensures taken { IfOk result (HasTaken lines.new 1) }
    ensures refused { IfErr result (SaysNoFile (input lines.new) (ending_of lines.new.answers)) }
{
    match lines.advance(MAX_FILE_LINE) {
        Err(fault) => Err(no_line(1, fault)),
        Ok(()) => match read_first(alloc, keys, lines.line()) {
            Err(none) => Err(nothing_added(1, none)),
            Ok(first) => Ok(Growing::begin(alloc, first)),
        },
    }
}

// With what all further lines add, to the end.
fn add_rest<R: Source>(
    alloc: Global,
    lines: &mut Lines<R>,
    growing: Growing,
) -> Result<Growing, NoSiteFile>
    requires taken { HasTaken lines.old 1 growing }
    ensures { TakesRest lines.old lines.new result }
{
    let mut json = JsonLines::new();
    let mut growing = growing;
    let mut taken = 1;
    loop {
        match lines.advance(MAX_FILE_LINE) {
            Err(fault) => return kept_at_end(taken + 1, fault, lines.has_rest(), growing),
            Ok(()) => {
                taken += 1;
                add_one(alloc, &mut json, taken, lines.line(), &mut growing)?;
            }
        }
    }
}

// With what the line of that number adds.
fn add_one(
    alloc: Global,
    json: &mut JsonLines,
    number: u64,
    line: &[u8],
    growing: &mut Growing,
) -> Result<(), NoSiteFile>
    ensures { TakesFileLine number line.now growing.old growing.new result }
{
    match add_text(alloc, json, line, growing) {
        Ok(()) => Ok(()),
        Err(none) => Err(nothing_added(number, none)),
    }
}

fn add_text(
    alloc: Global,
    json: &mut JsonLines,
    line: &[u8],
    growing: &mut Growing,
) -> Result<(), NoAddition>
    ensures { AddsWhatIsSaid (addition_in line.now) growing.old growing.new result }
{
    let document = json.read(alloc, line)?;
    add_line(alloc, &document.root(), growing)
}

// All that is kept, where the file ends behind a line; else there is no line of that number.
fn kept_at_end(
    number: u64,
    fault: LineFault,
    has_rest: bool,
    growing: Growing,
) -> Result<Growing, NoSiteFile>
    ensures { result ≡ kept_at_end number fault has_rest growing }
{
    match (fault, has_rest) {
        (LineFault::Truncated, false) => Ok(growing),
        _ => Err(no_line(number, fault)),
    }
}

fn no_line(line: u64, fault: LineFault) -> NoSiteFile
    ensures { result ≡ no_file_line line fault }
{
    match fault {
        LineFault::NoMemory => NoSiteFile::NoMemory,
        LineFault::ReadFailed => NoSiteFile::ReadFailed,
        _ => {
            let kind = FileWrongKind::NoLine(fault);
            NoSiteFile::Wrong(FileWrong { line, kind })
        }
    }
}

fn nothing_added(line: u64, none: NoAddition) -> NoSiteFile
    ensures { result ≡ nothing_added line none }
{
    match none {
        NoAddition::Wrong(why) => {
            let kind = FileWrongKind::Says(why);
            NoSiteFile::Wrong(FileWrong { line, kind })
        }
        NoAddition::NoMemory => NoSiteFile::NoMemory,
    }
}

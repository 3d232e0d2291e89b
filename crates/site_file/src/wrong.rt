//! What is wrong with a site file.
ghost use Rattle.std.specs.Prelude.{◌≡◌, Some};
ghost use Rattle.site_file.specs.Sentence as plain;
ghost use Rattle.site_file.specs.Sentence.{line_member_word, member_wrong_words, line_wrong_words, wrong_kind_words, file_wrong_words};
ghost use Rattle.site_file.specs.declared.wrong.NoAddition.TheVariants.{NoMemory};

use byte_streams::LineFault;
use page_tree::PageFault;
use site_line::SiteMember;
use std::alloc::{AllocError, AllocFailed};
use std::fmt;
use xpath_child::PathFaultKind;

/// The member of a line behind the first that is meant. Its text is its name.
#[derive(Clone, Copy, Debug, PartialEq, Eq)]
pub enum LineMember {
    Path,
    Client,
    Visit,
    Page,
    Patched,
    Watch,
    Decide,
}

/// Why a member is refused. Its text is the fault's code, and what that means.
#[derive(Clone, Copy, Debug, PartialEq, Eq)]
pub enum MemberWrong {
    /// Z2: it is missing, or of another form, or out of its range.
    Form,
    /// U1: no client can have the name.
    BadClient,
    /// P1 to P6: it is no page.
    BadPage(PageFault),
    /// X1 to X5: it is no path.
    BadPath(PathFaultKind),
}

/// What is wrong with what a line says. Its text is the member, the fault's code, and what that means.
#[derive(Clone, Copy, Debug, PartialEq, Eq)]
pub enum LineWrong {
    /// Z1: it is no JSON value.
    NotJson,
    /// Z2: it is none of the lines that a site file has there.
    NotOne,
    /// Z2: it is the first line, and this member of it is of another form, or has something in it that is refused.
    First(SiteMember),
    /// It is another line, and this member of it is refused.
    In { which: LineMember, why: MemberWrong },
}

/// The first line of a site file that is wrong, counted from 1, and why.
#[derive(Clone, Copy, Debug, PartialEq, Eq)]
pub struct FileWrong {
    pub line: u64,
    pub kind: FileWrongKind,
}

/// Why a line of a site file is wrong.
#[derive(Clone, Copy, Debug, PartialEq, Eq)]
pub enum FileWrongKind {
    /// E2 to E4: there is no such line.
    NoLine(LineFault),
    /// By what it says.
    Says(LineWrong),
}

/// Why a line adds nothing.
#[derive(Clone, Copy, Debug, PartialEq, Eq)]
pub(crate) enum NoAddition {
    Wrong(LineWrong),
    /// An allocation was refused.
    NoMemory,
}

impl From<AllocError> for NoAddition {
    ghost from_gives = { λ _ e. e ≡ NoMemory };

    fn from(_e: AllocError) -> NoAddition {
        NoAddition::NoMemory
    }
}

impl<T: Drop> From<AllocFailed<T>> for NoAddition {
    ghost from_gives = { λ _ e. e ≡ NoMemory };

    fn from(_e: AllocFailed<T>) -> NoAddition {
        NoAddition::NoMemory
    }
}

// ---- as texts

impl fmt::Display for LineMember {
    ghost output = { λ which. Some (line_member_word which) };

    fn fmt<W: fmt::Write>(&self, f: &mut fmt::Formatter<W>) -> fmt::Result {
        f.write_str(match self {
            LineMember::Path => "path",
            LineMember::Client => "client",
            LineMember::Visit => "visit",
            LineMember::Page => "page",
            LineMember::Patched => "patched",
            LineMember::Watch => "watch",
            LineMember::Decide => "decide",
        })
    }
}

impl fmt::Display for MemberWrong {
    ghost output = { λ why. Some (member_wrong_words why) };

    fn fmt<W: fmt::Write>(&self, f: &mut fmt::Formatter<W>) -> fmt::Result {
        match self {
            MemberWrong::Form => f.write_str("Z2 missing or of another form"),
            MemberWrong::BadClient => f.write_str("U1 no name of a client"),
            MemberWrong::BadPage(fault) => {
                let meaning = page_fault_words(*fault);
                write!(f, "{fault}{meaning}")
            }
            MemberWrong::BadPath(kind) => {
                let meaning = path_fault_words(*kind);
                write!(f, "{kind}{meaning}")
            }
        }
    }
}

impl fmt::Display for LineWrong {
    ghost output = { λ why. Some (line_wrong_words why) };

    fn fmt<W: fmt::Write>(&self, f: &mut fmt::Formatter<W>) -> fmt::Result {
        match self {
            LineWrong::NotJson => f.write_str("Z1 no JSON"),
            LineWrong::NotOne => f.write_str("Z2 none of a site file's lines"),
            LineWrong::First(which) => write!(f, "{which}: Z2 of another form"),
            LineWrong::In { which, why } => write!(f, "{which}: {why}"),
        }
    }
}

impl fmt::Display for FileWrongKind {
    ghost output = { λ kind. Some (wrong_kind_words kind) };

    fn fmt<W: fmt::Write>(&self, f: &mut fmt::Formatter<W>) -> fmt::Result {
        match self {
            FileWrongKind::NoLine(fault) => {
                let meaning = line_fault_words(*fault);
                write!(f, "{fault}{meaning}")
            }
            FileWrongKind::Says(wrong) => write!(f, "{wrong}"),
        }
    }
}

impl fmt::Display for FileWrong {
    ghost output = { λ wrong. Some (file_wrong_words wrong) };

    fn fmt<W: fmt::Write>(&self, f: &mut fmt::Formatter<W>) -> fmt::Result {
        let line = self.line;
        let kind = self.kind;
        write!(f, "{line}: {kind}")
    }
}

// ---- what a code means

fn line_fault_words(fault: LineFault) -> &'static str
    ensures { result.now ≡ plain.line_fault_words fault }
{
    match fault {
        LineFault::TooManyReads => " too many reads",
        LineFault::Truncated => " no line end",
        LineFault::LineTooLong => " longer than 1048576 bytes",
        LineFault::ReadFailed => " a read failed",
        LineFault::NoMemory => "",
    }
}

fn page_fault_words(fault: PageFault) -> &'static str
    ensures { result.now ≡ plain.page_fault_words fault }
{
    match fault {
        PageFault::NotAnElement => " no element",
        PageFault::BadName => " no name of an element",
        PageFault::BadAttribute => " attributes of another form",
        PageFault::BadChildren => " children of another form",
        PageFault::TooDeep => " more than 48 levels",
        PageFault::TooMany => " more than 4096 nodes",
        PageFault::NoMemory => "",
    }
}

fn path_fault_words(kind: PathFaultKind) -> &'static str
    ensures { result.now ≡ plain.path_fault_words kind }
{
    match kind {
        PathFaultKind::NotAbsolute => " no / in front",
        PathFaultKind::EmptyStep => " an empty step",
        PathFaultKind::BadName => " no name of an element",
        PathFaultKind::BadIndex => " no index",
        PathFaultKind::TooManySteps => " more than 48 steps",
        PathFaultKind::NoMemory => "",
    }
}

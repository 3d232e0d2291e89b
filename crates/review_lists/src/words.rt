//! The words of lists.
ghost use Rattle.std.specs.Prelude.{◌≡◌, ◌++◌, codes, decimal, IfOk, string_bytes};
ghost use Rattle.warp_run.specs.Report.{end_word, standing_word};
ghost use Rattle.replay_folder.specs.FolderReport.{hello_word};
ghost use Rattle.review_lists.specs.Words.{conflict_in, conflict_text, outcome_text, upload_words, counted_words};

use conflict_desk::Standing;
use page_tree::NoMemory;
use replay_folder::UploadEnd;
use std::alloc::Global;
use upload_reader::{Ending, HelloFault, LaneEnd};
use visit_replay::{ConflictKind, Outcome, conflict_code};

/// At which event a visit stopped, and why.
pub(crate) fn conflict_in(outcome: &Outcome) -> Option<(u64, ConflictKind)>
    ensures { result ≡ conflict_in outcome.now }
{
    match outcome {
        Outcome::Untouched => None,
        Outcome::Done { .. } => None,
        Outcome::Conflict { at, kind, .. } => Some((*at, *kind)),
    }
}

/// As `K5 at event 2`; nothing of an outcome that is none.
pub(crate) fn outcome_text(alloc: Global, outcome: &Outcome) -> Result<String, NoMemory>
    ensures { IfOk result (λ text. string_bytes text ≡ outcome_text outcome.now) }
{
    match conflict_in(outcome) {
        None => Ok(String::new(alloc)),
        Some((at, kind)) => conflict_text(alloc, at, kind),
    }
}

fn conflict_text(alloc: Global, at: u64, kind: ConflictKind) -> Result<String, NoMemory>
    ensures { IfOk result (λ text. string_bytes text ≡ conflict_text (at, kind)) }
{
    let code = conflict_code(kind);
    format!(in alloc; "{code} at event {at}")
}

pub(crate) fn standing_word(standing: Standing) -> &'static str
    ensures { result.now ≡ standing_word standing }
{
    match standing {
        Standing::Untouched => "untouched",
        Standing::Done => "done",
        Standing::Waiting => "waiting",
        Standing::Kept => "kept",
        Standing::Cancelled => "cancelled",
    }
}

/// How an upload ended, as the report says it.
pub(crate) fn end_word(alloc: Global, end: Option<Ending>) -> Result<String, NoMemory>
    ensures { IfOk result (λ text. string_bytes text ≡ end_word end) }
{
    match end {
        None => String::from_str(alloc, "none"),
        Some(Ending::GaveUp) => String::from_str(alloc, "gaveup"),
        Some(Ending::Over(LaneEnd::Bye)) => String::from_str(alloc, "bye"),
        Some(Ending::Over(LaneEnd::Fault { line, kind })) => format!(in alloc; "{kind}@{line}"),
    }
}

/// What became of an upload, in the words of the report behind its name.
pub(crate) fn upload_words(alloc: Global, end: &UploadEnd) -> Result<String, NoMemory>
    ensures { IfOk result (λ text. string_bytes text ≡ upload_words end.now) }
{
    match end {
        UploadEnd::Unopened => String::from_str(alloc, "U5"),
        UploadEnd::NoHello(fault) => hello_word(alloc, *fault),
        UploadEnd::Taken { client, taken, end } => {
            let end = end_word(alloc, *end)?;
            taken_words(alloc, client.text(), *taken, end.as_str())
        }
        UploadEnd::Unread => String::from_str(alloc, "none"),
    }
}

fn taken_words<'t>(
    alloc: Global,
    client: &'t str,
    taken: u64,
    end: &'t str,
) -> Result<String, NoMemory>
    ensures { IfOk result (λ text. string_bytes text ≡ codes "client " ++ (client.now
        ++ (codes " taken " ++ (decimal taken ++ (codes " end " ++ end.now))))) }
{
    format!(in alloc; "client {client} taken {taken} end {end}")
}

// Why an upload doesn't begin.
fn hello_word(alloc: Global, fault: HelloFault) -> Result<String, NoMemory>
    ensures { IfOk result (λ text. string_bytes text ≡ hello_word fault) }
{
    match fault {
        HelloFault::Line { line, fault } => format!(in alloc; "U3.{fault}@{line}"),
        HelloFault::BadClient => String::from_str(alloc, "U1"),
        HelloFault::NoHello => String::from_str(alloc, "U2"),
        HelloFault::NoMemory => String::from_str(alloc, "U4"),
    }
}

/// A sentence for one, or what stands behind the number of several.
pub(crate) fn counted_words(
    alloc: Global,
    count: usize,
    one: &str,
    several: &str,
) -> Result<String, NoMemory>
    ensures { IfOk result (λ text. string_bytes text ≡ counted_words count one.now several.now) }
{
    if count == 1 {
        String::from_str(alloc, one)
    } else {
        format!(in alloc; "{count}{several}")
    }
}

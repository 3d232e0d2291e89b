//! Numbers, and how visits stand, in words.
ghost use Rattle.std.specs.Prelude.{◌≡◌, string_bytes, decimal, IfOk};
ghost use Rattle.visit_view.specs.Words.{counted_visits, state_word};

use conflict_desk::Standing;
use page_tree::NoMemory;
use std::alloc::Global;

/// A number in decimal.
pub(crate) fn number(alloc: Global, number: u64) -> Result<String, NoMemory>
    ensures { IfOk result (λ text. string_bytes text ≡ decimal number) }
{
    format!(in alloc; "{number}")
}

/// So many visits.
pub(crate) fn counted_visits(alloc: Global, count: usize) -> Result<String, NoMemory>
    ensures { IfOk result (λ text. string_bytes text ≡ counted_visits count) }
{
    if count == 1 {
        return String::from_str(alloc, "1 visit");
    }
    format!(in alloc; "{count} visits")
}

/// How a visit stands, as the report has it.
pub(crate) fn state_word(standing: Standing) -> &'static str
    ensures { result.now ≡ state_word standing }
{
    match standing {
        Standing::Untouched => "untouched",
        Standing::Done => "done",
        Standing::Waiting => "waiting",
        Standing::Kept => "kept",
        Standing::Cancelled => "cancelled",
    }
}

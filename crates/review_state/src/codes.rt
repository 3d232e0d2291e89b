//! Visits are found by the code of their conflict.
ghost use Rattle.std.specs.Prelude.{◌≡◌, map, IfOk};
ghost use Rattle.review_state.specs.Finding.{has_code};

use conflict_desk::{Case, OpenDocket};
use page_tree::NoMemory;
use std::alloc::Global;
use visit_replay::{Outcome, conflict_code};

/// Marks the visits of a client that are conflicts of that code, whatever was decided of them.
pub fn coded(alloc: Global, docket: &OpenDocket, code: &str) -> Result<Vec<bool>, NoMemory>
    ensures { IfOk result (λ marks. marks.items ≡ map (λ case. has_code code.now case.outcome) docket.now.cases) }
{
    let mut marks = Vec::with_capacity(alloc, docket.cases().len())?;
    for case in docket.cases() {
        marks.push(has_code(case, code))?;
    }
    Ok(marks)
}

fn has_code(case: &Case, code: &str) -> bool
    ensures { result ≡ has_code code.now case.now.outcome }
{
    match &case.outcome {
        Outcome::Conflict { kind, .. } => conflict_code(*kind) == code,
        _ => false,
    }
}

//! How many visits of a client stand so or so.
ghost use Rattle.std.specs.Prelude.{◌≡◌, ◌+◌, ◌-◌, ◌<◌, ◌^◌, if◌then◌else◌};
ghost use Rattle.conflict_desk.specs.declared.decided.Standing.{Standing as OneStanding};
ghost use Rattle.review_state.specs.Counts.{count_in, same_standing, how_many};

use conflict_desk::{OpenDocket, Standing};

/// How many visits stand so.
#[derive(Clone, Copy, Debug, PartialEq, Eq)]
pub struct VisitCounts {
    pub waiting: usize,
    pub kept: usize,
    pub cancelled: usize,
    pub done: usize,
    pub untouched: usize,
}

/// How many visits of a client's docket stand so. It asks for each how it stands.
pub fn counts_of(docket: &OpenDocket) -> VisitCounts
    ensures { (standing : OneStanding) → count_in result standing ≡ how_many docket.now standing }
{
    let mut counts = VisitCounts {
        waiting: 0,
        kept: 0,
        cancelled: 0,
        done: 0,
        untouched: 0,
    };
    for place in 0..docket.cases().len() {
        counts = one_more(counts, docket.standing_at(place));
    }
    counts
}

// With one more visit that stands so.
fn one_more(counts: VisitCounts, standing: Standing) -> VisitCounts
    requires { (other : OneStanding) → count_in counts other < 2 ^ 64 - 1 }
    ensures { (other : OneStanding) → count_in result other
        ≡ count_in counts other + (if same_standing standing other then 1 else 0) }
{
    let mut more = counts;
    match standing {
        Standing::Waiting => more.waiting += 1,
        Standing::Kept => more.kept += 1,
        Standing::Cancelled => more.cancelled += 1,
        Standing::Done => more.done += 1,
        Standing::Untouched => more.untouched += 1,
    }
    more
}

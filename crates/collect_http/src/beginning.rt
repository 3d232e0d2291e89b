//! A body of a client that has no file.
ghost use Rattle.std.specs.Prelude.{◌≡◌, ◌≢◌, [], MatchOption, IfOk};
ghost use Rattle.collect_http.specs.Beginning.{IsTakenWithoutFile};

use page_tree::NoMemory;
use std::alloc::Global;
use std::hash::RandomState;
use upload_reader::Client;
use upload_store::{Store, VisitSet};

/// The store that has taken it, and the visits that it names. None where a line of it is to be stored.
pub(crate) fn begin(
    alloc: Global,
    client: &Client,
    keys: RandomState,
    body: &[u8],
) -> Result<Option<(Store, VisitSet)>, NoMemory>
    ensures { IfOk result (λ begun. IsTakenWithoutFile client.now body.now begun) }
{
    let mut store = Store::new(alloc, client.copy()?, keys);
    let visits = store.asked(alloc, body)?;
    let mut lines = Vec::new(alloc);
    store.take_body(alloc, body, &mut lines)?;
    Ok(unless_written(store, visits, &lines))
}

fn unless_written(store: Store, visits: VisitSet, lines: &[u8]) -> Option<(Store, VisitSet)>
    ensures { MatchOption result (lines.now ≢ [])
        (λ begun. (lines.now ≡ []) × (begun.0 ≡ store) × (begun.1 ≡ visits)) }
{
    if lines.is_empty() {
        Some((store, visits))
    } else {
        None
    }
}

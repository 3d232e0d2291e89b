//! The visits that a query asks for.
ghost use Rattle.std.specs.Prelude.{◌≡◌, [], bytes_eq, IfOk, OnOk};
ghost use Rattle.std.specs.Option.{option_copied, option_map_or};
ghost use Rattle.indexmap.specs.IndexSet.{insert_key, insert_all};
ghost use Rattle.collect_http.specs.Asking.{visit_in_part, visits_of_query};

use crate::fields::behind_front;
use page_tree::NoMemory;
use std::alloc::{AllocError, Global};
use std::hash::RandomState;
use upload_reader::{Client, HelloFault};
use upload_store::VisitSet;

/// The visits in a query as `v=5f0e&v=77aa`, each once.
pub(crate) fn visits_queried(
    alloc: Global,
    keys: RandomState,
    query: Option<&str>,
) -> Result<VisitSet, NoMemory>
    ensures { IfOk result (λ visits. visits.keys
        ≡ insert_all bytes_eq [] (option_map_or visits_of_query (option_copied query.entry) [])) }
{
    match query {
        Some(query) => visits_of_query(alloc, keys, query),
        None => Ok(VisitSet::with_hasher(alloc, keys)),
    }
}

fn visits_of_query(alloc: Global, keys: RandomState, query: &str) -> Result<VisitSet, NoMemory>
    ensures { IfOk result (λ visits. visits.keys ≡ insert_all bytes_eq [] (visits_of_query query.now)) }
{
    let mut visits = VisitSet::with_hasher(alloc, keys);
    for part in query.split('&') {
        add_visit(alloc, part, &mut visits)?;
    }
    Ok(visits)
}

// The visit in a part of a query, if there is one.
fn add_visit(alloc: Global, part: &str, visits: &mut VisitSet) -> Result<(), NoMemory>
    ensures { OnOk result (visits.new.keys
        ≡ option_map_or (insert_key bytes_eq visits.old.keys) (visit_in_part part.now) visits.old.keys) }
{
    match behind_front("v=", part) {
        Some(name) => match Client::read(alloc, name) {
            Ok(visit) => match visits.insert(visit) {
                Ok(_) => Ok(()),
                Err(_) => Err(AllocError),
            },
            Err(HelloFault::NoMemory) => Err(AllocError),
            Err(_) => Ok(()),
        },
        None => Ok(()),
    }
}

//! What telling requests takes room for.
use page_tree::NoMemory;
use std::alloc::Global;
use visit_replay::{FormerTelling, RequestTelling};

/// It is asked for before the first write.
#[derive(Drop)]
pub struct ReportRoom<'r> {
    pub(super) requests: RequestTelling<'r>,
    pub(super) former: FormerTelling<'r>,
}

impl<'r> ReportRoom<'r> {
    /// For requests on any page.
    pub fn new(alloc: Global) -> Result<ReportRoom<'r>, NoMemory> {
        Ok(ReportRoom {
            requests: RequestTelling::new(alloc)?,
            former: FormerTelling::new(alloc)?,
        })
    }
}

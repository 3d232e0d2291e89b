//! The overview.
ghost use Rattle.std.specs.Prelude.{◌≡◌, ◌++◌, OnOk};
ghost use Rattle.review_lists.specs.Overview.{overview};

use crate::attention::add_attention;
use crate::client_table::{add_client_pages, add_client_rows};
use crate::front_list::add_front_list;
use crate::upload_list::add_upload_list;
use byte_streams::Source;
use lanes_in_turn::Gathered;
use page_tree::NoMemory;
use replay_folder::ToldUploads;
use review_pieces::pieces;
use std::alloc::Global;
use warp_run::Repaired;

/// Adds what wants attention, the fronts from that one on, the table of clients from that one on, and the uploads.
#[tactic(auto, unfolding(crate::specs::Overview::overview))]
pub fn add_overview<R: Source>(
    alloc: Global,
    out: &mut Vec<u8>,
    told: &ToldUploads,
    logs: &Gathered<R>,
    repaired: &Repaired,
    is_closed: bool,
    from: u64,
    clients: u64,
) -> Result<(), NoMemory>
    ensures { OnOk result (out.new.items ≡ out.old.items
        ++ overview told.now logs.now repaired.now is_closed from clients) }
{
    let from = from as usize;
    let shown = clients as usize;
    let all = repaired.clients.as_slice();
    let mut notes = Vec::new(alloc);
    add_attention(alloc, &mut notes, told, repaired, is_closed)?;
    let mut fronts = Vec::new(alloc);
    add_front_list(alloc, &mut fronts, logs, &repaired.desk, all, from, shown)?;
    let mut rows = Vec::new(alloc);
    add_client_rows(alloc, &mut rows, &repaired.desk, shown, all)?;
    let mut pages = Vec::new(alloc);
    add_client_pages(alloc, &mut pages, from, shown, all.len())?;
    let mut uploads = Vec::new(alloc);
    add_upload_list(alloc, &mut uploads, told)?;
    pieces::add_overview(
        out,
        notes.as_slice(),
        fronts.as_slice(),
        rows.as_slice(),
        pages.as_slice(),
        uploads.as_slice(),
    )
}

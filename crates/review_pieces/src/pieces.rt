//! The pieces of `review/pieces/`, each with its slots filled. `tools/pieces` writes this file and those in its folder.

mod client;
mod drawn;
mod events;
mod frame;
mod overview;
mod requests;
mod search;
mod texts;
mod visit;

pub use client::{
    add_branch, add_client, add_client_counts, add_client_upload, add_level, add_next,
};
pub use drawn::{add_drawn, add_figure, add_no_page, add_visit_pages};
pub use events::{
    add_event, add_event_here, add_event_line, add_pressed, add_value, add_visit_events,
};
pub use frame::{
    add_closed, add_foot, add_head, add_more, add_note, add_page_here, add_page_link, add_pages,
    add_refused,
};
pub use overview::{
    add_front, add_fronts, add_no_fronts, add_overview, add_row, add_upload, add_uploads,
};
pub use requests::{add_pairs, add_request, add_requests, add_requests_none, add_visit_requests};
pub use search::{add_found, add_found_client, add_found_clients, add_search};
pub use texts::{
    add_part_gone, add_part_new, add_part_same, add_text, add_text_empty, add_texts, add_typed,
};
pub use visit::{
    add_along, add_along_more, add_along_none, add_along_one, add_around, add_conflict, add_decide,
    add_not_front, add_opener, add_visit,
};

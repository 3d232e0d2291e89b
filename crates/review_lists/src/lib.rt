//! Views of lists of the administrator's page: what waits and what wants attention, a client with the tree of its visits, and what is found.
//!
//! Each is added as the pieces of `review/pieces/`, between the head and the foot that all pages have. A view reads what was repaired and what the clients'
//! logs keep, and keeps nothing.
#![tactic(auto)]

// What stands in lists.
mod addresses;
mod attention;
mod client_table;
mod found_page;
mod front_list;
mod page_links;
mod search_rows;
mod sought;
mod standings;
mod tree_rows;
mod upload_list;
mod words;

// The views.
mod client_view;
mod overview;
mod search_view;

pub use client_view::add_client;
pub use overview::add_overview;
pub use search_view::add_search;
pub use standings::{Totals, totals_of};

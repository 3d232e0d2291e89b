//! The site file: a site line, and behind it any number of lines that add to it: pages at addresses, pages of single visits, addresses that were
//! patched, paths that are watched, decisions.
//!
//! A file is read as a site exactly where it is one, and what is kept answers as that site does (`read_site_file`); else its first faulty line is told.
#![tactic(auto)]

// One line: its members, and what it adds.
mod adding;
mod json_lines;
mod members;
mod wrong;

// The first line, and the whole file.
mod file;
mod first_line;
mod growing;

pub use file::{NoSiteFile, SiteFile, read_site_file};
pub use wrong::{FileWrong, FileWrongKind, LineMember, LineWrong, MemberWrong};

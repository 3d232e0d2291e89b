//! The service of the administrator's page: what each request is answered, and what becomes of the site's file and of what is shown.
//!
//! Of each request `review_requests` says what it is. A decision is kept in the file before it is answered, and whatever is answered, what is shown is what the
//! file says (`AnswersReview` in `specs/Answering.antt`).
#![tactic(auto)]

mod deciding;
mod fields;
mod pages;
mod refusals;
mod reporting;
mod review;
mod showing;
mod texts;

pub use review::Review;

//! Several uploads, and the program's words.
mod answering;
mod call;
mod callers;
mod connections;
mod greeting;
mod listening;
mod opens;
mod rounds;
mod serving;
mod words;

pub use answering::{AnswerFault, Answered, answer};
pub use call::{Call, CallFault, Listening, MAX_ROUNDS, Replaying, accept_call};
pub use callers::Callers;
pub use listening::{listen, listen_by};
pub use opens::Opens;
pub use serving::{serve, serve_callers};
pub use words::Words;

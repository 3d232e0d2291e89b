//! New names for clients.
ghost use Rattle.std.specs.Prelude.{◌≡◌, true, IfOk};
ghost use Rattle.collect_http.specs.Asking.{is_given};

use crate::cookie::{is_given, read_name};
use page_tree::NoMemory;
use std::alloc::{AllocError, Global};
use std::hash::{BuildHasher, RandomState};
use upload_reader::Client;

/// Gives names of 128 bits that nobody can tell before. The keys are secret.
#[derive(Drop)]
pub struct Names {
    first: RandomState,
    second: RandomState,
    given: u64,
}

impl Names {
    pub fn new(first: RandomState, second: RandomState) -> Names {
        Names {
            first,
            second,
            given: 0,
        }
    }

    /// The next name.
    pub(crate) fn next(&mut self, alloc: Global) -> Result<Client, NoMemory>
        ensures { IfOk result (λ client. is_given client ≡ true) }
    {
        let first = self.first.hash_one(self.given);
        let second = self.second.hash_one(self.given);
        self.given = self.given.wrapping_add(1);
        let name = format!(in alloc; "{first:016x}{second:016x}")?;
        given_name(alloc, name.as_str())
    }
}

// The name as a client's, if it is one as the server gives them.
fn given_name(alloc: Global, name: &str) -> Result<Client, NoMemory>
    ensures { IfOk result (λ client. is_given client ≡ true) }
{
    if !is_given(name) {
        return Err(AllocError);
    }
    read_name(alloc, name)
}

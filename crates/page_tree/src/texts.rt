ghost use Rattle.std.specs.Prelude.{◌≡◌, ◌<◌, ◌≤◌, [], ◌∷◌, ◌++◌, IfOk, OnOk, OnErr, IsTrue, get_or, length};
ghost use Rattle.page_tree.specs.inside.Cuts.{start_in};

use crate::memory::NoMemory;
use crate::table::few;
use std::alloc::Global;
use std::marker::Model;

/// Many texts, kept in one. Contracts see them as a list.
#[derive(Debug, Drop)]
pub(crate) struct Texts {
    joined: String,
    // where each ends in it; the next one begins there
    ends: Vec<u32>,
}

impl Model for Texts {
    ghost use Rattle.std.specs.Prelude.{ℕ, List, string_bytes};
    ghost use Rattle.page_tree.specs.inside.Cuts.{texts_cut, AreCuts};

    ghost Value = { List (List ℕ) };

    ghost view = { λ t. texts_cut 0 (string_bytes t.joined) t.ends.items };

    ghost invariant = { λ t. AreCuts 0 (string_bytes t.joined) t.ends.items };
}

impl Texts {
    /// It takes no memory.
    pub(crate) fn new(alloc: Global) -> Texts
        ensures { result ≡ [] }
    {
        Texts {
            joined: String::new(alloc),
            ends: Vec::new(alloc),
        }
    }

    #[tactic(auto, using(crate::proofs::Cutting::cut_count))]
    pub(crate) fn len(&self) -> usize
        ensures { result ≡ length self.now }
    {
        self.ends.as_slice().len()
    }

    pub(crate) fn get(&self, number: usize) -> &str
        requires { number < length self.now }
        ensures { result.now ≡ get_or self.now number [] }
    {
        let start = start_in(self.ends.as_slice(), number);
        let end = self.ends[number];
        &self.joined[start as usize..end as usize]
    }

    /// Whether the two are the same texts, cut at the same places.
    pub(crate) fn same(&self, other: &Texts) -> bool
        ensures { IsTrue result → self.now ≡ other.now }
    {
        self.joined.as_str() == other.joined.as_str()
            && self.ends.as_slice() == other.ends.as_slice()
    }

    /// Equal texts that have no unused room.
    pub(crate) fn fitted(&self) -> Result<Texts, NoMemory>
        ensures { IfOk result (λ texts. texts ≡ self.now) }
    {
        Ok(Texts {
            joined: self.joined.clone()?,
            ends: self.ends.clone()?,
        })
    }

    pub(crate) fn push(&mut self, text: &str) -> Result<(), NoMemory>
        ensures ok { OnOk result (self.new ≡ self.old ++ text.now ∷ []) }
        ensures err { OnErr result (self.new ≡ self.old) }
    {
        let end = few(self.joined.as_str().len() + text.len())?;
        self.ends.reserve(1)?;
        self.joined.push_str(text)?;
        self.ends.push(end).unwrap();
        Ok(())
    }
}

// Where the text of that number begins, by where each ends.
fn start_in(ends: &[u32], number: usize) -> u32
    requires { number ≤ length ends.now }
    ensures { result ≡ start_in 0 ends.now number }
{
    if number == 0 { 0 } else { ends[number - 1] }
}

//! What is told of a visit's requests, where its replay asks for something else.
ghost use Rattle.std.specs.Prelude.{◌≡◌, [], ◌∷◌, ◌++◌, None, Some, IfOk, OnOk, OnErr, option_map};

use crate::former::Former;
use crate::single::Single;
use page_tree::NoMemory;
use std::alloc::Global;
use std::marker::Model;
use std::mem::size_of;

/// What a visit asked for, where its replay asks for something else.
#[derive(Debug, Drop)]
pub enum Contrast {
    /// Of a visit that is done: of each of its requests what it was, where that differs.
    Done {
        was: Former,
    },
    /// Of one that stops since an element has changed (K11): what its event asked for, and what it asks for now.
    Changed {
        was: Option<Single>,
        now: Option<Single>,
    },
}

const _: () = prove!(size_of::<Contrast>() <= 48);

/// What is told of a visit, if anything is. Of most visits nothing is, and that takes 16 bytes. Contracts see an option.
#[derive(Debug, Drop)]
pub struct Difference {
    contrast: Option<Box<Contrast>>,
}

const _: () = prove!(size_of::<Difference>() <= 16);

impl Model for Difference {
    ghost use Rattle.std.specs.Prelude.{Option, option_map};
    ghost use Rattle.visit_replay.specs.declared.difference.Contrast.{Contrast};

    ghost Value = { Option Contrast };

    ghost view = { λ d. option_map (λ contrast. contrast.value) d.contrast };
}

impl Difference {
    /// Nothing. It takes no memory.
    pub fn none() -> Difference
        ensures { result ≡ None }
    {
        Difference { contrast: None }
    }

    /// That.
    pub fn of(alloc: Global, contrast: Contrast) -> Result<Difference, NoMemory>
        ensures { IfOk result (λ difference. difference ≡ Some contrast) }
    {
        Ok(Difference {
            contrast: Some(Box::new(alloc, contrast)?),
        })
    }

    pub fn contrast(&self) -> Option<&Contrast>
        ensures { option_map (λ contrast. contrast.now) result ≡ self.now }
    {
        match &self.contrast {
            None => None,
            Some(contrast) => Some(contrast),
        }
    }
}

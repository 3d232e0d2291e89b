//! A page of the site beside which visits are replayed by their elements, with what was looked up on it for the visits to come.
ghost use Rattle.std.specs.Prelude.{◌≡◌, IfOk};
ghost use Rattle.visit_replay.specs.inside.Differing.{KnowsInputs};

use crate::known_inputs::KnownInputs;
use page_looks::{Beside, FreshNames, Looks};
use page_tree::{NoMemory, Page};
use std::alloc::Global;
use std::marker::Model;

/// The looks of a page, made once, the hidden inputs that events were replayed on, and the page beside a recorded one, the last of them: many visits were to
/// equal pages. Contracts see it as the page's tree, and the fresh names.
#[derive(Drop)]
pub struct RepairedPage<'p> {
    pub(crate) looks: Looks<'p>,
    inputs: KnownInputs<'p>,
    last: Option<Beside<'p>>,
}

impl<'p> Model for RepairedPage<'p> {
    ghost use Rattle.std.specs.Prelude.{ℕ, List};
    ghost use Rattle.std.specs.Coded.{coded×, coded_list, coded_ℕ};
    ghost use Rattle.page_tree.specs.Tree.{Tree};
    ghost use Rattle.page_tree.specs.inside.TreeCode.{tree_code};
    ghost use Rattle.visit_replay.specs.inside.Differing.{KnowsInputs, IsLastBeside};

    ghost Value = { Tree × List (List ℕ) };

    ghost coded = { coded× tree_code (coded_list (coded_list coded_ℕ)) };

    ghost view = { λ r. r.looks };

    ghost invariant = { λ r. KnowsInputs r.looks.0 r.inputs × IsLastBeside r.looks r.last };
}

impl<'p> RepairedPage<'p> {
    /// That page, with the names whose values differ at each load. The time grows with its size (`Looks::of`).
    pub fn of(
        alloc: Global,
        page: &'p Page,
        fresh: &'p FreshNames,
    ) -> Result<RepairedPage<'p>, NoMemory>
        ensures { IfOk result (λ repaired. repaired ≡ (page.now, fresh.now)) }
    {
        Ok(RepairedPage {
            looks: Looks::of(alloc, page, fresh)?,
            inputs: KnownInputs::new(alloc, page),
            last: None,
        })
    }

    /// It beside that page; the last one is handed out, where that was equal.
    pub(crate) fn beside(&mut self, alloc: Global, recorded: &Page) -> Result<Beside<'p>, NoMemory>
        ensures page { self.new ≡ self.old }
        ensures both { IfOk result
            (λ both. both ≡ record { old = recorded.now; new = self.old.0; fresh = self.old.1 }) }
    {
        if let Some(last) = self.last.take() {
            if last.recorded_page().same(recorded) {
                return Ok(last);
            }
        }
        self.looks.beside(alloc, recorded)
    }

    /// Keeps it beside that page for the next visit.
    pub(crate) fn keep(&mut self, beside: Beside<'p>)
        requires { (beside.new ≡ self.old.0) × (beside.fresh ≡ self.old.1) }
        ensures { self.new ≡ self.old }
    {
        self.last = Some(beside);
    }

    /// The page.
    pub(crate) fn page(&self) -> &'p Page
        ensures { result.now ≡ self.now.0 }
    {
        self.looks.page()
    }

    /// Hands out what is known of its hidden inputs. It takes no memory.
    pub(crate) fn take_inputs(&mut self, alloc: Global) -> KnownInputs<'p>
        ensures page { self.new ≡ self.old }
        ensures known { KnowsInputs self.old.0 result }
    {
        self.inputs.take(alloc)
    }

    /// Keeps what is known of them for the next visit.
    pub(crate) fn keep_inputs(&mut self, inputs: KnownInputs<'p>)
        requires { KnowsInputs self.old.0 inputs }
        ensures { self.new ≡ self.old }
    {
        self.inputs = inputs;
    }
}

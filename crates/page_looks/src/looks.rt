//! The looks of a page, and what its elements send.
ghost use Rattle.std.specs.Prelude.{List, ◌≡◌, IfOk};
ghost use Rattle.std.specs.Arc.{arc_value};
ghost use Rattle.page_tree.specs.Tree.{Tree};
ghost use Rattle.page_looks.specs.inside.Numbering.{KnowsAll};
ghost use Rattle.page_looks.specs.inside.Kept.{RanksPage};

use crate::beside::Beside;
use crate::fresh_names::FreshNames;
use crate::numbering::number_node;
use crate::ranks::{Ranked, first_places, last_places};
use crate::sent_numbers::{SentNumbers, numbered_sends};
use crate::shapes::Shapes;
use crate::telling::Telling;
use page_tree::{NoMemory, Page, Text};
use std::alloc::{AllocError, Global};
use std::hash::RandomState;
use std::marker::Model;
use std::sync::Arc;

/// The looks of a page and what its elements send, made once. Contracts see them as the page's tree, and the fresh names, whose values aren't told.
#[derive(Drop)]
pub struct Looks<'p> {
    keys: RandomState,
    page: &'p Page,
    fresh: &'p [Text],
    shapes: Shapes<'p>,
    ranked: Arc<Ranked>,
    sent_shapes: Shapes<'p>,
    sent: Arc<SentNumbers>,
}

impl<'p> Model for Looks<'p> {
    ghost use Rattle.std.specs.Prelude.{ℕ, List};
    ghost use Rattle.std.specs.Coded.{coded×, coded_list, coded_ℕ};
    ghost use Rattle.page_tree.specs.Tree.{Tree};
    ghost use Rattle.page_tree.specs.inside.TreeCode.{tree_code};
    ghost use Rattle.std.specs.Arc.{arc_value};
    ghost use Rattle.page_looks.specs.inside.Kept.{AreLooksOf, AreSendsOf};

    ghost Value = { Tree × List (List ℕ) };

    ghost coded = { coded× tree_code (coded_list (coded_list coded_ℕ)) };

    ghost view = { λ l. (l.page.now, l.fresh.now) };

    ghost invariant = { λ l. AreLooksOf l.page.now l.shapes (arc_value l.ranked)
        × AreSendsOf l.fresh.now l.page.now l.sent_shapes (arc_value l.ranked) (arc_value l.sent) };
}

impl<'p> Looks<'p> {
    /// Those of a page, with the names whose values differ at each load. The time grows with its size, for a form also with how many nodes stand under it.
    pub fn of(alloc: Global, page: &'p Page, fresh: &'p FreshNames) -> Result<Looks<'p>, NoMemory>
        ensures { IfOk result (λ looks. looks ≡ (page.now, fresh.now)) }
    {
        let FreshNames { names, keys } = fresh;
        let (fresh, keys) = (names.as_slice(), *keys);
        let below = Shapes::new(alloc, keys);
        let mut shapes = Shapes::new(alloc, keys);
        let ranked = ranked_page(alloc, page, &below, &mut shapes)?;
        let mut sent_shapes = Shapes::new(alloc, keys);
        let sent = numbered_sends(alloc, page, fresh, &ranked, &below, &mut sent_shapes)?;
        let looks_kept = shared(alloc, ranked)?;
        let sends_kept = shared(alloc, sent)?;
        Ok(Looks {
            keys,
            page,
            fresh,
            shapes,
            ranked: looks_kept,
            sent_shapes,
            sent: sends_kept,
        })
    }

    /// The page.
    pub fn page(&self) -> &'p Page
        ensures { result.now ≡ self.now.0 }
    {
        self.page
    }

    /// The fresh names.
    pub fn fresh(&self) -> &[Text]
        ensures { result.now ≡ self.now.1 }
    {
        self.fresh
    }

    /// This page beside a recorded one. The time grows with the sizes of both.
    pub fn beside(&self, alloc: Global, recorded: &Page) -> Result<Beside<'p>, NoMemory>
        ensures { IfOk result
            (λ both. both ≡ record { old = recorded.now; new = self.now.0; fresh = self.now.1 }) }
    {
        let mut shapes = Shapes::new(alloc, self.keys);
        let old = ranked_page(alloc, recorded, &self.shapes, &mut shapes)?;
        let mut sent_shapes = Shapes::new(alloc, self.keys);
        let old_sent = numbered_sends(
            alloc,
            recorded,
            self.fresh,
            &old,
            &self.sent_shapes,
            &mut sent_shapes,
        )?;
        let recorded = recorded.copy()?;
        let new = Arc::try_clone(&self.ranked)?;
        let new_sent = Arc::try_clone(&self.sent)?;
        Ok(Beside {
            recorded,
            repaired: self.page,
            fresh: self.fresh,
            old,
            new,
            old_sent,
            new_sent,
        })
    }
}

fn shared<T: Drop>(alloc: Global, value: T) -> Result<Arc<T>, NoMemory>
    ensures { IfOk result (λ shared. arc_value shared ≡ value) }
{
    match Arc::new(alloc, value) {
        Ok(shared) => Ok(shared),
        Err(_) => Err(AllocError),
    }
}

// What is kept of a page, whose texts and keys that are not below are put into its own.
fn ranked_page<'p>(
    alloc: Global,
    page: &'p Page,
    below: &Shapes<'_>,
    own: &mut Shapes<'p>,
) -> Result<Ranked, NoMemory>
    requires { (known : List Tree) × KnowsAll below.now own.old known }
    ensures { IfOk result (λ r. (known : List Tree) → KnowsAll below.now own.old known
        → RanksPage below.now own.new known page.now r) }
{
    let mut nodes = Vec::new(alloc);
    let mut looks = Vec::new(alloc);
    let telling = Telling::Shown;
    let _root = number_node(alloc, page, 0, &telling, below, own, &mut nodes, &mut looks)?;
    let ranks = last_places(alloc, nodes.as_slice(), page.node_count() as usize)?;
    let below_keys = below.keys.len();
    let own_keys = own.keys.len();
    let first = first_places(alloc, looks.as_slice(), below_keys + own_keys)?;
    let last = last_places(alloc, looks.as_slice(), below_keys + own_keys)?;
    Ok(Ranked {
        nodes,
        ranks,
        looks,
        first,
        last,
    })
}

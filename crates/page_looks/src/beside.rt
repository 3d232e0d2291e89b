//! A recorded page beside a repaired one: which elements are the same, and which of them still send the same.
ghost use Rattle.std.specs.Prelude.{[], ◌≡◌, ◌≢◌, ◌<◌, ◌&&◌, IfSome, MatchBool, option_map, slice_get};
ghost use Rattle.page_tree.specs.Limits.{nodes};
ghost use Rattle.page_tree.specs.Number.{place_numbered};
ghost use Rattle.page_looks.specs.Counterpart.{same_place, still_sends, alike_at, as_good_place, is_sent_alike};
ghost use Rattle.page_looks.specs.inside.Nearest.{is_one_number};
ghost use Rattle.page_looks.specs.inside.Sends.{is_true};

use crate::finding::{nearest_anchor, rank_of};
use crate::ranks::{Ranked, number_at};
use crate::sent_numbers::SentNumbers;
use page_tree::{Page, Text};
use std::marker::Model;
use std::sync::Arc;

/// The same element on the repaired page, by its number, and whether it still sends the same: so do those of the nearest anchor, with all below them.
#[derive(Clone, Copy, Debug, PartialEq, Eq)]
pub struct Same {
    pub number: u32,
    pub sending: bool,
}

/// A recorded page beside a repaired one; contracts see both trees and the fresh names.
#[derive(Drop)]
pub struct Beside<'b> {
    pub(crate) recorded: Page,
    pub(crate) repaired: &'b Page,
    pub(crate) fresh: &'b [Text],
    pub(crate) old: Ranked,
    pub(crate) new: Arc<Ranked>,
    pub(crate) old_sent: SentNumbers,
    pub(crate) new_sent: Arc<SentNumbers>,
}

impl<'b> Model for Beside<'b> {
    ghost use Rattle.page_looks.specs.Counterpart.{PagePair, coded_pair};
    ghost use Rattle.std.specs.Arc.{arc_value};
    ghost use Rattle.page_looks.specs.inside.Kept.{AreBeside};

    ghost Value = { PagePair };

    ghost coded = { coded_pair };

    ghost view = { λ b. record { old = b.recorded; new = b.repaired.now; fresh = b.fresh.now } };

    ghost invariant = { λ b. AreBeside b.fresh.now b.recorded b.repaired.now b.old (arc_value b.new) b.old_sent
        (arc_value b.new_sent) };
}

impl<'b> Beside<'b> {
    /// The page on which events were made.
    pub fn recorded_page(&self) -> &Page
        ensures { result.now ≡ self.now.old }
    {
        &self.recorded
    }

    /// The page that stands there now.
    pub fn repaired_page(&self) -> &Page
        ensures { result.now ≡ self.now.new }
    {
        self.repaired
    }

    /// The same element as that of the recorded page with this number. The time grows with how deep its node stands.
    pub fn same(&self, number: u32) -> Option<Same>
        ensures there { IfSome result (λ same. same.number < nodes self.now.new) }
        ensures place { option_map (λ same. place_numbered same.number self.now.new) result
            ≡ same_place self.now.old self.now.new (place_numbered number self.now.old) }
        ensures sending { IfSome result (λ same. same.sending
            ≡ still_sends self.now.fresh self.now.old self.now.new (place_numbered number self.now.old)) }
    {
        let Some(anchor) = nearest_anchor(
            &self.recorded,
            &self.old,
            &self.new,
            self.repaired,
            number,
        ) else {
            return None;
        };
        let rank = anchor.there as usize + (anchor.own - anchor.at) as usize;
        let was = number_at(self.old_sent.all.as_slice(), anchor.at as usize);
        let is = number_at(self.new_sent.all.as_slice(), anchor.there as usize);
        let sending = is_one_number(was, is);
        match number_at(self.new.nodes.as_slice(), rank) {
            None => None,
            Some(found) => Some(Same {
                number: found,
                sending,
            }),
        }
    }

    /// One that is as good as the element with that number, which has no anchor: the first that looks so, if all that look so on both pages send the same.
    pub fn as_good(&self, number: u32) -> Option<u32>
        ensures there { IfSome result (λ n. n < nodes self.now.new) }
        ensures place { option_map (λ n. place_numbered n self.now.new) result
            ≡ as_good_place self.now.fresh self.now.old self.now.new (place_numbered number self.now.old) }
    {
        let Some(rank) = rank_of(&self.old, number) else {
            return None;
        };
        let Some(look) = number_at(self.old.looks.as_slice(), rank as usize) else {
            return None;
        };
        let Some(first) = self.old.first_alike(&self.new, rank) else {
            return None;
        };
        if all_send_alike(&self.old_sent, &self.new_sent, look, rank, first) {
            number_at(self.new.nodes.as_slice(), first as usize)
        } else {
            None
        }
    }

    /// Whether anything on the repaired page looks like the element with that number.
    pub fn has_look(&self, number: u32) -> bool
        ensures { MatchBool result (alike_at self.now.old self.now.new (place_numbered number self.now.old) ≢ [])
            (alike_at self.now.old self.now.new (place_numbered number self.now.old) ≡ []) }
    {
        let Some(rank) = rank_of(&self.old, number) else {
            return false;
        };
        match self.old.first_alike(&self.new, rank) {
            None => false,
            Some(_first) => true,
        }
    }

    /// Whether the two elements send the same themselves, the one of the recorded page and the other of the repaired one.
    pub fn sends_alike(&self, was: u32, is: u32) -> bool
        ensures { result ≡ is_sent_alike self.now.fresh self.now.old self.now.new (place_numbered was self.now.old)
            (place_numbered is self.now.new) }
    {
        self.old_sent.own_at(was) == self.new_sent.own_at(is)
    }
}

fn is_one_number(was: Option<u32>, is: Option<u32>) -> bool
    ensures { result ≡ is_one_number was is }
{
    match (was, is) {
        (Some(was), Some(is)) => was == is,
        _ => false,
    }
}

// Whether all of that look send the same on both pages, of which one on each has that rank.
fn all_send_alike(was: &SentNumbers, is: &SentNumbers, look: u32, rank: u32, first: u32) -> bool
    ensures { result ≡ (is_one_number (slice_get was.now.all.items rank) (slice_get is.now.all.items first)
        && is_true (slice_get was.now.even.items look) && is_true (slice_get is.now.even.items look)) }
{
    let sent = number_at(was.all.as_slice(), rank as usize);
    let sends = number_at(is.all.as_slice(), first as usize);
    is_one_number(sent, sends) && was.is_even(look) && is.is_even(look)
}

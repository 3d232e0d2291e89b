//! What is told of each element of a page.
ghost use Rattle.std.specs.Prelude.{◌≡◌, ◌<◌, ◌++◌, OnOk, Some};
ghost use Rattle.page_tree.specs.Tree.{element};
ghost use Rattle.page_tree.specs.Limits.{nodes};
ghost use Rattle.page_tree.specs.Look.{name_at};
ghost use Rattle.page_tree.specs.Number.{place_numbered};
ghost use Rattle.page_tree.specs.inside.Kept.{attributes_at, children_at};
ghost use Rattle.page_looks.specs.Sending.{sent};
ghost use Rattle.page_looks.specs.inside.Told.{told_by};
ghost use Rattle.page_looks.specs.inside.Shapes.{told_texts};
ghost use Rattle.page_looks.specs.inside.Numbering.{PushesTexts};
ghost use Rattle.page_looks.specs.inside.InForms.{AreInForms, IsReady};

use crate::in_forms::{InForm, push_under};
use crate::seeing::shown_of;
use crate::sending::sent_of;
use crate::shapes::{Shapes, push_told};
use page_tree::{NoMemory, Page, Text};
use std::alloc::Global;

/// What is shown of an element, or what it sends without the values of these fresh names, by what all nodes are in forms.
#[derive(Drop)]
pub(crate) enum Telling<'a> {
    Shown,
    Sent(&'a [Text], &'a [InForm]),
}

/// Pushes the numbers of its texts, of the element with that number, which has that name.
pub(crate) fn push_telling<'p>(
    alloc: Global,
    page: &'p Page,
    number: u32,
    name: &str,
    telling: &Telling<'_>,
    below: &Shapes<'_>,
    own: &mut Shapes<'p>,
    key: &mut Vec<u32>,
) -> Result<(), NoMemory>
    requires there { number < nodes page.now }
    requires name { name_at (place_numbered number page.now) page.now ≡ Some name.now }
    requires ready { IsReady telling.now (below.now.texts ++ own.old.texts) page.now }
    ensures { OnOk result (PushesTexts below.now own.old own.new key.old.items key.new.items
        (told_texts (told_by telling.now (element name.now (attributes_at (place_numbered number page.now) page.now)
        (children_at (place_numbered number page.now) page.now))))) }
{
    match telling {
        Telling::Shown => {
            let told = shown_of(alloc, page, number, name)?;
            push_told(below, own, key, told.as_slice())
        }
        Telling::Sent(fresh, all) => {
            push_sent(alloc, page, number, name, *fresh, *all, below, own, key)
        }
    }
}

/// Pushes the numbers of the texts of what it sends.
pub(crate) fn push_sent<'p>(
    alloc: Global,
    page: &'p Page,
    number: u32,
    name: &str,
    fresh: &[Text],
    all: &[InForm],
    below: &Shapes<'_>,
    own: &mut Shapes<'p>,
    key: &mut Vec<u32>,
) -> Result<(), NoMemory>
    requires there { number < nodes page.now }
    requires name { name_at (place_numbered number page.now) page.now ≡ Some name.now }
    requires all { AreInForms (below.now.texts ++ own.old.texts) fresh.now page.now all.now }
    ensures { OnOk result (PushesTexts below.now own.old own.new key.old.items key.new.items
        (told_texts (sent fresh.now (element name.now (attributes_at (place_numbered number page.now) page.now)
        (children_at (place_numbered number page.now) page.now))))) }
{
    let told = sent_of(alloc, page, number, name, fresh)?;
    push_told(below, own, key, told.as_slice())?;
    if name == "form" {
        push_under(page, number, false, all, key)?;
        return Ok(());
    }
    Ok(())
}

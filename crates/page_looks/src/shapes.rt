//! The texts of pages and the keys of trees, each kept once, and how a key begins.
ghost use Rattle.std.specs.Prelude.{List, [], ◌∷◌, ◌++◌, ◌≡◌, ◌<◌, ◌/◌, length, set, IfOk, OnOk, option_to_list};
ghost use Rattle.std.specs.Cow.{cow_str_bytes};
ghost use Rattle.page_looks.specs.inside.Told.{told_seen};
ghost use Rattle.page_looks.specs.inside.Shapes.{told_texts};
ghost use Rattle.page_looks.specs.inside.Numbering.{PushesTexts};
ghost use Rattle.page_looks.specs.inside.InForms.{pair_numbers};

use crate::tables::{KeyTable, TextTable, few, text_number};
use page_tree::NoMemory;
use std::alloc::Global;
use std::borrow::CowStr;
use std::hash::RandomState;

/// The texts of pages, and the keys of the looks on them, each kept once.
#[derive(Drop)]
pub(crate) struct Shapes<'p> {
    pub texts: TextTable<'p>,
    pub keys: KeyTable,
}

impl<'p> Shapes<'p> {
    /// None yet. They are hashed by these keys.
    pub(crate) fn new(alloc: Global, keys: RandomState) -> Shapes<'p>
        ensures texts { result.texts ≡ [] }
        ensures keys { result.keys ≡ [] }
    {
        Shapes {
            texts: TextTable::new(alloc, keys),
            keys: KeyTable::new(alloc, keys),
        }
    }
}

/// Pushes the number of a text.
pub(crate) fn push_text<'p>(
    below: &Shapes<'_>,
    own: &mut Shapes<'p>,
    key: &mut Vec<u32>,
    text: CowStr<'p, Global>,
) -> Result<(), NoMemory>
    ensures { OnOk result (PushesTexts below.now own.old own.new key.old.items key.new.items
        (cow_str_bytes text.entry ∷ [])) }
{
    let number = text_number(&below.texts, &mut own.texts, text)?;
    key.push(number)?;
    Ok(())
}

/// Pushes the numbers of the names and values of what is told.
pub(crate) fn push_told<'p>(
    below: &Shapes<'_>,
    own: &mut Shapes<'p>,
    key: &mut Vec<u32>,
    told: &[(CowStr<'p, Global>, CowStr<'p, Global>)],
) -> Result<(), NoMemory>
    ensures { OnOk result (PushesTexts below.now own.old own.new key.old.items key.new.items
        (told_texts (told_seen told.now))) }
{
    for pair in told {
        push_text(below, own, key, pair.0.clone()?)?;
        push_text(below, own, key, pair.1.clone()?)?;
    }
    Ok(())
}

/// The numbers of the name and the value of a pair.
pub(crate) fn number_pair<'p>(
    below: &Shapes<'_>,
    own: &mut Shapes<'p>,
    pair: Option<(CowStr<'p, Global>, CowStr<'p, Global>)>,
) -> Result<Option<(u32, u32)>, NoMemory>
    ensures { IfOk result (λ numbers. PushesTexts below.now own.old own.new [] (pair_numbers numbers)
        (told_texts (told_seen (option_to_list pair.entry)))) }
{
    match pair {
        None => Ok(None),
        Some((name, value)) => {
            let name_number = text_number(&below.texts, &mut own.texts, name)?;
            let value_number = text_number(&below.texts, &mut own.texts, value)?;
            Ok(Some((name_number, value_number)))
        }
    }
}

// As much as most keys take.
const KEY_ROOM: usize = 8;

/// How the key of an element of that name begins, before it is known how much is told of it.
pub(crate) fn begin_key<'p>(
    alloc: Global,
    name: &'p str,
    below: &Shapes<'_>,
    own: &mut Shapes<'p>,
) -> Result<Vec<u32>, NoMemory>
    ensures { IfOk result (λ key. PushesTexts below.now own.old own.new (0 ∷ []) key.items (name.now ∷ [])) }
{
    let mut key = Vec::with_capacity(alloc, KEY_ROOM)?;
    key.push(0)?;
    push_text(below, own, &mut key, CowStr::Borrowed(name))?;
    Ok(key)
}

/// Writes at the head of a key how many pairs are told in it, and 1: it has two numbers of each, and one of a name.
pub(crate) fn count_told(key: &mut Vec<u32>) -> Result<(), NoMemory>
    requires { 0 < length key.old.items }
    ensures { OnOk result (key.new.items ≡ set key.old.items 0 (length key.old.items / 2)) }
{
    let count = few(key.len() / 2)?;
    key[0] = count;
    Ok(())
}

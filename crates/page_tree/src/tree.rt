//! Trees of elements with their attributes, and of texts.
ghost use Rattle.std.specs.Prelude.{◌≡◌, ◌<◌, ◌+◌, OnOk, option_map};
ghost use Rattle.page_tree.specs.Look.{value_of};
ghost use Rattle.page_tree.specs.inside.Building.{nodes_in};
ghost use Rattle.page_tree.specs.Seen.{plain_tree};
ghost use Rattle.page_tree.specs.Limits.{have_ascending_names, nodes};

use crate::memory::NoMemory;
use crate::text::Text;
use std::alloc::Global;
use std::marker::Model;

/// An element or a text, with all that is under it. Not every tree is a page: `Page::new` tells.
#[derive(Debug, Drop)]
pub enum Tree {
    Element {
        name: Text,
        attributes: Attributes,
        children: Vec<Tree>,
    },
    Words(Text),
}

impl Tree {
    /// Drops a tree node by node, however deep it is: a drop of the whole takes stack for each level. Where memory is wanting, what is left is
    /// dropped so.
    pub(crate) fn take_apart(self, alloc: Global) {
        let mut left = Vec::new(alloc);
        if left.push(self).is_err() {
            return;
        }
        while let Some(tree) = left.pop() {
            if tree.leave_children(&mut left).is_err() {
                return;
            }
        }
    }

    // Drops the node alone; those under it are left.
    #[tactic(auto, using(crate::proofs::Apart::element_apart, crate::proofs::Apart::words_apart))]
    fn leave_children(self, left: &mut Vec<Tree>) -> Result<(), NoMemory>
        ensures { OnOk result (nodes_in left.new.items < nodes_in left.old.items + nodes (plain_tree self)) }
    {
        match self {
            Tree::Element {
                name: _name,
                attributes: _attributes,
                mut children,
            } => left.append(&mut children),
            Tree::Words(_text) => Ok(()),
        }
    }
}

/// The attributes of an element: pairs of a name and a value, as they were given.
#[derive(Debug, Drop)]
pub struct Attributes {
    pairs: Vec<(Text, Text)>,
}

impl Model for Attributes {
    ghost use Rattle.std.specs.Prelude.{List};
    ghost use Rattle.page_tree.specs.Tree.{Attribute};

    ghost Value = { List Attribute };

    ghost view = { λ a. a.pairs.items };
}

impl Attributes {
    pub fn into_vec(self) -> Vec<(Text, Text)>
        ensures { result.items ≡ self }
    {
        self.pairs
    }

    /// The value of the first attribute of that name.
    pub fn get(&self, name: &str) -> Option<&str>
        ensures { option_map (λ value. value.now) result ≡ value_of name.now self.now }
    {
        for (key, value) in &self.pairs {
            if key.as_str() == name {
                return Some(value.as_str());
            }
        }
        None
    }

    pub(crate) fn as_slice(&self) -> &[(Text, Text)]
        ensures { result.now ≡ self.now }
    {
        self.pairs.as_slice()
    }

    /// Whether each name is below the next one, in byte order.
    pub(crate) fn is_ascending(&self) -> bool
        ensures { result ≡ have_ascending_names self.now }
    {
        let pairs = self.pairs.as_slice();
        let mut before: Option<&str> = None;
        for (name, _) in pairs {
            if let Some(last) = before {
                if last >= name.as_str() {
                    return false;
                }
            }
            before = Some(name.as_str());
        }
        true
    }
}

impl From<Vec<(Text, Text)>> for Attributes {
    ghost from_gives = { λ pairs attributes. attributes ≡ pairs.items };

    fn from(pairs: Vec<(Text, Text)>) -> Attributes {
        Attributes { pairs }
    }
}

//! What goes through a lane's queue.
ghost use Rattle.std.specs.Prelude.{◌≡◌};
ghost use Rattle.client_log.specs.Log.{IsPriced};

use std::alloc::Global;
use std::marker::Model;
use upload_reader::{Ending, Message};

/// A message with its cost, as a log takes them.
#[derive(Drop)]
pub(crate) struct Priced {
    message: Message,
    cost: u32,
}

impl Model for Priced {
    ghost use Rattle.client_log.specs.Log.{IsPriced};
    ghost use Rattle.page_tree.specs.contracts.page.Page as pages;
    ghost use Rattle.std.specs.Coded.{codes};
    ghost use Rattle.upload_reader.specs.Stream.{Costed};

    ghost Value = { Costed };

    ghost coded = { Prim.hlevel (codes, pages.the_row.coded) };

    ghost view = { λ p. (p.message, p.cost) };

    ghost invariant = { λ p. IsPriced p.message p.cost };
}

impl Priced {
    pub(crate) fn new(message: Message, cost: u32) -> Priced
        requires { IsPriced message cost }
        ensures { result ≡ (message, cost) }
    {
        Priced { message, cost }
    }

    pub(crate) fn into_parts(self) -> (Message, u32)
        ensures parts { result ≡ self }
        ensures priced { IsPriced result.0 result.1 }
    {
        (self.message, self.cost)
    }
}

/// What an uploader puts into its lane.
#[derive(Drop)]
pub(crate) enum Sent {
    One(Priced),
    /// How the upload ended: the lane's last item.
    Last(Ending),
}

/// What goes through the queue at once: items of one lane, in the order of its upload. One by itself takes no memory.
#[derive(Drop)]
pub(crate) struct Parcel {
    pub(crate) first: Sent,
    pub(crate) more: Vec<Sent>,
}

impl Parcel {
    ghost use Rattle.std.specs.Prelude.{[]};

    pub(crate) fn of(alloc: Global, first: Sent) -> Parcel
        ensures first { result.first ≡ first }
        ensures alone { result.more.items ≡ [] }
    {
        Parcel {
            first,
            more: Vec::new(alloc),
        }
    }
}

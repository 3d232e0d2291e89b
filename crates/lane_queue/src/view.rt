use crate::item::Item;
use std::collections::LinkedList;

/// What a putter or a taker knows of the queue. It exists in proofs alone: no value of it is made.
pub struct QueueView<T> {
    /// It is the taker's: it knows how many lanes were made, and the items that were taken of all of them.
    pub takes: bool,
    pub made: u32,
    pub got: LinkedList<Item<T>>,
    /// It is the putter's of that lane: it knows the items that were put in it.
    pub puts: bool,
    pub lane: u32,
    pub put: LinkedList<Item<T>>,
}

//! The items that are left, each with its number, under a lock.
ghost use Rattle.std.specs.Prelude.{◌≡◌, Some, IfOk, IfSome, slice_get};

use std::alloc::{AllocError, Global};
use std::marker::{Brand, Model, PhantomData};
use std::sync::{Mutex, Wait};

/// Which list a stock began with. Each call of a program picks it.
pub(crate) trait StockList<T> {
    ghost use Rattle.std.specs.Prelude.{List};

    ghost list: { List T };
}

impl<T> StockList<T> for Brand {
    ghost use Rattle.std.specs.Prelude.{[]};

    ghost list = { [] };
}

/// An item of the list, with its number.
#[derive(Drop)]
struct StockItem<T, L: StockList<T>> {
    number: usize,
    item: T,
    of: PhantomData<L>,
    ghost is_listed: { slice_get L.list number ≡ Some item },
}

/// Items to be drawn, to be shared by reference. Contracts see the list that it began with, which never changes.
#[derive(Drop)]
pub(crate) struct Stock<T, L: StockList<T>> {
    // the next one to be drawn is the last
    left: Mutex<Vec<StockItem<T, L>>>,
}

impl<T, L: StockList<T>> Model for Stock<T, L> {
    ghost use Rattle.std.specs.Prelude.{List};

    ghost Value = { List T };

    ghost view = { λ _. L.list };
}

impl<T: Drop, L: StockList<T>> Stock<T, L> {
    /// A stock of these items, none of which was drawn.
    pub(crate) fn of(alloc: Global, items: Vec<T>) -> Result<Stock<T, L>, AllocError>
        requires { items.items ≡ L.list }
        ensures { IfOk result (λ stock. stock ≡ items.items) }
    {
        let mut items = items;
        let mut left = Vec::with_capacity(alloc, items.len())?;
        while let Some(item) = items.pop() {
            left.push_reserved(StockItem {
                number: items.len(),
                item,
                of: PhantomData,
            });
        }
        Ok(Stock {
            left: Mutex::new(left),
        })
    }

    /// The next item with its number in the list, or none where all were drawn. It waits for no more than another draw.
    pub(crate) fn draw<R: Wait>(&self, rt: &R) -> Option<(usize, T)>
        ensures { IfSome result (λ drawn. slice_get self.now drawn.0 ≡ Some drawn.1) }
    {
        let StockItem {
            number,
            item,
            of: _,
        } = self.left.lock(rt).pop()?;
        Some((number, item))
    }
}

//! The work on the items of a list, by threads that draw them.
ghost use Rattle.std.specs.Prelude.{◌≡◌, Some, length, map, IfOk};
ghost use Rattle.std.specs.List.{AllByRecursion, AllZip};
ghost use Rattle.shared_stock.specs.Slots.{AreMade, ArePlaced, IsMadeBy};

use crate::slots::{Made, MadeOf, in_picked_order};
use crate::stock::{Stock, StockList};
use std::alloc::{AllocError, Global};
use std::marker::Brand;
use std::sync::Wait;
use std::thread;
use std::thread::Threads;

/// What the work makes of each item, in the order of the list, by so many threads at the most, the one that calls among them. Each draws an item, works on it, and
/// draws the next, till none is left.
pub fn map_drawn<R: Threads + Wait + Sync, T: Send + Drop, X: Send + Drop, F: Fn(T) -> X + Sync>(
    rt: &R,
    alloc: Global,
    threads: usize,
    items: Vec<T>,
    work: &F,
) -> Result<Vec<X>, AllocError>
    requires { AllByRecursion (λ item. F.pre work.now item) items.items }
    ensures { IfOk result (λ made. AllZip (λ item one. F.post work.now item one) items.items made.items) }
{
    map_listed::<R, T, X, F, Brand>(rt, alloc, threads, items, work)
}

// The same, of the list that is picked.
fn map_listed<
    R: Threads + Wait + Sync,
    T: Send + Drop,
    X: Send + Drop,
    F: Fn(T) -> X + Sync,
    L: StockList<T> + MadeOf<X> + Send + Sync,
>(rt: &R, alloc: Global, threads: usize, items: Vec<T>, work: &F) -> Result<Vec<X>, AllocError>
    requires listed { items.items ≡ L.list }
    requires accepts { AllByRecursion (λ item. F.pre work.now item) L.list }
    requires makes { IsMadeBy L.makes L.list (F.post work.now) }
    ensures { IfOk result (λ made. ArePlaced L.makes (map Some made.items) × (length made.items ≡ length L.list)) }
{
    let count = items.len();
    let shares = drawn_shares::<R, T, X, F, L>(rt, alloc, threads, items, work)?;
    in_picked_order::<X, L>(alloc, shares, count)
}

// What each thread made.
fn drawn_shares<
    R: Threads + Wait + Sync,
    T: Send + Drop,
    X: Send + Drop,
    F: Fn(T) -> X + Sync,
    L: StockList<T> + MadeOf<X> + Send + Sync,
>(
    rt: &R,
    alloc: Global,
    threads: usize,
    items: Vec<T>,
    work: &F,
) -> Result<Vec<Result<Vec<Made<X>>, AllocError>>, AllocError>
    requires listed { items.items ≡ L.list }
    requires accepts { AllByRecursion (λ item. F.pre work.now item) L.list }
    requires makes { IsMadeBy L.makes L.list (F.post work.now) }
    ensures { IfOk result (λ shares.
        AllByRecursion (λ share. IfOk share (λ made. AreMade L.makes made.items)) shares.items) }
{
    let count = items.len();
    let stock: Stock<T, L> = Stock::of(alloc, items)?;
    let shared = &stock;
    thread::map_indices(
        rt,
        alloc,
        count.min(threads.max(1)),
        &|_thread| -> Result<Vec<Made<X>>, AllocError>
            requires { AllByRecursion (λ item. F.pre work.now item) shared.now × IsMadeBy L.makes shared.now (F.post work.now) }
            ensures { IfOk result (λ made. AreMade L.makes made.items) }
        { share_of::<R, T, X, F, L>(rt, alloc, shared, count, work) },
    )
}

// What one thread makes, of so many items at the most, which are all.
fn share_of<R: Wait, T: Drop, X: Drop, F: Fn(T) -> X, L: StockList<T> + MadeOf<X>>(
    rt: &R,
    alloc: Global,
    stock: &Stock<T, L>,
    most: usize,
    work: &F,
) -> Result<Vec<Made<X>>, AllocError>
    requires accepts { AllByRecursion (λ item. F.pre work.now item) stock.now }
    requires makes { IsMadeBy L.makes stock.now (F.post work.now) }
    ensures { IfOk result (λ made. AreMade L.makes made.items) }
{
    let mut share = Vec::with_capacity(alloc, most)?;
    for _k in 0..most {
        let Some((number, item)) = stock.draw(rt) else {
            break;
        };
        share.push_reserved(Made {
            number,
            one: work(item),
        });
    }
    Ok(share)
}

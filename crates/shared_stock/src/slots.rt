//! What was made of items, put back into the order of their list.
ghost use Rattle.std.specs.Prelude.{◌≡◌, ◌≤◌, ℕ, [], None, Some, length, map, replicate, slice_get, IfOk};
ghost use Rattle.std.specs.List.{AllByRecursion};
ghost use Rattle.std.specs.Vec.{vec_capacity};
ghost use Rattle.shared_stock.specs.Slots.{AreMade, ArePlaced, WasMade};

use std::alloc::{AllocError, Global};
use std::marker::Brand;

/// What may be made of the item of a number. Each call of a program picks it.
pub(crate) trait MadeOf<X> {
    ghost use Rattle.std.specs.Prelude.{ℕ};

    ghost makes: { ℕ → X → Type 0 };
}

impl<X> MadeOf<X> for Brand {
    ghost use Rattle.std.specs.Prelude.{⊤};

    ghost makes = { λ _ _. ⊤ };
}

/// What was made of an item, with its number.
#[derive(Drop)]
pub struct Made<X> {
    pub number: usize,
    pub one: X,
}

/// What threads made of so many items, in the order of their numbers, if none was refused memory. Where nothing was made of one of them, this says so by want of
/// memory.
pub fn in_order<X: Drop>(
    alloc: Global,
    shares: Vec<Result<Vec<Made<X>>, AllocError>>,
    count: usize,
) -> Result<Vec<X>, AllocError>
    ensures count { IfOk result (λ made. length made.items ≡ count) }
    ensures each { IfOk result (λ made.
        (k : ℕ) (one : X) → slice_get made.items k ≡ Some one → WasMade shares.items k one) }
{
    in_picked_order::<X, Brand>(alloc, shares, count)
}

/// The same, of what may be made as it is picked.
pub(crate) fn in_picked_order<X: Drop, L: MadeOf<X>>(
    alloc: Global,
    shares: Vec<Result<Vec<Made<X>>, AllocError>>,
    count: usize,
) -> Result<Vec<X>, AllocError>
    requires { AllByRecursion (λ share. IfOk share (λ made. AreMade L.makes made.items)) shares.items }
    ensures { IfOk result (λ made. ArePlaced L.makes (map Some made.items) × (length made.items ≡ count)) }
{
    let slots = empty_slots(alloc, count)?;
    let back = Vec::with_capacity(alloc, count)?;
    unpacked(place_shares::<X, L>(shares, slots)?, back)
}

// A slot for each item, all of them empty.
fn empty_slots<X: Drop>(alloc: Global, count: usize) -> Result<Vec<Option<X>>, AllocError>
    ensures { IfOk result (λ slots. slots.items ≡ replicate count None) }
{
    let mut slots = Vec::with_capacity(alloc, count)?;
    for _k in 0..count {
        slots.push_reserved(None);
    }
    Ok(slots)
}

// What each thread made into the slots of its numbers, if none was refused memory.
fn place_shares<X: Drop, L: MadeOf<X>>(
    shares: Vec<Result<Vec<Made<X>>, AllocError>>,
    slots: Vec<Option<X>>,
) -> Result<Vec<Option<X>>, AllocError>
    requires made { AllByRecursion (λ share. IfOk share (λ made. AreMade L.makes made.items)) shares.items }
    requires placed { ArePlaced L.makes slots.items }
    ensures { IfOk result (λ placed. ArePlaced L.makes placed.items × (length placed.items ≡ length slots.items)) }
{
    let mut slots = slots;
    for share in shares {
        slots = place_each::<X, L>(share?, slots);
    }
    Ok(slots)
}

// Each into the slot of its number.
fn place_each<X: Drop, L: MadeOf<X>>(share: Vec<Made<X>>, slots: Vec<Option<X>>) -> Vec<Option<X>>
    requires made { AreMade L.makes share.items }
    requires placed { ArePlaced L.makes slots.items }
    ensures placed { ArePlaced L.makes result.items }
    ensures count { length result.items ≡ length slots.items }
{
    let mut slots = slots;
    for made in share {
        let Made { number, one } = made;
        if number < slots.len() {
            slots[number] = Some(one);
        }
    }
    slots
}

// What was in the slots. None is empty, else this says so by want of memory.
fn unpacked<X: Drop>(slots: Vec<Option<X>>, back: Vec<X>) -> Result<Vec<X>, AllocError>
    requires none { back.items ≡ [] }
    requires room { length slots.items ≤ vec_capacity back }
    ensures { IfOk result (λ full. map Some full.items ≡ slots.items) }
{
    let mut full = back;
    for slot in slots {
        let Some(one) = slot else {
            return Err(AllocError);
        };
        full.push_reserved(one);
    }
    Ok(full)
}

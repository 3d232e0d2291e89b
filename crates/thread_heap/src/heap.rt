//! The heap of a thread grows by blocks.
use std::alloc::Global;

/// A block's size in bytes. From 64 KiB on, what is free at the end of a heap makes the C library put its free blocks together again and again.
const BLOCK: usize = 57_344;

/// Leaves room for a block in the heap of the thread that calls.
///
/// The C library grows the heap of a thread, but for the first thread's, to the next page only, by a call to the system for which all other threads that grow theirs
/// have to wait. A block that is given back at once leaves its room in the heap, so it grows by many pages at a time. Where the block is refused, the heap grows as
/// before.
pub fn make_room(alloc: Global) {
    let _block = Vec::<u8>::with_capacity(alloc, BLOCK);
}

/// The heap that a thread fills with what is kept of items.
#[derive(Drop)]
pub struct Heap {
    alloc: Global,
    // how many items there are for a block
    items: u32,
    // how many come before the next one
    left: u32,
}

impl Heap {
    /// That of the thread that calls. What is kept of so many items fills about a block.
    pub fn of_thread(alloc: Global, items: u32) -> Heap {
        Heap {
            alloc,
            items,
            left: 0,
        }
    }

    /// Before an item of which something may be kept there.
    pub fn expect_item(&mut self) {
        if self.left == 0 {
            make_room(self.alloc);
            self.left = self.items;
        }
        self.left = self.left.saturating_sub(1);
    }
}

//! Where a text or a list is likely to stand in its table. Whoever asks compares, so that most of them need no hash by secret keys; where somebody makes many
//! up with one quick hash, all guesses are wrong, and that is all.
ghost use Rattle.std.specs.Prelude.{};

use page_tree::NoMemory;
use std::alloc::Global;

/// By the quick hash of what was put in where the last of them stands; any other place for what wasn't.
#[derive(Drop)]
pub(crate) struct Guesses {
    places: Vec<u32>,
}

impl Guesses {
    /// None yet.
    pub(crate) fn none(alloc: Global) -> Guesses {
        Guesses {
            places: Vec::new(alloc),
        }
    }

    /// The place that is guessed.
    pub(crate) fn at(&self, hash: u32) -> Option<usize> {
        let mask = self.places.len().saturating_sub(1);
        let place = self.places.as_slice().get(hash as usize & mask)?;
        Some(*place as usize)
    }

    /// Notes what was put in there, of so many in all.
    pub(crate) fn note(&mut self, hash: u32, place: u32, count: usize) -> Result<(), NoMemory> {
        if count > self.places.len() / SPACE {
            let room = self.places.len().saturating_mul(2).max(LEAST_ROOM);
            self.places.resize(room, 0)?;
        }
        let mask = self.places.len().saturating_sub(1);
        if let Some(at) = self.places.as_mut_slice().get_mut(hash as usize & mask) {
            *at = place;
        }
        Ok(())
    }
}

// A power of two, as any further room is.
const LEAST_ROOM: usize = 64;

// How many places there are at least for each that is taken: so most have one of their own.
const SPACE: usize = 4;

// How much of a text counts: its end.
const HASHED: usize = 16;

/// A number that texts which differ seldom share: made of the end of it, and how long it is.
pub(crate) fn quick_hash_of_text(text: &str) -> u32 {
    let bytes = text.as_bytes();
    let end = &bytes[bytes.len().saturating_sub(HASHED)..];
    let mut hash = bytes.len().min(HASHED) as u32;
    for byte in end {
        hash = hash.wrapping_mul(31).wrapping_add(u32::from(*byte));
    }
    hash
}

/// The same of a list.
pub(crate) fn quick_hash(list: &[u32]) -> u32 {
    let mut hash: u32 = 0;
    for number in list {
        hash = hash.wrapping_mul(31).wrapping_add(*number);
    }
    hash
}

ghost use Rattle.std.specs.Prelude.{◌≡◌, [], ◌∷◌, ◌++◌, IfOk};
ghost use Rattle.page_tree.specs.Under.{is_under};

use crate::memory::NoMemory;
use std::alloc::Global;
use std::cmp::Ordering;
use std::marker::Model;

/// A place in a page: the positions among all children, texts too, on the way from the root, counted from 0. The root is the empty list.
///
/// Places ascend in document order, so one can be the key of a map.
#[derive(Debug, Drop)]
pub struct Place {
    positions: Vec<u32>,
}

impl Model for Place {
    ghost use Rattle.std.specs.Prelude.{ℕ, List};

    ghost Value = { List ℕ };

    ghost view = { λ p. p.positions.items };
}

impl Place {
    /// The place of the root. It allocates nothing.
    pub fn root(alloc: Global) -> Place
        ensures { result ≡ [] }
    {
        Place {
            positions: Vec::new(alloc),
        }
    }

    /// The place of a child.
    pub fn child(&self, position: u32) -> Result<Place, NoMemory>
        ensures { IfOk result (λ place. place ≡ self.now ++ position ∷ []) }
    {
        let mut positions = Vec::with_capacity(
            *self.positions.allocator(),
            self.positions.len() + 1,
        )?;
        positions.extend_from_slice(self.positions.as_slice())?;
        positions.push(position)?;
        Ok(Place { positions })
    }

    /// An equal place.
    pub fn copy(&self) -> Result<Place, NoMemory>
        ensures { IfOk result (λ copy. copy ≡ self.now) }
    {
        Ok(Place {
            positions: self.positions.clone()?,
        })
    }

    /// Whether that place is on the way to this one. No place is under itself.
    pub fn is_under(&self, above: &Place) -> bool
        ensures { result ≡ is_under above.now self.now }
    {
        let way = above.positions.as_slice();
        way.len() < self.positions.len() && self.positions.as_slice().starts_with(way)
    }

    pub fn as_slice(&self) -> &[u32]
        ensures { result.now ≡ self.now }
    {
        self.positions.as_slice()
    }

    pub fn into_vec(self) -> Vec<u32>
        ensures { result.items ≡ self }
    {
        self.positions
    }
}

impl PartialEq for Place {
    ghost use Rattle.std.specs.Str.{bytes_eq};
    ghost use Rattle.std.specs.Cmp.{partial_equiv_from_equiv};
    ghost use Rattle.std.specs.Cmp.Lexicographic.{nat_list_eq_equiv};

    ghost eq = { bytes_eq };

    ghost laws = { partial_equiv_from_equiv nat_list_eq_equiv };

    fn eq(&self, other: &Place) -> bool {
        self.as_slice() == other.as_slice()
    }
}

impl Eq for Place {
    ghost use Rattle.std.specs.Cmp.Lexicographic.{nat_list_eq_equiv};

    ghost laws = { nat_list_eq_equiv };
}

impl PartialOrd for Place {
    ghost use Rattle.std.specs.Prelude.{Some};
    ghost use Rattle.std.specs.Ordering.{nat_cmp};
    ghost use Rattle.std.specs.Cmp.Lexicographic.{slice_cmp, texts_po};

    ghost partial_cmp = { λ a b. Some (slice_cmp nat_cmp a b) };

    ghost laws = { texts_po };

    fn partial_cmp(&self, other: &Place) -> Option<Ordering> {
        Some(self.cmp(other))
    }
}

impl Ord for Place {
    ghost use Rattle.std.specs.Prelude.{refl};
    ghost use Rattle.std.specs.Ordering.{nat_cmp};
    ghost use Rattle.std.specs.Cmp.Lexicographic.{slice_cmp, nat_list_cmp_total, texts_ties};

    ghost cmp = { slice_cmp nat_cmp };

    ghost total = { nat_list_cmp_total };

    ghost matches_partial_cmp = { λ a b. refl };

    ghost matches_eq = { texts_ties };

    fn cmp(&self, other: &Place) -> Ordering {
        self.as_slice().cmp(other.as_slice())
    }
}

impl From<Vec<u32>> for Place {
    ghost from_gives = { λ positions place. place ≡ positions.items };

    fn from(positions: Vec<u32>) -> Place {
        Place { positions }
    }
}

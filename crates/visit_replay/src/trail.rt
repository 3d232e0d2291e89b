//! The trail of a visit. It stands for the requests that the visit makes, in place of their texts, of which a small upload may make gigabytes.
ghost use Rattle.std.specs.Prelude.{All};
ghost use Rattle.std.proofs.Props.{props};
ghost use Rattle.visit_replay.specs.inside.Deeds.{IsDeedOn};

use crate::deeds::Deeds;
use page_tree::{Page, Text};

/// A visit's address, the page that it was replayed on, whose table is shared, and what it did there.
#[derive(Debug, Drop)]
pub(crate) struct Trail {
    pub(crate) address: Text,
    pub(crate) page: Page,
    pub(crate) deeds: Deeds,
    ghost within: { All (IsDeedOn page) deeds.items } by { Prim.hlevel props },
}

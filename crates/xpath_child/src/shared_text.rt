//! A text that copies share.
ghost use Rattle.std.specs.Prelude.{◌≡◌, IfOk};
ghost use Rattle.xpath_child.specs.inside.Shared.{kept_bytes};

use arrayvec::ArrayString;
use page_tree::{NoMemory, Text};
use std::alloc::{AllocError, Global};
use std::marker::Model;
use std::sync::Arc;

// The longest text that is kept beside its count, so that both take one block of memory.
const SHORT: usize = 64;

/// A text that copies share. Contracts see its bytes.
#[derive(Debug, Drop)]
pub(crate) struct SharedText {
    alloc: Global,
    kept: Arc<Kept>,
}

#[derive(Debug, Drop)]
enum Kept {
    Short(ArrayString<SHORT>),
    Long(Text),
}

impl Model for SharedText {
    ghost use Rattle.std.specs.Prelude.{ℕ, List};
    ghost use Rattle.std.specs.Arc.{arc_value};
    ghost use Rattle.xpath_child.specs.inside.Shared.{kept_bytes};

    ghost Value = { List ℕ };

    ghost view = { λ t. kept_bytes (arc_value t.kept) };
}

impl SharedText {
    pub(crate) fn from_str(alloc: Global, text: &str) -> Result<SharedText, NoMemory>
        ensures { IfOk result (λ made. made ≡ text.now) }
    {
        match Arc::new(alloc, Kept::from_str(alloc, text)?) {
            Ok(kept) => Ok(SharedText { alloc, kept }),
            Err(_) => Err(AllocError),
        }
    }

    pub(crate) fn as_str(&self) -> &str
        ensures { result.now ≡ self.now }
    {
        self.kept.as_str()
    }

    /// The same text, for itself.
    pub(crate) fn to_text(&self) -> Result<Text, NoMemory>
        ensures { IfOk result (λ text. text ≡ self.now) }
    {
        Text::from_str(self.alloc, self.as_str())
    }

    /// The same text, of which nothing is copied.
    pub(crate) fn copy(&self) -> Result<SharedText, NoMemory>
        ensures { IfOk result (λ copy. copy ≡ self.now) }
    {
        let kept = Arc::try_clone(&self.kept)?;
        Ok(SharedText {
            alloc: self.alloc,
            kept,
        })
    }
}

impl Kept {
    fn from_str(alloc: Global, text: &str) -> Result<Kept, NoMemory>
        ensures { IfOk result (λ kept. kept_bytes kept ≡ text.now) }
    {
        match ArrayString::from(text) {
            Ok(short) => Ok(Kept::Short(short)),
            Err(_) => Ok(Kept::Long(Text::from_str(alloc, text)?)),
        }
    }

    fn as_str(&self) -> &str
        ensures { result.now ≡ kept_bytes self.now }
    {
        match self {
            Kept::Short(text) => text.as_str(),
            Kept::Long(text) => text.as_str(),
        }
    }
}

//! How much of a round's work is done.
ghost use Rattle.std.specs.Prelude.{◌≡◌, ◌-◌, nat_lt};

// So many bytes of small requests are answered in a round, and the rest of the one that is under way.
const SMALL_BYTES: usize = 65536;

/// What is left of a round's work, and where the next one begins.
#[derive(Drop)]
pub(crate) struct Work {
    pub(crate) left: usize,
    place: usize,
    next: Option<usize>,
}

impl Work {
    /// A round that begins at that place.
    pub(crate) fn begin(place: usize) -> Work
        ensures { result.left ≡ 65536 }
    {
        Work {
            left: SMALL_BYTES,
            place,
            next: None,
        }
    }

    /// The first of all places comes.
    pub(crate) fn go_round(&mut self)
        ensures { self.new.left ≡ self.old.left }
    {
        self.place = 0;
    }

    /// Whether there is some left.
    pub(crate) fn goes_on(&self) -> bool
        ensures { result ≡ nat_lt 0 self.now.left }
    {
        self.left > 0
    }

    /// A place is gone over, and these bytes are answered. Behind the first one that leaves nothing to be done in the
    /// round, or nothing to be read for other places, the next round begins.
    pub(crate) fn count(&mut self, bytes: usize, has_read_enough: bool)
        ensures { self.new.left ≡ self.old.left - bytes }
    {
        self.left = self.left.saturating_sub(bytes);
        self.place = self.place.saturating_add(1);
        if self.next.is_none() && (has_read_enough || self.left == 0) {
            self.next = Some(self.place);
        }
    }

    /// The place where the next round begins; that place where all was done in this one.
    pub(crate) fn next(&self, begun: usize) -> usize {
        match self.next {
            Some(place) => place,
            None => begun,
        }
    }
}

//! Whoever brings uploads, one after another.
ghost use Rattle.std.specs.Prelude.{IfSome, IfNone};

/// Callers that come one after another, each with the source of an upload, and are given it back when its round is over. Contracts see what they say of
/// themselves by three relations, each between what they were before a call and what they are behind it. So as much is known of who came as these say: of a
/// list of known uploads, whose `accept` gives the next, which uploads each round had, and with them each client's log; of connections nothing.
pub trait Callers {
    /// What an upload is read from.
    type Reader;

    // Someone came with that source.
    ghost brings: { Self → Self.Reader → Self → Type 0 };
    // Nobody came.
    ghost brings_none: { Self → Self → Type 0 };
    // That source was given back, as it was left.
    ghost takes_back: { Self → Self.Reader → Self → Type 0 };

    /// The source of the next upload. None says that nobody comes, now or later; it isn't asked again.
    fn accept(&mut self) -> Option<Self::Reader>
        ensures brought { IfSome result (λ reader. brings self.old reader self.new) }
        ensures none { IfNone result (brings_none self.old self.new) };

    /// Takes back a source of which the round is over.
    fn take_back(&mut self, reader: Self::Reader)
        ensures { takes_back self.old reader self.new };
}

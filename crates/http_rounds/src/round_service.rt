//! What is served in rounds.
ghost use Rattle.std.specs.Prelude.{Bool};

use http_server::Service;

/// Answers in rounds, so that many requests share one cost, as that of a sync. A server sends nothing that was answered
/// before the next `settle` says that it stands.
pub trait RoundService: Service {
    // From the first state a round ends, stands or not, and leaves the second state.
    ghost settles: { Self → Bool → Self → Type 0 };

    /// Ends a round. Where it answers false, nothing that was answered in it is to be sent. Where the system lets no more
    /// connections be open, it may close what it has open itself.
    fn settle(&mut self, is_crowded: bool) -> bool
        ensures { settles self.old result self.new };

    /// Whether the next requests would better be answered in the next round.
    fn has_read_enough(&self) -> bool;
}

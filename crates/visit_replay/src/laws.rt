//! What is proved of replay by elements: the function does nothing, and tells a proof a law.
ghost use Rattle.std.specs.Prelude.{List, ℕ};
ghost use Rattle.page_tree.specs.Tree.{Tree};
ghost use Rattle.client_log.specs.declared.visit.Visit.{Visit};
ghost use Rattle.visit_replay.specs.RepairedSite.{RepairedSite};
ghost use Rattle.visit_replay.specs.SameRequests.{AllAskAlike};
ghost use Rattle.visit_replay.specs.declared.requests.Request.{Request};

/// A visit that is done by its elements asks, event by event, for what its recorded page would have asked for, but for the values of fresh names, start texts,
/// and fields that nobody touched.
pub fn done_asks_alike()
    ensures { (site : RepairedSite) (fresh : List (List ℕ)) (visit : Visit) (requests : List Request) (new : Tree)
        → AllAskAlike site fresh visit requests new }
{}

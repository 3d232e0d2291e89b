//! What a session looks at in a message.
ghost use Rattle.std.specs.Prelude.{◌≡◌};

use crate::message::Message;
use std::marker::Model;
use std::snapshot::Snapshot;

/// What decides whether a message may come next: it can be kept while the message itself is moved on. Contracts see it as the message.
#[derive(Drop)]
pub struct Header {
    pub(crate) visit: u64,
    pub(crate) step: HeaderStep,
    pub(crate) message: Snapshot<Message>,
}

/// What a message does to its visit.
#[derive(Drop)]
pub(crate) enum HeaderStep {
    Load { parent: u64 },
    /// By an event that made the request of that number, 0 for none.
    Act { req: u64 },
    End,
}

impl Model for Header {
    ghost use Rattle.std.specs.Coded.{codes};
    ghost use Rattle.page_tree.specs.contracts.page.Page as pages;
    ghost use Rattle.upload_reader.specs.declared.message.Message.{Message};
    ghost use Rattle.upload_reader.specs.inside.Counting.{IsHeader};

    ghost Value = { Message };

    ghost coded = { Prim.hlevel (codes, pages.the_row.coded) };

    ghost view = { λ h. h.message.value };

    ghost invariant = { λ h. IsHeader h.visit h.step h.message.value };
}

impl Header {
    pub fn of(message: &Message) -> Header
        ensures { result ≡ message.now }
    {
        let (visit, step) = match message {
            Message::Load { visit, parent, .. } => (*visit, HeaderStep::Load { parent: *parent }),
            Message::Act { visit, event } => (
                *visit,
                HeaderStep::Act {
                    req: event.request(),
                },
            ),
            Message::Ended { visit, .. } => (*visit, HeaderStep::End),
        };
        Header {
            visit,
            step,
            message: Snapshot::of(message),
        }
    }
}

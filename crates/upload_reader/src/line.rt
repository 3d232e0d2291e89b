use crate::message::Message;

/// What a line of an upload says that isn't blank.
#[derive(Debug, Drop)]
pub enum Line {
    Says(Message),
    Bye,
}

//! What a put and a take answer.
use crate::item::Item;

/// What became of a put. But for Done the body comes back.
#[derive(Drop)]
pub enum Put<T> {
    Done,
    /// The lanes were closed. That they were is no part of any contract.
    Closed(T),
    /// The lane's last item was put before.
    Over(T),
}

/// What became of one try to put.
#[derive(Drop)]
pub enum TryPut<T> {
    Done,
    /// The queue was full, in a moment of the call.
    Full(T),
    /// The lanes were closed. That they were is no part of any contract.
    Closed(T),
    /// The lane's last item was put before.
    Over(T),
}

/// What a take gave.
#[derive(Drop)]
pub enum Take<T> {
    Item(Item<T>),
    /// Each lane's last item was taken.
    AllEnded,
}

/// What one try to take gave.
#[derive(Drop)]
pub enum TryTake<T> {
    Item(Item<T>),
    /// Each lane's last item was taken.
    AllEnded,
    /// The queue was empty, in a moment of the call.
    Empty,
}

//! The connections of a listener as callers.
ghost use Rattle.std.specs.Prelude.{⊤, IfSome, IfNone};

use crate::program::callers::Callers;
use byte_streams::Fed;
use std::io::Read;
use std::marker::Model;
use std::net::OpenListener;

/// The connections that a listener accepts. Of these std's trait says nothing, so neither do the relations, nor do contracts see anything of the listener. A
/// connection is closed where it is taken back.
#[derive(Drop)]
pub(crate) struct Connections<'a, L> {
    pub listener: &'a L,
}

impl<'a, L> Model for Connections<'a, L> {
    ghost Value = { Unit {0} };

    ghost view = { λ _. tt };
}

impl<S: Read + Send + Drop, L: OpenListener<Stream = S>> Callers for Connections<'_, L> {
    type Reader = Fed<S>;

    ghost brings = { λ _ _ _. ⊤ };

    ghost brings_none = { λ _ _. ⊤ };

    ghost takes_back = { λ _ _ _. ⊤ };

    fn accept(&mut self) -> Option<Fed<S>>
        ensures brought { IfSome result (λ _. ⊤) }
        ensures none { IfNone result ⊤ }
    {
        accepted(self.listener)
    }

    fn take_back(&mut self, _reader: Fed<S>)
        ensures { ⊤ }
    {}
}

/// A port of this machine, whose connections are the callers. Likewise nothing is said of it.
#[derive(Drop)]
pub(crate) struct Port<L> {
    pub listener: L,
}

impl<L> Model for Port<L> {
    ghost Value = { Unit {0} };

    ghost view = { λ _. tt };
}

impl<S: Read + Send + Drop, L: OpenListener<Stream = S>> Callers for Port<L> {
    type Reader = Fed<S>;

    ghost brings = { λ _ _ _. ⊤ };

    ghost brings_none = { λ _ _. ⊤ };

    ghost takes_back = { λ _ _ _. ⊤ };

    fn accept(&mut self) -> Option<Fed<S>>
        ensures brought { IfSome result (λ _. ⊤) }
        ensures none { IfNone result ⊤ }
    {
        accepted(&self.listener)
    }

    fn take_back(&mut self, _reader: Fed<S>)
        ensures { ⊤ }
    {}
}

fn accepted<S: Read, L: OpenListener<Stream = S>>(listener: &L) -> Option<Fed<S>> {
    match listener.accept() {
        Ok((connection, _)) => Some(Fed::new(connection)),
        Err(_) => None,
    }
}

//! What events did at the nodes of a page. All outcomes keep it up to the report, so it takes few bytes.
ghost use Rattle.std.specs.Prelude.{◌≡◌, ◌<◌, ◌^◌, ◌++◌, [], ◌∷◌, length, slice_get, Some, IfOk, OnOk, OnErr};
ghost use Rattle.visit_replay.specs.inside.Deed.{Typed, Clicked, Sent};
ghost use Rattle.visit_replay.specs.inside.Deeds.{deed_of, deed_number};
ghost use Rattle.visit_replay.specs.inside.KeptDeeds.{deed_seen};

use page_tree::NoMemory;
use std::alloc::{AllocError, Global};
use std::marker::Model;
use std::mem::size_of;
use upload_reader::Event;

/// What one did, by the numbers of nodes, as it is read.
#[derive(Clone, Copy)]
pub(crate) enum SeenDeed<'d> {
    Typed {
        field: u32,
        value: &'d str,
    },
    /// `req` is the number of the request that it made, 0 for none.
    Clicked {
        node: u32,
        req: u64,
    },
    Sent {
        form: u32,
        button: Option<u32>,
        req: u64,
    },
}

impl<'d> SeenDeed<'d> {
    /// The number of the request that it made, 0 for none.
    pub(crate) fn request(&self) -> u64
        ensures { result ≡ deed_number (deed_seen self.now) }
    {
        match self {
            SeenDeed::Typed { .. } => 0,
            SeenDeed::Clicked { req, .. } => *req,
            SeenDeed::Sent { req, .. } => *req,
        }
    }
}

/// Those of a visit. Contracts see them as a list.
#[derive(Debug, Drop)]
pub(crate) struct Deeds {
    kept: Vec<KeptDeed>,
    // all that was typed, one text behind another
    typed: String,
    submits: Vec<Submit>,
}

#[derive(Clone, Copy, Debug)]
enum KeptDeed {
    // the bytes of what was typed, from one up to another
    Typed { field: u32, start: u32, end: u32 },
    Clicked { node: u32, req: u64 },
    // by the number of its submit
    Sent { form: u32, at: u32 },
}

const _: () = prove!(size_of::<KeptDeed>() == 16);

// What is kept of one besides the form.
#[derive(Clone, Copy, Debug)]
struct Submit {
    button: Option<u32>,
    req: u64,
}

impl Model for Deeds {
    ghost use Rattle.std.specs.Prelude.{All, map, string_bytes};
    ghost use Rattle.visit_replay.specs.inside.Deed.{DeedList};

    ghost Value = { DeedList };

    ghost use Rattle.visit_replay.specs.inside.KeptDeeds.{deed_kept, IsBacked};

    ghost view = { λ d. record { items = map (deed_kept (string_bytes d.typed) d.submits.items) d.kept.items } };

    ghost invariant = { λ d. All (IsBacked (string_bytes d.typed) d.submits.items) d.kept.items };
}

impl Deeds {
    /// None. It takes no memory.
    pub(crate) fn new(alloc: Global) -> Deeds
        ensures { result.items ≡ [] }
    {
        Deeds {
            kept: Vec::new(alloc),
            typed: String::new(alloc),
            submits: Vec::new(alloc),
        }
    }

    pub(crate) fn len(&self) -> usize
        ensures { result ≡ length self.now.items }
    {
        self.kept.len()
    }

    /// Tells a proof that there is a number behind that of the last one; nothing is done.
    pub(crate) fn within_memory(&self)
        ensures { length self.now.items < 2 ^ 64 }
    {
        let _count = self.kept.len();
    }

    /// The one at that place.
    pub(crate) fn seen(&self, place: usize) -> SeenDeed<'_>
        requires { place < length self.now.items }
        ensures { slice_get self.now.items place ≡ Some (deed_seen result) }
    {
        match self.kept[place] {
            KeptDeed::Typed { field, start, end } => SeenDeed::Typed {
                field,
                value: &self.typed[start as usize..end as usize],
            },
            KeptDeed::Clicked { node, req } => SeenDeed::Clicked { node, req },
            KeptDeed::Sent { form, at } => {
                let Submit { button, req } = self.submits[at as usize];
                SeenDeed::Sent { form, button, req }
            }
        }
    }

    /// That of an event which acts on the node with that number, by that button, is the last one now.
    pub(crate) fn push(
        &mut self,
        event: &Event,
        number: u32,
        button: Option<u32>,
    ) -> Result<(), NoMemory>
        ensures ok { OnOk result (self.new.items ≡ self.old.items ++ deed_of event.now number button ∷ []) }
        ensures err { OnErr result (self.new ≡ self.old) }
    {
        match event {
            Event::Input { value, .. } => self.push_typed(number, value.as_str()),
            Event::Click { req, .. } => self.push_clicked(number, *req),
            Event::Submit { req, .. } => self.push_sent(number, button, *req),
        }
    }

    fn push_typed(&mut self, field: u32, value: &str) -> Result<(), NoMemory>
        ensures ok { OnOk result (self.new.items ≡ self.old.items ++ Typed field value.now ∷ []) }
        ensures err { OnErr result (self.new ≡ self.old) }
    {
        let start = few(self.typed.as_str().len())?;
        let end = few(self.typed.as_str().len() + value.len())?;
        self.kept.reserve(1)?;
        self.typed.push_str(value)?;
        self.kept
            .push(KeptDeed::Typed { field, start, end })
            .unwrap();
        Ok(())
    }

    fn push_clicked(&mut self, node: u32, req: u64) -> Result<(), NoMemory>
        ensures ok { OnOk result (self.new.items ≡ self.old.items ++ Clicked node req ∷ []) }
        ensures err { OnErr result (self.new ≡ self.old) }
    {
        self.kept.push(KeptDeed::Clicked { node, req })?;
        Ok(())
    }

    fn push_sent(&mut self, form: u32, button: Option<u32>, req: u64) -> Result<(), NoMemory>
        ensures ok { OnOk result (self.new.items ≡ self.old.items ++ Sent form button req ∷ []) }
        ensures err { OnErr result (self.new ≡ self.old) }
    {
        let at = few(self.submits.len())?;
        self.kept.reserve(1)?;
        self.submits.push(Submit { button, req })?;
        self.kept.push(KeptDeed::Sent { form, at }).unwrap();
        Ok(())
    }

    /// Gives back the room that none of them needs.
    pub(crate) fn fit(&mut self)
        ensures { self.new ≡ self.old }
    {
        self.kept.shrink_to_fit();
        self.typed.shrink_to_fit();
        self.submits.shrink_to_fit();
    }
}

// A count that doesn't fit is refused as want of memory: so many bytes take more than there is.
fn few(count: usize) -> Result<u32, NoMemory>
    ensures { IfOk result (λ few. few ≡ count) }
{
    match u32::try_from(count) {
        Ok(few) => Ok(few),
        Err(_) => Err(AllocError),
    }
}

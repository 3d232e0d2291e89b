//! The names of a stretch, drawn by threads one after another: whoever draws one opens its file and reads its hello before the next is drawn.
ghost use Rattle.std.specs.Prelude.{◌≡◌, ◌≢◌, false, Err, IfSome};
ghost use Rattle.byte_streams.specs.Reading.{WasRead};
ghost use Rattle.replay_folder.specs.declared.ends.UploadEnd.TheVariants.{Unopened};
ghost use Rattle.replay_folder.specs.inside.Stretch.{IsDrawn};

use crate::ends::UploadEnd;
use crate::greeting::greet_named;
use crate::met_clients::MetClients;
use crate::names::Named;
use crate::opens::{OpensUploads, Watches};
use byte_streams::Source;
use page_tree::NoMemory;
use std::alloc::Global;
use upload_reader::Upload;

/// The most names of a stretch. What is made of them is told behind it.
const MAX_NAMES: usize = 256;

/// A name that was drawn.
#[derive(Drop)]
pub(crate) struct DrawnName<F: Source> {
    pub(crate) number: usize,
    /// The upload behind its hello, or what becomes of it without one.
    pub(crate) said: Result<Upload<F>, UploadEnd>,
    /// Whether that upload is the first of its client.
    pub(crate) is_new: bool,
}

/// How far the names of a stretch were drawn. It stands under a lock, and no contract says what it has.
#[derive(Drop)]
pub(crate) struct Drawing<'a, P> {
    next: usize,
    is_over: bool,
    // so many names are there in all, those of the stretch the last ones
    of: usize,
    met: &'a mut MetClients,
    watcher: &'a mut P,
}

impl<'a, P: Watches> Drawing<'a, P> {
    /// Before the first name of a stretch.
    pub(crate) fn new(of: usize, met: &'a mut MetClients, watcher: &'a mut P) -> Drawing<'a, P> {
        Drawing {
            next: 0,
            is_over: false,
            of,
            met,
            watcher,
        }
    }

    /// The next name, unless it is over: behind an upload that has to wait, and before a name that can't be opened, or for whose hello memory is refused, beside
    /// other uploads.
    pub(crate) fn draw<F: Source + Drop, O: OpensUploads<File = F>>(
        &mut self,
        alloc: Global,
        opener: &O,
        names: &[Named],
    ) -> Option<DrawnName<F>>
        ensures { IfSome result (IsDrawn (WasRead F.answers F.remaining) (O.opened opener.now) names.now) }
    {
        let number = self.next;
        if self.is_over || number >= names.len().min(MAX_NAMES) {
            return None;
        }
        self.is_over = true;
        self.watcher
            .tell(self.of.saturating_sub(names.len() - number), self.of);
        let Ok(said) = greet_named(alloc, opener, &names[number]) else {
            return None;
        };
        if number > 0 && is_shut(&said) {
            return None;
        }
        let Ok(is_new) = self.is_first(&said) else {
            return None;
        };
        self.next = number + 1;
        self.is_over = !is_new;
        Some(DrawnName {
            number,
            said,
            is_new,
        })
    }

    // Whether no upload of its client was met before.
    fn is_first<F: Source>(
        &mut self,
        said: &Result<Upload<F>, UploadEnd>,
    ) -> Result<bool, NoMemory> {
        match said {
            Ok(upload) => self.met.meet(upload.client()),
            Err(_) => Ok(true),
        }
    }

    /// No name is drawn any more.
    pub(crate) fn end(&mut self) {
        self.is_over = true;
    }

    /// How many names were drawn.
    pub(crate) fn count(self) -> usize {
        let Drawing { next, .. } = self;
        next
    }
}

// It can't be opened.
fn is_shut<F: Source>(said: &Result<Upload<F>, UploadEnd>) -> bool
    ensures { result ≡ false → said.now ≢ Err Unopened }
{
    match said {
        Ok(_) => false,
        Err(end) => match end {
            UploadEnd::Unopened => true,
            UploadEnd::NoHello(_) => false,
            UploadEnd::Taken { .. } => false,
            UploadEnd::Unread => false,
        },
    }
}

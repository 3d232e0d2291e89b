//! What a browser's upload says.
ghost use Rattle.std.specs.Prelude.{◌≡◌, IfOk};
ghost use Rattle.upload_reader.specs.Session.{request_of};

use page_tree::{NoMemory, Page, Text};
use xpath_child::Path;

/// What a user did on a page. `at` is the browser's time, which is stored only.
#[derive(Debug, Drop)]
pub enum Event {
    /// The field's whole text became `value`.
    Input {
        at: u64,
        target: Path,
        value: Text,
    },
    /// `req` is the number of the request that it made, 0 for none.
    Click {
        at: u64,
        target: Path,
        req: u64,
    },
    /// A form was sent; `by` is the button that was pressed for it.
    Submit {
        at: u64,
        target: Path,
        by: Option<Path>,
        req: u64,
    },
}

impl Event {
    /// The number of the request that it made, 0 for none.
    pub fn request(&self) -> u64
        ensures { result ≡ request_of self.now }
    {
        match self {
            Event::Input { .. } => 0,
            Event::Click { req, .. } => *req,
            Event::Submit { req, .. } => *req,
        }
    }

    /// An equal event.
    pub fn copy(&self) -> Result<Event, NoMemory>
        ensures { IfOk result (λ event. event ≡ self.now) }
    {
        match self {
            Event::Input { at, target, value } => Ok(Event::Input {
                at: *at,
                target: target.copy()?,
                value: value.copy()?,
            }),
            Event::Click { at, target, req } => Ok(Event::Click {
                at: *at,
                target: target.copy()?,
                req: *req,
            }),
            Event::Submit {
                at,
                target,
                by,
                req,
            } => Ok(Event::Submit {
                at: *at,
                target: target.copy()?,
                by: copy_path(by)?,
                req: *req,
            }),
        }
    }
}

fn copy_path(path: &Option<Path>) -> Result<Option<Path>, NoMemory>
    ensures { IfOk result (λ copy. copy ≡ path.now) }
{
    match path {
        Some(path) => Ok(Some(path.copy()?)),
        None => Ok(None),
    }
}

/// One message of an upload.
#[derive(Debug, Drop)]
pub enum Message {
    /// A visit begins: the page that the browser showed at that address. `parent` is the visit that opened it, and `from` the number of the request
    /// of that visit which did; 0 for none.
    Load {
        visit: u64,
        at: u64,
        parent: u64,
        from: u64,
        address: Text,
        page: Page,
    },
    /// Something was done on the visit's page.
    Act {
        visit: u64,
        event: Event,
    },
    /// The visit ended.
    Ended {
        visit: u64,
        at: u64,
    },
}

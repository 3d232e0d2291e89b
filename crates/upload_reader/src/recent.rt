//! What a lane's last messages named, which those behind them share where it is equal: most events are on a field that
//! an event before was on, and many visits show a page that the visit before showed.
ghost use Rattle.std.specs.Prelude.{◌≡◌, Ok, IfSome, IfOk, option_map};
ghost use Rattle.json_document.specs.Standing.{data_of};
ghost use Rattle.upload_reader.specs.Member.{page_said, path_said, path_if_any};
ghost use Rattle.upload_reader.specs.inside.Unread.{IsReadAs};

use crate::members::{read_page, read_path};
use crate::unread::Unread;
use json_document::JsonPlace;
use page_tree::{NoMemory, Page};
use std::alloc::Global;
use xpath_child::Path;

// How many paths are kept: the fields of a usual form.
const MAX_PATHS: usize = 8;

/// The last paths of a lane, and its last page. At first there are none.
#[derive(Drop)]
pub struct Recent {
    paths: Vec<Path>,
    // the place of the one that was kept first
    oldest: usize,
    page: Option<Page>,
}

impl Recent {
    /// It takes no memory.
    pub fn new(alloc: Global) -> Recent {
        Recent {
            paths: Vec::new(alloc),
            oldest: 0,
            page: None,
        }
    }

    /// The path that the text has; else E8.
    pub(crate) fn path(&mut self, alloc: Global, text: &str) -> Result<Path, Unread>
        ensures { IsReadAs result (path_said text.now) }
    {
        if let Some(path) = self.find(text) {
            return Ok(path.copy()?);
        }
        let path = read_path(alloc, text)?;
        self.keep(path.copy()?)?;
        Ok(path)
    }

    pub(crate) fn path_if_any(
        &mut self,
        alloc: Global,
        text: Option<&str>,
    ) -> Result<Option<Path>, Unread>
        ensures { IsReadAs result (path_if_any (option_map (λ given. given.now) text.entry)) }
    {
        let Some(text) = text else {
            return Ok(None);
        };
        let path = self.path(alloc, text)?;
        Ok(Some(path))
    }

    /// The page that a value stands for; else E7.
    pub(crate) fn page(&mut self, alloc: Global, value: &JsonPlace<'_, '_>) -> Result<Page, Unread>
        ensures { IsReadAs result (page_said (data_of value.now)) }
    {
        let page = self.share(read_page(alloc, value)?)?;
        Ok(page)
    }

    // The path of that text, where it is kept.
    #[tactic(auto, unfolding(crate::specs::Member::path_said))]
    fn find(&self, text: &str) -> Option<&Path>
        ensures { IfSome result (λ path. path_said text.now ≡ Ok path.now) }
    {
        for path in &self.paths {
            if path.is_of(text) {
                return Some(path);
            }
        }
        None
    }

    // Keeps a path, in the place of the oldest where there are as many as may be.
    fn keep(&mut self, path: Path) -> Result<(), NoMemory> {
        if self.paths.len() < MAX_PATHS {
            self.paths.push(path)?;
            return Ok(());
        }
        if let Some(place) = self.paths.get_mut(self.oldest) {
            *place = path;
        }
        self.oldest = self.oldest.wrapping_add(1) % MAX_PATHS;
        Ok(())
    }

    // An equal page, which is the last one where that is equal.
    fn share(&mut self, page: Page) -> Result<Page, NoMemory>
        ensures { IfOk result (λ shared. shared ≡ page) }
    {
        if let Some(last) = &self.page {
            if last.same(&page) {
                return last.copy();
            }
        }
        self.page = Some(page.copy()?);
        Ok(page)
    }
}

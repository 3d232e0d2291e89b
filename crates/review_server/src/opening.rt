//! What is to be reviewed: the site is read, and the uploads are replayed on it.
ghost use Rattle.std.specs.Prelude.{◌≡◌, false, IfOk};
ghost use Rattle.byte_streams.specs.Reading.{WasRead};
ghost use Rattle.review_service.specs.Answering.{port_of};
ghost use Rattle.review_server.specs.Rounds.{IsReviewOf};

use crate::fault::ReviewFault;
use byte_streams::Source;
use page_tree::Text;
use replay_folder::{OpensUploads, Watches, replay_uploads};
use review_service::Review;
use site_opening::open_site;
use std::hash::RandomState;
use std::random::RandomSource;
use std::sync::Wait;
use std::thread::Threads;
use upload_files::GrowingFile;
use warp_server::Words;

/// Reads the site from that file, takes and replays the uploads that the words name, and makes the site's decisions. Its page is to be served at that port.
pub fn review_by<
    G: GrowingFile + Send + Drop,
    F: Source + Drop + Send,
    O: OpensUploads<File = F> + Sync,
    P: Watches + Send,
    T: AllocGlobal + RandomSource + Threads + Wait + Sync,
>(
    rt: &T,
    file: G,
    opener: &O,
    uploads: Words,
    watcher: &mut P,
    port: u16,
) -> Result<Review<G, F>, ReviewFault>
    ensures review { G.lost file ≡ false → IfOk result (IsReviewOf G.seen G.durable G.lost
        (O.opened opener.now) (O.listed opener.now) (WasRead F.answers F.remaining) uploads) }
    ensures port { IfOk result (λ review. port_of review ≡ port) }
{
    let alloc = rt.alloc();
    let opened = open_site(alloc, secret_keys(rt)?, file)?;
    let replayed = replay_uploads(rt, opener, uploads, watcher, &opened.site)?;
    let token = new_token(rt)?;
    Ok(Review::new(alloc, opened, replayed, port, token))
}

/// Without random bytes it ends as without memory.
pub(crate) fn secret_keys<T: RandomSource>(rt: &T) -> Result<RandomState, ReviewFault> {
    match RandomState::new(rt) {
        Ok(keys) => Ok(keys),
        Err(_) => Err(ReviewFault::NoMemory),
    }
}

// 32 of `[0-9a-f]` that nobody can tell before.
fn new_token<T: AllocGlobal + RandomSource>(rt: &T) -> Result<Text, ReviewFault> {
    let mut bytes = [0; 16];
    match rt.fill_bytes(&mut bytes) {
        Ok(()) => {
            let number = u128::from_le_bytes(bytes);
            Ok(Text::from(format!(in rt.alloc(); "{number:032x}")?))
        }
        Err(_) => Err(ReviewFault::NoMemory),
    }
}

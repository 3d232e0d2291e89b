//! The server of the page.
ghost use Rattle.std.specs.Prelude.{◌≡◌, None, IfOk, OnOk, OnErr, replicate};
ghost use Rattle.site_file.specs.SiteFile.{FileSite};
ghost use Rattle.warp_run.specs.declared.repaired.Repaired.{Repaired};
ghost use Rattle.http_rounds.specs.Rounds.{IsServingRound};
ghost use Rattle.review_service.specs.Answering.{AnswersReview, SettlesAtOnce, StandsShown, port_of};
ghost use Rattle.review_server.specs.Rounds.{browsers_of, review_of};

use crate::call::Reviewing;
use crate::fault::ReviewFault;
use crate::opening::{review_by, secret_keys};
use crate::site_lock::open_locked;
use byte_streams::Fed;
use disk_file::DiskFile;
use http_rounds::RoundServer;
use replay_folder::{Folders, ProgressLine};
use review_service::Review;
use std::fs::File;
use std::io::Eprint;
use std::net::Net;
use std::random::RandomSource;
use std::rt::Files;
use std::sync::Wait;
use std::thread::Threads;
use std::time::Clock;
use upload_files::GrowingFile;

// A form above 4,096 bytes is refused by the service, by a page.
const MAX_BODY: usize = 1 << 16;

/// The page over sockets.
#[derive(Drop)]
pub struct ReviewServer<S> {
    server: RoundServer<S>,
}

impl ReviewServer<Review<DiskFile, Fed<File>>> {
    /// Over the site's file and the uploads, at that port of this machine. How far the replay is is said where it is to be shown.
    pub fn open<
        T: AllocGlobal
            + Files<File = File>
            + Net
            + RandomSource
            + Clock
            + Eprint
            + Threads
            + Wait
            + Sync,
    >(
        rt: &T,
        reviewing: Reviewing,
        shown: bool,
    ) -> Result<ReviewServer<Review<DiskFile, Fed<File>>>, ReviewFault>
    where
        T::Dir: Send,
        ensures port { IfOk result (λ server. port_of (review_of server) ≡ reviewing.port) }
        ensures browsers { IfOk result (λ server. browsers_of server ≡ replicate 256 None) }
    {
        let address = reviewing.address();
        let Reviewing {
            port,
            site_file,
            uploads,
        } = reviewing;
        let file = open_locked(rt, site_file.as_str())?;
        let mut watcher = ProgressLine::new(rt, shown);
        let review = review_by(rt, file, &Folders::new(rt), uploads, &mut watcher, port)?;
        let keys = secret_keys(rt)?;
        Ok(ReviewServer {
            server: RoundServer::open(rt, address, keys, MAX_BODY, review)?,
        })
    }
}

impl<F: GrowingFile> ReviewServer<Review<F, Fed<File>>> {
    /// A round: what comes is answered, and the answers are sent. An error comes before anything is read.
    pub fn round<T: Clock>(&mut self, rt: &T) -> Result<(), ReviewFault>
        ensures round { OnOk result (IsServingRound (AnswersReview F.seen F.durable F.lost) SettlesAtOnce
            (review_of self.old) (browsers_of self.old) (review_of self.new) (browsers_of self.new)) }

        // As long as the site's file is open, what is shown is what it says.
        ensures shown { (first : FileSite) (undecided : Repaired)
            → StandsShown F.seen F.durable F.lost first undecided (review_of self.old)
            → StandsShown F.seen F.durable F.lost first undecided (review_of self.new) }
        ensures err { OnErr result (review_of self.new ≡ review_of self.old) }
    {
        Ok(self.server.round(rt)?)
    }
}

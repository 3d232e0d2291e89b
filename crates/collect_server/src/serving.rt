//! The server of the collector.
ghost use Rattle.std.specs.Prelude.{◌≡◌, ℕ, List, None, IfOk, OnOk, OnErr, option_map, replicate, string_bytes};
ghost use Rattle.upload_folder.specs.Told.{ClientLines};
ghost use Rattle.collect_http.specs.Answering.{Answers, CollectorStandsFor, HasFew, RoundSettles, origin_of};
ghost use Rattle.http_rounds.specs.Rounds.{IsServingRound};
ghost use Rattle.collect_server.specs.Rounds.{StandsTold, collector_of, connections_of};

use crate::call::Collecting;
use crate::disk_folder::DiskFolder;
use crate::recorder::RECORDER;
use crate::round_collector::RoundCollector;
use crate::serve_fault::ServeFault;
use collect_http::{Collector, Names};
use disk_file::DiskFile;
use http_rounds::RoundServer;
use page_tree::Text;
use std::fs::File;
use std::hash::RandomState;
use std::io::Eprint;
use std::net::Net;
use std::random::RandomSource;
use std::rt::{Clock, Files};
use upload_files::GrowingFile;
use upload_folder::{Clients, Folder};

// So many clients may have a file.
const MAX_FILES: u64 = 100000;

// Bodies above 1 MiB are refused by the collector, so that the answer can be read by a page of another origin.
const MAX_BODY: usize = (1 << 20) + (1 << 16);

/// The collector over sockets. What browsers send is stored, and answered in rounds.
#[derive(Drop)]
pub struct Serving<F, D> {
    server: RoundServer<RoundCollector<F, D>>,
}

impl<
    'a,
    R: AllocGlobal + Files<File = File> + Net + Clock + RandomSource + Eprint + Clone + Drop,
> Serving<DiskFile, DiskFolder<'a, R>> {
    /// Over the files of that folder and that port of this machine.
    pub fn open(
        rt: &'a R,
        collecting: Collecting,
    ) -> Result<Serving<DiskFile, DiskFolder<'a, R>>, ServeFault>
        ensures origin { IfOk result (λ serving. origin_of (collector_of serving) ≡ collecting.origin) }
        ensures peers { IfOk result (λ serving. connections_of serving ≡ replicate 256 None) }
        ensures few { IfOk result (λ serving. HasFew (collector_of serving)) }
    {
        let alloc = rt.alloc();
        let address = collecting.address();
        let Collecting {
            folder,
            origin,
            limit,
            ..
        } = collecting;
        let folder = DiskFolder::open(rt, folder.as_str(), MAX_FILES)?;
        let keys = secret_keys(rt)?;
        let clients = Clients::new(alloc, folder, limit, keys);
        let names = Names::new(secret_keys(rt)?, secret_keys(rt)?);
        let collector = Collector::new(alloc, clients, names, keys, string_of(origin), RECORDER);
        let service = RoundCollector { collector };
        Ok(Serving {
            server: RoundServer::open(rt, address, keys, MAX_BODY, service)?,
        })
    }
}

// Without random bytes it ends as without memory.
fn secret_keys<R: RandomSource>(rt: &R) -> Result<RandomState, ServeFault> {
    match RandomState::new(rt) {
        Ok(keys) => Ok(keys),
        Err(_) => Err(ServeFault::NoMemory),
    }
}

fn string_of(text: Option<Text>) -> Option<String>
    ensures { option_map string_bytes result ≡ text }
{
    match text {
        Some(text) => Some(text.into_string()),
        None => None,
    }
}

impl<F: GrowingFile + Drop, D: Folder<F>> Serving<F, D> {
    /// A round: what comes is answered, the collector settles, and where it stands the answers are sent. An error comes
    /// before anything is read.
    pub fn round<R: Clock>(&mut self, rt: &R) -> Result<(), ServeFault>
        ensures round { OnOk result (IsServingRound (Answers F.seen F.durable F.lost D.lies D.known)
            (RoundSettles F.seen F.durable F.lost D.lies D.known)
            (collector_of self.old) (connections_of self.old) (collector_of self.new) (connections_of self.new)) }
        ensures told { OnOk result ((kept : List ℕ → ClientLines)
            → CollectorStandsFor F.seen F.durable F.lost D.lies D.known (collector_of self.old) kept
            → StandsTold F.seen F.durable F.lost D.lies D.known kept (collector_of self.new)) }
        ensures few { HasFew (collector_of self.old) → HasFew (collector_of self.new) }
        ensures err { OnErr result (collector_of self.new ≡ collector_of self.old) }
    {
        Ok(self.server.round(rt)?)
    }
}

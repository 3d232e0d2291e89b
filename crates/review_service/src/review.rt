//! The service.
ghost use Rattle.std.specs.Prelude.{◌≡◌, ◌<◌, [], vec_len, vec_capacity, OnOk, OnErr};
ghost use Rattle.http_server.specs.Response.{IsBlank, IsResponse};
ghost use Rattle.conflict_desk.specs.declared.decision.Decision.{Decision as Decided};
ghost use Rattle.site_file.specs.SiteFile.{FileSite};
ghost use Rattle.site_file.specs.Kept.{AnswersAsFile, file_site};
ghost use Rattle.site_line.specs.Reading.{site_decisions};
ghost use Rattle.site_opening.specs.Opening.{IsSiteInFile};
ghost use Rattle.warp_run.specs.Settle.{after_decisions};
ghost use Rattle.warp_run.specs.declared.repaired.Repaired.{Repaired as Standing};
ghost use Rattle.review_service.specs.Answering.{AnswersReview, AnswersAsked, IsDecided, SettlesAtOnce, ShowsFile, TellsDecision, port_of, replayed_of, repaired_shown, token_of};
ghost use Rattle.review_service.specs.Fields.{own_fields};
ghost use Rattle.review_service.specs.Showing.{ShowsView};
ghost use Rattle.review_requests.specs.Verdict.{asked_of};
ghost use Rattle.review_requests.specs.declared.verdict.Judged.TheVariants.{Decides};

use crate::deciding::{begin_sending_on, next_place, say_bare, tell_undecided};
use crate::refusals::refuse;
use crate::showing::Shown;
use byte_streams::{Fed, Source};
use bytes::Bytes;
use conflict_desk::Decision;
use decision_file::{DecisionFile, Undecided};
use http::Request;
use http_header::LOCATION;
use http_rounds::RoundService;
use http_server::{Response, Service};
use page_tree::{NoMemory, Text};
use replay_folder::Replayed;
use review_requests::{Judged, View, judge};
use site_file::SiteFile;
use site_opening::SiteInFile;
use std::alloc::{AllocError, Global};
use std::fs::File;
use upload_files::GrowingFile;
use upload_reader::Client;

/// The administrator's page: what replaying came to on the site of a file, and that file, to which decisions are added.
#[derive(Drop)]
pub struct Review<F, R: Source> {
    alloc: Global,
    site: SiteFile,
    decisions: DecisionFile<F>,
    replayed: Replayed<R>,
    port: u16,
    // of this start, in each form
    token: Text,
}

impl<F: GrowingFile, R: Source> Review<F, R> {
    /// The page at that port, over the file that the site was read from, and what replaying on that site came to.
    pub fn new(
        alloc: Global,
        opened: SiteInFile<F>,
        replayed: Replayed<R>,
        port: u16,
        token: Text,
    ) -> Review<F, R>
        ensures shown { IsSiteInFile F.seen F.durable F.lost opened → (undecided : Standing)
            → replayed.repaired ≡ after_decisions (site_decisions (file_site opened.site)) undecided
            → (first : FileSite) × AnswersAsFile opened.site first
            × ShowsFile F.seen F.durable F.lost first undecided result }
        ensures replayed { replayed_of result ≡ replayed }
        ensures port { port_of result ≡ port }
        ensures token { token_of result ≡ token }
    {
        let SiteInFile { site, file, whole } = opened;
        Review {
            alloc,
            site,
            decisions: DecisionFile::new(file, whole),
            replayed,
            port,
            token,
        }
    }

    fn answer(&mut self, request: &Request<Bytes>, response: &mut Response) -> Result<(), NoMemory>
        requires { IsBlank response.old }
        ensures told { OnOk result (AnswersAsked F.seen F.durable F.lost
            self.old response.new self.new (asked_of request.now (port_of self.old) (token_of self.old))) }
        ensures untold { OnErr result (self.new ≡ self.old) }
    {
        match judge(self.alloc, request, self.port, self.token.as_str())? {
            Judged::Refused(refusal) => refuse(
                self.alloc,
                &self.replayed.repaired,
                self.port,
                refusal,
                response,
            ),
            Judged::Shows(view) => self.show(&view, request, response),
            Judged::Decides(decision) => self.decide(decision, response),
        }
    }

    fn show(
        &self,
        view: &View,
        request: &Request<Bytes>,
        response: &mut Response,
    ) -> Result<(), NoMemory>
        requires { IsBlank response.old }
        ensures { OnOk result (ShowsView self.now.replayed view.now response.new) }
    {
        let shown = Shown {
            alloc: self.alloc,
            site: &self.site,
            replayed: &self.replayed,
            is_closed: !self.decisions.is_open(),
            token: self.token.as_str(),
            told: told_in(request.uri().query()),
        };
        shown.show(view, response)
    }

    // The answer is made but for a place before the desk is asked, so a decision that is made is told.
    fn decide(&mut self, decision: Decision, response: &mut Response) -> Result<(), NoMemory>
        requires { IsBlank response.old }
        ensures told { OnOk result (AnswersAsked F.seen F.durable F.lost
            self.old response.new self.new (Decides decision)) }
        ensures untold { OnErr result (self.new ≡ self.old) }
    {
        let client = decision.client.copy()?;
        let visit = decision.visit;
        begin_sending_on(response)?;
        let decided = self.keep(decision);
        self.tell(decided, &client, visit, response);
        Ok(())
    }

    fn keep(&mut self, decision: Decision) -> Result<(), Undecided>
        ensures { IsDecided F.seen F.durable F.lost self.old decision result self.new }
    {
        let repaired = &mut self.replayed.repaired;
        self.decisions.decide(self.alloc, repaired, decision)
    }

    // Whoever decided is sent on, or told why nothing was decided.
    fn tell(
        &self,
        decided: Result<(), Undecided>,
        client: &Client,
        visit: u64,
        response: &mut Response,
    )
        requires response { IsResponse 303 own_fields [] response.old }
        requires room { vec_len response.old.headers < vec_capacity response.old.headers }
        ensures { (decision : Decided) → decision.client ≡ client.now → decision.visit ≡ visit
            → TellsDecision decision (repaired_shown self.now).desk decided response.new }
    {
        let repaired = &self.replayed.repaired;
        match decided {
            Ok(()) => {
                let place = next_place(self.alloc, &repaired.desk, client, visit);
                response.headers.push_reserved((LOCATION, place));
            }
            Err(why) => tell_undecided(self.alloc, repaired, client, why, response),
        }
    }
}

// The number behind `told=` in a query.
fn told_in(query: Option<&str>) -> Option<u64> {
    let word = query?
        .split('&')
        .find_map(|part| part.strip_prefix("told="))?;
    word.parse().ok()
}

impl<F: GrowingFile> Service for Review<F, Fed<File>> {
    ghost answers = { λ old request response new. AnswersReview F.seen F.durable F.lost old request response new };

    /// It never gives up: without memory for an answer the status alone says so.
    fn call(
        &mut self,
        request: &Request<Bytes>,
        response: &mut Response,
    ) -> Result<(), AllocError> {
        match self.answer(request, response) {
            Ok(()) => Ok(()),
            Err(_) => {
                say_bare(response);
                Ok(())
            }
        }
    }
}

impl<F: GrowingFile> RoundService for Review<F, Fed<File>> {
    ghost settles = { SettlesAtOnce };

    /// A decision is synced in its own call, so what is answered stands.
    fn settle(&mut self, _is_crowded: bool) -> bool {
        true
    }

    fn has_read_enough(&self) -> bool {
        false
    }
}

//! The upload of one client, message by message.
ghost use Rattle.std.specs.Prelude.{ℕ, ◌≡◌, ◌≢◌, ◌+◌, ◌≤◌, List, [], ◌++◌, length, true, false, Ok, Some, None, IsSome, IfSome, IfOk, IfErr, IsTrue};
ghost use Rattle.byte_streams.specs.Answers.{failures_of};
ghost use Rattle.byte_streams.specs.Cutting.{cut, StopsAtEnd};
ghost use Rattle.byte_streams.specs.Reading.{WasRead, ReadsWhile, uncut_bytes};
ghost use Rattle.upload_reader.specs.Limits.{max_line_bytes, max_messages};
ghost use Rattle.upload_reader.specs.Next.{next_of, failed_reads, IfGot, IfOver, IsReal};
ghost use Rattle.upload_reader.specs.Message.{is_blank, IsPositive};
ghost use Rattle.upload_reader.specs.Stream.{messages_of, MayFollow};
ghost use Rattle.upload_reader.specs.Upload.{Begins, Refuses, IsUntouched, upload_behind, with_answer, GivesFirst, EndsBy, NothingMore};

use crate::client::Client;
use crate::documents::Documents;
use crate::ending::Ending;
use crate::greeting::greet;
use crate::limits::MAX_LINE_BYTES;
use crate::line_reading::{is_blank, next_text};
use crate::next::Next;
use crate::progress::Progress;
use crate::recent::Recent;
use crate::refused::Refused;
use crate::session::Session;
use byte_streams::{Lines, Source};
use std::alloc::Global;
use std::marker::Model;
use std::snapshot::Snapshot;

/// A client's lane behind its hello. It keeps one line at a time, and of the messages that it gave what the session keeps.
#[derive(Drop)]
pub struct Upload<R: Source> {
    client: Client,
    lines: Lines<R>,
    documents: Documents,
    recent: Recent,
    progress: Progress,
    ending: Option<Ending>,
    start: Snapshot<Lines<R>>,
}

impl<R: Source> Model for Upload<R> {
    ghost use Rattle.std.specs.Coded.{codes};
    ghost use Rattle.page_tree.specs.contracts.page.Page as pages;
    ghost use Rattle.upload_reader.specs.Upload.{UploadState};

    ghost Value = { UploadState R };

    ghost coded = { Prim.hlevel (codes, pages.the_row.coded) };

    ghost use Rattle.upload_reader.specs.inside.Taken.{upload_of, LaneTaken};

    ghost view = { λ u. upload_of u.client u.lines u.progress u.start.value.place u.ending };

    ghost invariant = { λ u. LaneTaken (upload_of u.client u.lines u.progress u.start.value.place u.ending) u.progress.lines };
}

impl<R: Source> Upload<R> {
    /// The upload that begins with the first line that isn't blank, which is its hello, `{"t":"hello","client":..}`. Its lines are numbered from 1 at the
    /// first line that is read here, and its session is new. What was read behind the hello is kept.
    pub fn hello(alloc: Global, lines: Lines<R>) -> Result<Upload<R>, Refused<R>>
        ensures begins { IfOk result (λ upload. Begins lines upload) }
        ensures refused { IfErr result (λ refused. Refuses lines refused.lines refused.fault) }
    {
        let mut lines = lines;
        match greet(alloc, &mut lines) {
            Ok((client, number)) => Ok(Upload::begin(lines, client, Session::new(alloc), number)),
            Err(fault) => Err(Refused { lines, fault }),
        }
    }

    /// A lane without a hello, behind that session. Its lines are numbered from 1.
    pub fn open(lines: Lines<R>, client: Client, session: Session) -> Upload<R>
        ensures { result ≡ upload_behind client lines session 0 }
    {
        Upload::begin(lines, client, session, 0)
    }

    /// The same lane behind another session, as that of the messages that were taken in an earlier upload of its client. Its lines keep their numbers.
    pub fn resume(self, session: Session) -> Upload<R>
        requires { IsUntouched self }
        ensures { result ≡ record self { lane = record self.lane { earlier = session } } }
    {
        let Self {
            client,
            lines,
            documents,
            recent,
            progress,
            ending: _,
            start,
        } = self;
        Upload {
            progress: progress.resume(session),
            client,
            lines,
            documents,
            recent,
            ending: None,
            start,
        }
    }

    // A lane behind so many lines.
    fn begin(lines: Lines<R>, client: Client, session: Session, number: u64) -> Upload<R>
        requires { number ≤ lines.place }
        ensures { result ≡ upload_behind client lines session number }
    {
        Upload {
            progress: Progress::begin(session, number, lines.fault()),
            start: Snapshot::of(&lines),
            recent: Recent::new(lines.allocator()),
            client,
            lines,
            documents: Documents::new(),
            ending: None,
        }
    }

    /// Whose upload it is.
    pub fn client(&self) -> &Client
        ensures { result.now ≡ self.now.client }
    {
        &self.client
    }

    /// The allocator of what it gives.
    pub fn allocator(&self) -> Global {
        self.lines.allocator()
    }

    /// The session of the messages that it began with and of those that were given.
    pub fn session(&self) -> &Session
        ensures { result.now ≡ self.now.lane.earlier ++ messages_of self.now.given }
    {
        self.progress.session()
    }

    /// The source, without what was read of it. No read was made after the input's end, and one failed just where the upload ended by that.
    pub fn into_reader(self) -> R
        ensures read { WasRead R.answers R.remaining self.lines.first result self.lines.answers }
        ensures same { R.lender result ≡ R.lender self.lines.first }
        ensures ends { StopsAtEnd self.lines.answers }
        ensures failures { self.lane.fault ≡ None → failures_of self.lines.answers ≡ failed_reads self.ending }
    {
        self.lines.into_reader()
    }

    /// Whether what was read tells what `next` gives, which then reads nothing. It doesn't say so of a blank line, as the one behind that may lack.
    pub fn has_next(&self) -> bool
        ensures told { IsTrue result → ¬ NothingMore self.now self.now.lines.answers }
        ensures none { result ≡ false → self.now.ending ≡ None → self.now.lines.fault ≡ None → (line : List ℕ)
            → cut max_line_bytes (uncut_bytes self.now.lines) None ≡ Some (Ok line) → is_blank line ≡ true }
    {
        if self.ending.is_some() {
            return false;
        }
        match self.lines.held_line(MAX_LINE_BYTES) {
            Some(line) => !is_blank(line),
            None => false,
        }
    }

    /// The next message with its cost, or how the lane ended. After the end the same answer comes again, and nothing more is read.
    pub fn next(&mut self) -> Next
        // A read was made only where those before it told of no further message and no end, and none on lines that had a fault. Nothing else changes but
        // what was given.
        ensures reads { ReadsWhile (NothingMore self.old) self.old.lines self.new.lines }
        ensures unread { IsSome self.old.lines.fault → self.new.lines ≡ self.old.lines }
        ensures given { self.new ≡ with_answer result self.new.lines self.old }

        // The messages that were given are the first ones of the stream, however the input goes on, and the end follows the last of them.
        ensures first { GivesFirst self.new }
        ensures over { IfOver result (EndsBy self.new) }
        ensures real { IfOver result IsReal }

        // A message may follow those before it. Its cost and the number of its visit are at least 1. No more are given than a lane may have.
        ensures lawful { IfGot result (λ message cost. MayFollow self.old.lane self.old.given message) }
        ensures priced { IfGot result IsPositive }
        ensures few { length self.new.given ≤ max_messages }

        // The end is given for good.
        ensures again { IfSome self.old.ending (λ ending. (result ≡ next_of ending) × (self.new ≡ self.old)) }
    {
        match self.ending {
            Some(ending) => return Next::of(ending),
            None => {}
        }
        let alloc = self.lines.allocator();
        let (number, text) = next_text(&mut self.lines, self.progress.lines());
        let answer = self.progress.answer(
            alloc,
            number,
            text,
            self.lines.line(),
            &mut self.documents,
            &mut self.recent,
        );
        self.ending = answer.ending();
        answer
    }
}

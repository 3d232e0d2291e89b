//! How far a lane was taken.
ghost use Rattle.std.specs.Prelude.{◌≡◌, ◌≤◌, [], ◌++◌, length, false, IfErr, OnOk};
ghost use Rattle.upload_reader.specs.Limits.{max_line_bytes, max_messages};
ghost use Rattle.upload_reader.specs.Message.{is_blank, line_said, IsPositive};
ghost use Rattle.upload_reader.specs.Next.{given_by, IfGot};
ghost use Rattle.upload_reader.specs.Stream.{messages_of};

use crate::documents::Documents;
use crate::lane_fault::{LaneEnd, LaneFault};
use crate::limits::MAX_MESSAGES;
use crate::line::Line;
use crate::line_reading::read_line;
use crate::message::Message;
use crate::next::Next;
use crate::recent::Recent;
use crate::session::Session;
use crate::session_fault::SessionFault;
use crate::trace::Trace;
use crate::unread::Unread;
use byte_streams::LineFault;
use std::alloc::Global;
use std::snapshot::Snapshot;

/// The session of the messages so far, and how many lines and messages there were. Where the lane began is known in proofs alone.
#[derive(Drop)]
pub(crate) struct Progress {
    session: Session,
    lines: u64,
    count: u32,
    given: Trace<(Message, u32)>,
    first_session: Snapshot<Session>,
    first_lines: Snapshot<u64>,
    first_fault: Snapshot<Option<LineFault>>,
    ghost known: { session ≡ first_session.value ++ messages_of given.items },
    ghost counted: { count ≡ length given.items },
    ghost few: { count ≤ max_messages },
}

impl Progress {
    ghost use Rattle.upload_reader.specs.inside.Taken.{lane_of, AnswersSaid, fault_next};
    ghost use Rattle.upload_reader.specs.declared.line.Line.TheVariants.{Says};
    ghost use Rattle.upload_reader.specs.Stream.{MayFollow};

    /// A lane that begins behind this session and so many lines. The fault is the one that its lines have.
    pub(crate) fn begin(session: Session, lines: u64, fault: Option<LineFault>) -> Progress
        ensures lane { lane_of result ≡ record { earlier = session; lines = lines; fault = fault } }
        ensures none { result.given.items ≡ [] }
        ensures lines { result.lines ≡ lines }
    {
        Progress {
            first_session: Snapshot::of(&session),
            first_lines: Snapshot::of(&lines),
            first_fault: Snapshot::of(&fault),
            session,
            lines,
            count: 0,
            given: Trace::new(),
        }
    }

    /// The same lines behind another session, with no message given.
    pub(crate) fn resume(self, session: Session) -> Progress
        ensures lane { lane_of result ≡ record (lane_of self) { earlier = session } }
        ensures none { result.given.items ≡ [] }
        ensures lines { result.lines ≡ self.lines }
    {
        Progress {
            first_session: Snapshot::of(&session),
            session,
            lines: self.lines,
            count: 0,
            given: Trace::new(),
            first_lines: self.first_lines,
            first_fault: self.first_fault,
        }
    }

    pub(crate) fn session(&self) -> &Session
        ensures { result.now ≡ (lane_of self.now).earlier ++ messages_of self.now.given.items }
    {
        &self.session
    }

    /// How many lines were taken.
    pub(crate) fn lines(&self) -> u64
        ensures { result ≡ self.now.lines }
    {
        self.lines
    }

    /// What is answered at the line of that number: where there is one, by what it says, and else by the fault in its place.
    pub(crate) fn answer(
        &mut self,
        alloc: Global,
        number: u64,
        text: Result<(), LineFault>,
        line: &[u8],
        documents: &mut Documents,
        recent: &mut Recent,
    ) -> Next
        requires text { OnOk text (is_blank line.now ≡ false) }
        requires short { OnOk text (length line.now ≤ max_line_bytes) }
        ensures lane { lane_of self.new ≡ lane_of self.old }
        ensures given { self.new.given.items ≡ self.old.given.items ++ given_by result }
        ensures lines { IfGot result (λ _ _. self.new.lines ≡ number) }
        ensures said { OnOk text (AnswersSaid self.old number (line_said line.now) (length line.now) result) }
        ensures stopped { IfErr text (λ fault. result ≡ fault_next number fault) }
        ensures priced { IfGot result IsPositive }
        ensures lawful { IfGot result (λ message cost. MayFollow (lane_of self.old) self.old.given.items message) }
    {
        match text {
            Ok(()) => self.take(alloc, number, line, documents, recent),
            Err(fault) => Next::without_line(number, fault),
        }
    }

    // Takes the line of that number, which isn't blank.
    fn take(
        &mut self,
        alloc: Global,
        number: u64,
        line: &[u8],
        documents: &mut Documents,
        recent: &mut Recent,
    ) -> Next
        requires text { is_blank line.now ≡ false }
        requires short { length line.now ≤ max_line_bytes }
        ensures lane { lane_of self.new ≡ lane_of self.old }
        ensures given { self.new.given.items ≡ self.old.given.items ++ given_by result }
        ensures lines { IfGot result (λ _ _. self.new.lines ≡ number) }
        ensures said { AnswersSaid self.old number (line_said line.now) (length line.now) result }
        ensures priced { IfGot result IsPositive }
        ensures lawful { IfGot result (λ message cost. MayFollow (lane_of self.old) self.old.given.items message) }
    {
        let cost = line.len() as u32;
        match read_line(alloc, line, documents, recent) {
            Ok(Line::Says(message)) => self.take_message(number, message, cost),
            Ok(Line::Bye) => Next::Over(LaneEnd::Bye),
            Err(Unread::Fault(kind)) => Next::at(number, kind),
            Err(Unread::NoMemory) => Next::GaveUp,
        }
    }

    // E10 where there is no room for it, E9 where it doesn't fit.
    fn take_message(&mut self, number: u64, message: Message, cost: u32) -> Next
        requires priced { IsPositive message cost }
        ensures lane { lane_of self.new ≡ lane_of self.old }
        ensures given { self.new.given.items ≡ self.old.given.items ++ given_by result }
        ensures lines { IfGot result (λ _ _. self.new.lines ≡ number) }
        ensures said { AnswersSaid self.old number (Ok (Says message)) cost result }
        ensures priced { IfGot result IsPositive }
        ensures lawful { IfGot result (λ message cost. MayFollow (lane_of self.old) self.old.given.items message) }
    {
        if self.count == MAX_MESSAGES {
            return Next::at(number, LaneFault::LaneFull);
        }
        match self.session.accept(&message) {
            Ok(()) => {
                let costed = (message, cost);
                self.lines = number;
                self.count += 1;
                self.given = self.given.and(&costed);
                Next::Got(costed.0, costed.1)
            }
            Err(SessionFault::NoMemory) => Next::GaveUp,
            Err(fault) => Next::at(number, LaneFault::BadSession(fault)),
        }
    }
}

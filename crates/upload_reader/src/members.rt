//! The members of a message, each with the fault where it isn't so. Nothing is copied.
ghost use Rattle.std.specs.Prelude.{◌≡◌, option_map, option_and_then, codes, Some, None};
ghost use Rattle.std.specs.Option.{option_map_or, ok_or};
ghost use Rattle.serde_json.specs.Find.{as_str};
ghost use Rattle.json_document.specs.Standing.{data_of};
ghost use Rattle.upload_reader.specs.Member.{member_at, member_as, number_in, optional_number_at, optional_text_at, page_said, path_said};
ghost use Rattle.upload_reader.specs.Message.{visit_in, time_in};
ghost use Rattle.upload_reader.specs.inside.Unread.{IsReadAs, ReadsAs};
ghost use Rattle.upload_reader.specs.declared.lane_fault.LaneFault.TheVariants.{BadMessage};

use crate::lane_fault::LaneFault;
use crate::last_members::LastMembers;
use crate::limits::MAX_NUMBER;
use crate::unread::Unread;
use json_document::JsonPlace;
use page_tree::{Page, PageFault};
use std::alloc::Global;
use std::marker::Model;
use std::snapshot::Snapshot;
use xpath_child::{Path, PathFaultKind};

// E6: each fault of a member.
const BAD_MESSAGE: Unread = Unread::Fault(LaneFault::BadMessage);

/// The members of a message, which one walk over them has found. Contracts see the tokens of the message.
#[derive(Drop)]
pub(crate) struct MessageMembers<'t, 'a> {
    last: LastMembers<'t, 'a>,
    message: Snapshot<JsonPlace<'t, 'a>>,
}

impl<'t, 'a> Model for MessageMembers<'t, 'a> {
    ghost use Rattle.std.specs.Prelude.{List};
    ghost use Rattle.json.specs.Token.{Token, tokens_code};

    ghost Value = { List Token };

    ghost coded = { tokens_code };

    ghost use Rattle.json_document.specs.Standing.{data_of};
    ghost use Rattle.upload_reader.specs.inside.Walked.{AreLastMembers};

    ghost view = { λ m. m.message.value };

    ghost invariant = { λ m. AreLastMembers (data_of m.message.value) m.last };
}

impl<'t, 'a> MessageMembers<'t, 'a> {
    pub(crate) fn of(message: &JsonPlace<'t, 'a>) -> MessageMembers<'t, 'a>
        ensures { result ≡ message.now }
    {
        MessageMembers {
            last: LastMembers::of(message),
            message: Snapshot::of(message),
        }
    }

    pub(crate) fn kind(&self) -> Result<&'a str, Unread>
        ensures { ReadsAs (λ text. text.now) result (member_as as_str (codes "t") (data_of self.now)) }
    {
        text(&self.last.kind)
    }

    pub(crate) fn visit(&self) -> Result<u64, Unread>
        ensures { IsReadAs result (visit_in (data_of self.now)) }
    {
        number(&self.last.visit, 1)
    }

    pub(crate) fn time(&self) -> Result<u64, Unread>
        ensures { IsReadAs result (time_in (data_of self.now)) }
    {
        number(&self.last.at, 0)
    }

    /// 0 where the member is absent.
    pub(crate) fn parent(&self) -> Result<u64, Unread>
        ensures { IsReadAs result (optional_number_at (codes "parent") (data_of self.now)) }
    {
        optional_number(&self.last.parent)
    }

    /// 0 where the member is absent.
    pub(crate) fn from(&self) -> Result<u64, Unread>
        ensures { IsReadAs result (optional_number_at (codes "from") (data_of self.now)) }
    {
        optional_number(&self.last.from)
    }

    pub(crate) fn address(&self) -> Result<&'a str, Unread>
        ensures { ReadsAs (λ text. text.now) result (member_as as_str (codes "path") (data_of self.now)) }
    {
        text(&self.last.address)
    }

    /// The member's value, whatever it is.
    pub(crate) fn page(&self) -> Result<&JsonPlace<'t, 'a>, Unread>
        ensures { ReadsAs (λ place. data_of place.now) result (member_at (codes "page") (data_of self.now)) }
    {
        self.last.page.as_ref().ok_or(BAD_MESSAGE)
    }

    pub(crate) fn target(&self) -> Result<&'a str, Unread>
        ensures { ReadsAs (λ text. text.now) result (member_as as_str (codes "target") (data_of self.now)) }
    {
        text(&self.last.target)
    }

    pub(crate) fn value(&self) -> Result<&'a str, Unread>
        ensures { ReadsAs (λ text. text.now) result (member_as as_str (codes "value") (data_of self.now)) }
    {
        text(&self.last.value)
    }

    /// None where the member is absent.
    pub(crate) fn button(&self) -> Result<Option<&'a str>, Unread>
        ensures { ReadsAs (option_map (λ text. text.now)) result (optional_text_at (codes "by") (data_of self.now)) }
    {
        optional_text(&self.last.button)
    }

    /// 0 where the member is absent.
    pub(crate) fn req(&self) -> Result<u64, Unread>
        ensures { IsReadAs result (optional_number_at (codes "req") (data_of self.now)) }
    {
        optional_number(&self.last.req)
    }
}

/// A whole number from `least` to the greatest.
#[tactic(auto, unfolding(crate::specs::Member::number_in))]
fn number_in(value: &JsonPlace<'_, '_>, least: u64) -> Option<u64>
    ensures { result ≡ number_in least (data_of value.now) }
{
    let n = value.as_u64()?;
    if least <= n && n <= MAX_NUMBER {
        Some(n)
    } else {
        None
    }
}

fn number(member: &Option<JsonPlace<'_, '_>>, least: u64) -> Result<u64, Unread>
    ensures { IsReadAs result (ok_or (option_and_then (number_in least) (option_map data_of member.now)) BadMessage) }
{
    let Some(value) = member else {
        return Err(BAD_MESSAGE);
    };
    number_in(value, least).ok_or(BAD_MESSAGE)
}

fn optional_number(member: &Option<JsonPlace<'_, '_>>) -> Result<u64, Unread>
    ensures { IsReadAs result
        (ok_or (option_map_or (number_in 0) (option_map data_of member.now) (Some 0)) BadMessage) }
{
    let Some(value) = member else {
        return Ok(0);
    };
    number_in(value, 0).ok_or(BAD_MESSAGE)
}

fn text<'a>(member: &Option<JsonPlace<'_, 'a>>) -> Result<&'a str, Unread>
    ensures { ReadsAs (λ text. text.now) result
        (ok_or (option_and_then as_str (option_map data_of member.now)) BadMessage) }
{
    let Some(value) = member else {
        return Err(BAD_MESSAGE);
    };
    value.as_str().ok_or(BAD_MESSAGE)
}

fn optional_text<'a>(member: &Option<JsonPlace<'_, 'a>>) -> Result<Option<&'a str>, Unread>
    ensures { ReadsAs (option_map (λ text. text.now)) result
        (ok_or (option_map_or (λ d. option_map Some (as_str d)) (option_map data_of member.now) (Some None)) BadMessage) }
{
    let Some(value) = member else {
        return Ok(None);
    };
    match value.as_str() {
        Some(text) => Ok(Some(text)),
        None => Err(BAD_MESSAGE),
    }
}

/// The page that a value stands for; else E7.
#[tactic(auto, unfolding(crate::specs::Member::page_said))]
pub(crate) fn read_page(alloc: Global, value: &JsonPlace<'_, '_>) -> Result<Page, Unread>
    ensures { IsReadAs result (page_said (data_of value.now)) }
{
    match Page::from_place(alloc, value) {
        Ok(page) => Ok(page),
        Err(PageFault::NoMemory) => Err(Unread::NoMemory),
        Err(fault) => Err(Unread::Fault(LaneFault::BadPage(fault))),
    }
}

/// The path that has the text; else E8.
#[tactic(auto, unfolding(crate::specs::Member::path_said))]
pub(crate) fn read_path(alloc: Global, text: &str) -> Result<Path, Unread>
    ensures { IsReadAs result (path_said text.now) }
{
    match Path::read(alloc, text) {
        Ok(path) => Ok(path),
        Err(fault) => {
            if fault.kind == PathFaultKind::NoMemory {
                Err(Unread::NoMemory)
            } else {
                Err(Unread::Fault(LaneFault::BadTarget(fault)))
            }
        }
    }
}

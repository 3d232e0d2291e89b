//! The members of a line, each with what is wrong with it. Nothing is copied.
ghost use Rattle.std.specs.Prelude.{◌≡◌, codes, Some};
ghost use Rattle.serde_json.specs.Find.{as_str, as_array};
ghost use Rattle.json_document.specs.Standing.{data_of, items_behind};
ghost use Rattle.upload_reader.specs.Member.{number_in};
ghost use Rattle.site_file.specs.Addition.{has_named, member_given, page_given, client_given};
ghost use Rattle.site_file.specs.inside.{GivesMember};

use crate::wrong::{LineMember, LineWrong, MemberWrong, NoAddition};
use json_document::{Items, JsonPlace};
use page_tree::{Page, PageFault};
use std::alloc::Global;
use upload_reader::{Client, HelloFault, MAX_NUMBER};

/// A member that is refused.
pub(crate) fn wrong_in(which: LineMember, why: MemberWrong) -> NoAddition
    ensures { result ≡ NoAddition.Wrong (LineWrong.In which why) }
{
    NoAddition::Wrong(LineWrong::In { which, why })
}

pub(crate) fn has(line: &JsonPlace<'_, '_>, name: &str) -> bool
    ensures { result ≡ has_named name.now (data_of line.now) }
{
    line.get(name).is_some()
}

/// A member that must be there; Z2.
fn value_at<'t, 'a>(
    line: &JsonPlace<'t, 'a>,
    which: LineMember,
    name: &str,
) -> Result<JsonPlace<'t, 'a>, NoAddition>
    ensures { GivesMember data_of result (member_given which Some name.now (data_of line.now)) }
{
    line.get(name).ok_or(wrong_in(which, MemberWrong::Form))
}

pub(crate) fn text_at<'a>(
    line: &JsonPlace<'_, 'a>,
    which: LineMember,
    name: &str,
) -> Result<&'a str, NoAddition>
    ensures { GivesMember (λ text. text.now) result (member_given which as_str name.now (data_of line.now)) }
{
    let Some(value) = line.get(name) else {
        return Err(wrong_in(which, MemberWrong::Form));
    };
    value.as_str().ok_or(wrong_in(which, MemberWrong::Form))
}

pub(crate) fn items_at<'t, 'a>(
    line: &JsonPlace<'t, 'a>,
    which: LineMember,
    name: &str,
) -> Result<Items<'t, 'a>, NoAddition>
    ensures { GivesMember items_behind result (member_given which as_array name.now (data_of line.now)) }
{
    let Some(value) = line.get(name) else {
        return Err(wrong_in(which, MemberWrong::Form));
    };
    value.items().ok_or(wrong_in(which, MemberWrong::Form))
}

/// The number of a visit.
#[tactic(auto, unfolding(upload_reader::specs::Member::number_in))]
pub(crate) fn visit_at(line: &JsonPlace<'_, '_>) -> Result<u64, NoAddition>
    ensures { GivesMember (λ visit. visit) result
        (member_given LineMember.Visit (number_in 1) (codes "visit") (data_of line.now)) }
{
    match value_at(line, LineMember::Visit, "visit")?.as_u64() {
        Some(visit) if 1 <= visit && visit <= MAX_NUMBER => Ok(visit),
        _ => Err(wrong_in(LineMember::Visit, MemberWrong::Form)),
    }
}

/// The name of a client; U1 where no client can have it.
pub(crate) fn client_at(alloc: Global, line: &JsonPlace<'_, '_>) -> Result<Client, NoAddition>
    ensures { GivesMember (λ client. client) result (client_given (data_of line.now)) }
{
    match Client::read(alloc, text_at(line, LineMember::Client, "client")?) {
        Ok(client) => Ok(client),
        Err(HelloFault::NoMemory) => Err(NoAddition::NoMemory),
        Err(_) => Err(wrong_in(LineMember::Client, MemberWrong::BadClient)),
    }
}

/// The page; P1 to P6 where it is none.
pub(crate) fn page_at(alloc: Global, line: &JsonPlace<'_, '_>) -> Result<Page, NoAddition>
    ensures { GivesMember (λ page. page) result (page_given (data_of line.now)) }
{
    match Page::from_place(alloc, &value_at(line, LineMember::Page, "page")?) {
        Ok(page) => Ok(page),
        Err(PageFault::NoMemory) => Err(NoAddition::NoMemory),
        Err(fault) => Err(wrong_in(LineMember::Page, MemberWrong::BadPage(fault))),
    }
}

//! What a line behind the first one adds.
ghost use Rattle.std.specs.Prelude.{◌≡◌, codes, option_and_then, IfOk};
ghost use Rattle.serde_json.specs.Data.{item, no_items};
ghost use Rattle.serde_json.specs.Find.{as_str};
ghost use Rattle.upload_reader.specs.Member.{number_in};
ghost use Rattle.json_document.specs.Standing.{data_of, items_behind};
ghost use Rattle.site_line.specs.Decision.{client_named, choice_said, decision_among, decision_in};
ghost use Rattle.site_file.specs.Addition.{items_given, address_item, path_item, member_given, page_line, own_page_given, patched_line, watch_line, decide_line, addition_by, has_first_member, addition_of};
ghost use Rattle.site_file.specs.inside.{GivesMember, AddsWhatIsSaid};

use crate::growing::Growing;
use crate::members::{client_at, has, items_at, page_at, text_at, visit_at, wrong_in};
use crate::wrong::{LineMember, LineWrong, MemberWrong, NoAddition};
use conflict_desk::{Choice, Decision};
use json_document::{Items, JsonPlace};
use page_tree::{NoMemory, Text};
use std::alloc::{AllocError, Global};
use upload_reader::{Client, HelloFault, MAX_NUMBER};
use xpath_child::{Path, PathFaultKind};

/// Adds what the line says: it has just one of the members by which lines are told apart; else it is none of a site file's lines.
#[tactic(auto, unfolding(crate::specs::Addition::addition_of, crate::specs::Addition::addition_by))]
pub(crate) fn add_line(
    alloc: Global,
    line: &JsonPlace<'_, '_>,
    site: &mut Growing,
) -> Result<(), NoAddition>
    ensures { AddsWhatIsSaid (addition_of (data_of line.now)) site.old site.new result }
{
    if line.members().is_none() || has_first_member(line) {
        return Err(NoAddition::Wrong(LineWrong::NotOne));
    }
    let heads = (
        has(line, "page"),
        has(line, "patched"),
        has(line, "watch"),
        has(line, "decide"),
    );
    match heads {
        (true, false, false, false) => add_page_line(alloc, line, site),
        (false, true, false, false) => add_patched_line(alloc, line, site),
        (false, false, true, false) => add_watch_line(alloc, line, site),
        (false, false, false, true) => add_decide_line(alloc, line, site),
        _ => Err(NoAddition::Wrong(LineWrong::NotOne)),
    }
}

// Whether it has a member that only the first line may have.
fn has_first_member(line: &JsonPlace<'_, '_>) -> bool
    ensures { result ≡ has_first_member (data_of line.now) }
{
    has(line, "pages") || has(line, "same") || has(line, "quota") || has(line, "workers")
}

// ---- pages

#[tactic(auto, unfolding(crate::specs::Addition::page_line))]
fn add_page_line(
    alloc: Global,
    line: &JsonPlace<'_, '_>,
    site: &mut Growing,
) -> Result<(), NoAddition>
    ensures { AddsWhatIsSaid (page_line (data_of line.now)) site.old site.new result }
{
    let address = text_at(line, LineMember::Path, "path")?;
    if has(line, "client") || has(line, "visit") {
        return add_visit_page_line(alloc, line, site);
    }
    let page = page_at(alloc, line)?;
    site.add_page(Text::from_str(alloc, address)?, page)?;
    Ok(())
}

// The page of a visit alone.
fn add_visit_page_line(
    alloc: Global,
    line: &JsonPlace<'_, '_>,
    site: &mut Growing,
) -> Result<(), NoAddition>
    ensures { AddsWhatIsSaid (own_page_given (data_of line.now)) site.old site.new result }
{
    let client = client_at(alloc, line)?;
    let visit = visit_at(line)?;
    let page = page_at(alloc, line)?;
    site.add_own_page(alloc, &client, visit, page)?;
    Ok(())
}

// ---- addresses and paths

#[tactic(auto, unfolding(crate::specs::Addition::patched_line))]
fn add_patched_line(
    alloc: Global,
    line: &JsonPlace<'_, '_>,
    site: &mut Growing,
) -> Result<(), NoAddition>
    ensures { AddsWhatIsSaid (patched_line (data_of line.now)) site.old site.new result }
{
    let addresses = read_addresses(alloc, items_at(line, LineMember::Patched, "patched")?)?;
    site.add_patched(addresses)?;
    Ok(())
}

fn read_addresses(alloc: Global, items: Items<'_, '_>) -> Result<Vec<Text>, NoAddition>
    ensures { GivesMember (λ all. all.items) result (items_given address_item (items_behind items.entry)) }
{
    let mut items = items;
    let mut all = Vec::new(alloc);
    while let Some(item) = items.next() {
        all.push(read_address(alloc, &item)?)?;
    }
    Ok(all)
}

fn read_address(alloc: Global, item: &JsonPlace<'_, '_>) -> Result<Text, NoAddition>
    ensures { GivesMember (λ text. text) result (address_item (data_of item.now)) }
{
    let Some(text) = item.as_str() else {
        return Err(wrong_in(LineMember::Patched, MemberWrong::Form));
    };
    Ok(Text::from_str(alloc, text)?)
}

#[tactic(auto, unfolding(crate::specs::Addition::watch_line))]
fn add_watch_line(
    alloc: Global,
    line: &JsonPlace<'_, '_>,
    site: &mut Growing,
) -> Result<(), NoAddition>
    ensures { AddsWhatIsSaid (watch_line (data_of line.now)) site.old site.new result }
{
    let paths = read_paths(alloc, items_at(line, LineMember::Watch, "watch")?)?;
    site.add_watched(paths)?;
    Ok(())
}

fn read_paths(alloc: Global, items: Items<'_, '_>) -> Result<Vec<Path>, NoAddition>
    ensures { GivesMember (λ all. all.items) result (items_given path_item (items_behind items.entry)) }
{
    let mut items = items;
    let mut all = Vec::new(alloc);
    while let Some(item) = items.next() {
        all.push(read_path(alloc, &item)?)?;
    }
    Ok(all)
}

fn read_path(alloc: Global, item: &JsonPlace<'_, '_>) -> Result<Path, NoAddition>
    ensures { GivesMember (λ path. path) result (path_item (data_of item.now)) }
{
    let Some(text) = item.as_str() else {
        return Err(wrong_in(LineMember::Watch, MemberWrong::Form));
    };
    match Path::read(alloc, text) {
        Ok(path) => Ok(path),
        Err(fault) => match fault.kind {
            PathFaultKind::NoMemory => Err(NoAddition::NoMemory),
            kind => Err(wrong_in(LineMember::Watch, MemberWrong::BadPath(kind))),
        },
    }
}

// ---- a decision

#[tactic(auto, unfolding(crate::specs::Addition::decide_line))]
fn add_decide_line(
    alloc: Global,
    line: &JsonPlace<'_, '_>,
    site: &mut Growing,
) -> Result<(), NoAddition>
    ensures { AddsWhatIsSaid (decide_line (data_of line.now)) site.old site.new result }
{
    let decision = decision_at(alloc, line)?;
    site.add_decision(decision)?;
    Ok(())
}

fn decision_at(alloc: Global, line: &JsonPlace<'_, '_>) -> Result<Decision, NoAddition>
    ensures { GivesMember (λ one. one) result
        (member_given LineMember.Decide decision_in (codes "decide") (data_of line.now)) }
{
    let Some(value) = line.get("decide") else {
        return Err(wrong_in(LineMember::Decide, MemberWrong::Form));
    };
    let Some(items) = value.items() else {
        return Err(wrong_in(LineMember::Decide, MemberWrong::Form));
    };
    match read_decision(alloc, items)? {
        Some(decision) => Ok(decision),
        None => Err(wrong_in(LineMember::Decide, MemberWrong::Form)),
    }
}

// Just a client, the number of a visit and `cancel` or `keep`.
fn read_decision(alloc: Global, items: Items<'_, '_>) -> Result<Option<Decision>, NoMemory>
    ensures { IfOk result (λ one. one ≡ decision_among (items_behind items.entry)) }
{
    let mut items = items;
    let Some(client) = items.next() else {
        return Ok(None);
    };
    let Some(visit) = items.next() else {
        return Ok(None);
    };
    let Some(choice) = items.next() else {
        return Ok(None);
    };
    if items.next().is_some() {
        return Ok(None);
    }
    read_parts(alloc, &client, &visit, &choice)
}

fn read_parts(
    alloc: Global,
    client: &JsonPlace<'_, '_>,
    visit: &JsonPlace<'_, '_>,
    choice: &JsonPlace<'_, '_>,
) -> Result<Option<Decision>, NoMemory>
    ensures { IfOk result (λ one. one ≡ decision_among (item (data_of client.now)
        (item (data_of visit.now) (item (data_of choice.now) no_items)))) }
{
    let Some(client) = read_client(alloc, client)? else {
        return Ok(None);
    };
    let Some(visit) = read_visit(visit) else {
        return Ok(None);
    };
    let Some(choice) = read_choice(choice) else {
        return Ok(None);
    };
    Ok(Some(Decision {
        client,
        visit,
        choice,
    }))
}

fn read_client(alloc: Global, value: &JsonPlace<'_, '_>) -> Result<Option<Client>, NoMemory>
    ensures { IfOk result (λ client. client ≡ client_named (data_of value.now)) }
{
    let Some(text) = value.as_str() else {
        return Ok(None);
    };
    match Client::read(alloc, text) {
        Ok(client) => Ok(Some(client)),
        Err(HelloFault::NoMemory) => Err(AllocError),
        Err(_) => Ok(None),
    }
}

#[tactic(auto, unfolding(upload_reader::specs::Member::number_in))]
fn read_visit(value: &JsonPlace<'_, '_>) -> Option<u64>
    ensures { result ≡ number_in 1 (data_of value.now) }
{
    match value.as_u64() {
        Some(visit) if 1 <= visit && visit <= MAX_NUMBER => Some(visit),
        _ => None,
    }
}

fn read_choice(value: &JsonPlace<'_, '_>) -> Option<Choice>
    ensures { result ≡ option_and_then choice_said (as_str (data_of value.now)) }
{
    match value.as_str() {
        Some("cancel") => Some(Choice::Cancel),
        Some("keep") => Some(Choice::Keep),
        _ => None,
    }
}

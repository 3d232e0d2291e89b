//! Calls that the program never makes: at a path, at a site that a prefix parts, at a request of a visit, and at the numbers that workers draw.
ghost use Rattle.replay_workers.specs.Draws.{IsSeatOf};

use crate::made::{NEW, page, patch, site, text, visit};
use replay_workers::{Claims, Seat};
use site_hooks::{Fork, SiteHooks, Table};
use std::alloc::Global;
use std::process::Abort;
use std::test::Fail;
use upload_reader::Event;
use visit_replay::{Finding, moved, replay};
use xpath_child::Path;

#[test]
fn selects_and_writes(rt: HostRuntime) -> Result<(), Fail> {
    let page = page(rt.alloc(), NEW)?;
    let path = Path::read(rt.alloc(), "/html/p")?;
    assert!(rt; path.write()?.as_str() == "/html/p");
    assert!(rt; path.select(&page)?.only().is_some());
    Ok(())
}

// Whether it has a page there, and signals no conflict between equal ones.
fn has<H: SiteHooks>(alloc: Global, site: &H, address: &str) -> Result<bool, Fail> {
    let page = page(alloc, NEW)?;
    Ok(site.make(address)?.is_some() && !site.signals(address, &page, &page)?)
}

// Only that of the prefix has pages. A reference to a site is one.
#[test]
fn fork_parts_addresses_by_their_prefix(rt: HostRuntime) -> Result<(), Fail> {
    let alloc = rt.alloc();
    let (inside, outside) = (site(alloc, &["/ab", "/b"])?, Table::new(alloc));
    let fork = Fork::new(text(alloc, "/a")?, inside, outside);
    assert!(rt; has(alloc, &&fork, "/ab")? && !has(alloc, &fork, "/b")?);
    Ok(())
}

#[test]
fn a_request_goes_where_its_link_leads(rt: HostRuntime) -> Result<(), Fail> {
    let alloc = rt.alloc();
    let mut visit = visit(alloc, 1, "/f")?;
    let (target, at, req) = (Path::read(alloc, "/html/a")?, 7, 1);
    visit.events.push(Event::Click { at, target, req })?;
    let (site, patch) = (site(alloc, &["/f"])?, patch(alloc, &["/f"])?);
    let outcome = replay(alloc, &site, &patch, &Finding::by_path(), &visit)?;
    assert!(rt; moved(alloc, &Finding::by_path(), &visit, &outcome, 1)?);
    Ok(())
}

// Draws a number, unless that is past the last.
fn draw(claims: &Claims, seat: &mut Seat) -> Option<u64>
    requires { IsSeatOf claims.now seat.old }
    ensures { IsSeatOf claims.now seat.new }
{
    if seat.spent() {
        return None;
    }
    Some(claims.draw(seat))
}

#[test]
fn two_seats_draw_in_turn(rt: HostRuntime) -> Result<(), Fail> {
    let (claims, mut seats) = Claims::open(rt.alloc(), 2, 2)?;
    let (Some(mut second), Some(mut first)) = (seats.pop(), seats.pop()) else {
        return Err(Fail::from("no seats"));
    };
    let drawn = (draw(&claims, &mut second), draw(&claims, &mut first));
    seats.push_reserved(first);
    seats.push_reserved(second);
    assert!(rt; drawn == (Some(0), Some(1)) && claims.close(seats) == 2);
    Ok(())
}

//! What the views add, of two clients: of `c1` two visits wait, the second opened by the first, and one is done; of `c2` nothing was kept.
use byte_streams::Fed;
use conflict_desk::{Case, Cases, Desk, Docket, are_dockets};
use conflict_words::meaning_of;
use lanes_in_turn::{Gathered, Stop};
use memchr::memmem;
use replay_folder::ToldUploads;
use review_lists::{Totals, add_client, add_overview, add_search, totals_of};
use std::alloc::Global;
use std::fs::File;
use std::process::Abort;
use std::test::Fail;
use upload_reader::{Client, Ending, LaneEnd};
use visit_replay::{ConflictKind, Difference, Outcome, Requests};
use warp_run::{ClientSummary, Listed, Repaired};

fn case_of(visit: u64, parent: u64, outcome: Outcome) -> Case {
    Case {
        visit,
        parent,
        outcome,
        difference: Difference::none(),
    }
}

fn conflict(at: u64, kind: ConflictKind) -> Outcome {
    let requests = Requests::none();
    Outcome::Conflict { requests, at, kind }
}

fn cases_of_c1(alloc: Global) -> Result<Cases, Fail> {
    let requests = Requests::none();
    let mut cases = Cases::new(alloc);
    cases.push(case_of(2, 0, conflict(1, ConflictKind::NoTarget)))?;
    cases.push(case_of(3, 2, conflict(4, ConflictKind::BaseChanged)))?;
    cases.push(case_of(5, 0, Outcome::Done { requests }))?;
    Ok(cases)
}

fn desk(alloc: Global) -> Result<Desk, Fail> {
    let mut dockets = Vec::new(alloc);
    dockets.push(Docket {
        client: Client::read(alloc, "c1")?,
        cases: cases_of_c1(alloc)?,
    })?;
    dockets.push(Docket {
        client: Client::read(alloc, "c2")?,
        cases: Cases::new(alloc),
    })?;
    if !are_dockets(dockets.as_slice()) {
        Err::<(), &str>("no dockets")?;
    }
    Ok(Desk::open(alloc, dockets)?)
}

fn summary(alloc: Global, client: &str) -> Result<ClientSummary, Fail> {
    Ok(ClientSummary {
        client: Client::read(alloc, client)?,
        taken: 9,
        end: Some(Ending::Over(LaneEnd::Bye)),
        cost: 300,
        lost: 0,
    })
}

fn repaired(alloc: Global) -> Result<Repaired, Fail> {
    let mut clients = Vec::new(alloc);
    clients.push(summary(alloc, "c1")?)?;
    clients.push(summary(alloc, "c2")?)?;
    Ok(Repaired {
        stop: Stop::None,
        clients: Listed::from(clients),
        desk: desk(alloc)?,
        decided: Listed::new(alloc),
    })
}

fn has(html: &Vec<u8>, part: &[u8]) -> bool {
    memmem::find(html.as_slice(), part).is_some()
}

#[test]
fn counts_what_waits(rt: HostRuntime) -> Result<(), Fail> {
    let totals = totals_of(&repaired(rt.alloc())?);
    assert!(rt;
        totals
            == Totals {
                waiting: 2,
                decided: 0
            }
    );
    Ok(())
}

#[test]
fn tells_a_client_or_adds_nothing(rt: HostRuntime) -> Result<(), Fail> {
    let alloc = rt.alloc();
    let repaired = repaired(alloc)?;
    let logs: Gathered<Fed<File>> = Gathered::new(alloc);
    let mut html = Vec::new(alloc);
    let nobody = Client::read(alloc, "zoe")?;
    let there = add_client(alloc, &mut html, &logs, &repaired, &nobody, 0)?;
    assert!(rt; !there && html.len() == 0);
    let client = Client::read(alloc, "c1")?;
    let there = add_client(alloc, &mut html, &logs, &repaired, &client, 0)?;
    assert!(rt; there && has(&html, b"<dd>bye, 9 messages taken</dd>"));
    assert!(rt;
        has(
            &html,
            b"2 waiting, 0 kept, 0 cancelled, 1 done, 0 untouched"
        )
    );
    assert!(rt;
        has(
            &html,
            b"<li class=\"here\"><span class=\"what\"><a href=\"/visit?c=c1&amp;v=2\">2</a>"
        )
    );
    assert!(rt;
        has(
            &html,
            b"<li><span class=\"level\"></span><span class=\"what\"><a href=\"/visit?c=c1&amp;v=3\">3</a>"
        )
    );
    assert!(rt;
        has(
            &html,
            b"<span>K5 at event 4</span><span class=\"hidden\">opened by visit 2</span>"
        )
    );
    Ok(())
}

#[test]
fn tells_what_waits(rt: HostRuntime) -> Result<(), Fail> {
    let alloc = rt.alloc();
    let repaired = repaired(alloc)?;
    let logs: Gathered<Fed<File>> = Gathered::new(alloc);
    let told = ToldUploads {
        named: Listed::new(alloc),
        ends: Listed::new(alloc),
    };
    let mut html = Vec::new(alloc);
    add_overview(alloc, &mut html, &told, &logs, &repaired, true, 0, 0)?;
    assert!(rt; has(&html, b"<p>The site's file is closed"));
    assert!(rt;
        has(
            &html,
            b"<strong>c1</strong>, visit 2</a>: <span class=\"state waiting\">K2</span> at event 1"
        )
    );
    assert!(rt; has(&html, b"1 more waits behind it."));
    assert!(rt; has(&html, b"<a href=\"/client?c=c2\">c2</a>") && !has(&html, b"<strong>c2"));
    Ok(())
}

#[test]
fn finds_codes_and_names(rt: HostRuntime) -> Result<(), Fail> {
    let alloc = rt.alloc();
    let repaired = repaired(alloc)?;
    let logs: Gathered<Fed<File>> = Gathered::new(alloc);
    let mut html = Vec::new(alloc);
    add_search(alloc, &mut html, &logs, &repaired, "K5", 0)?;
    assert!(rt; has(&html, b"<h1>1 found</h1>") && has(&html, b">c1, visit 3</a>"));
    let mut html = Vec::new(alloc);
    add_search(alloc, &mut html, &logs, &repaired, "c", 0)?;
    assert!(rt; has(&html, b"<h1>2 found</h1>") && has(&html, b"<a href=\"/client?c=c2\">c2</a>"));
    let mut html = Vec::new(alloc);
    add_search(alloc, &mut html, &logs, &repaired, "", 0)?;
    assert!(rt; has(&html, b"<h1>0 found</h1>"));
    Ok(())
}

#[test]
fn says_what_a_code_means(rt: HostRuntime) -> Result<(), Fail> {
    let sentence = meaning_of(ConflictKind::LogCut);
    assert!(rt; sentence == "The log kept only a part of the visit, for want of room.");
    Ok(())
}

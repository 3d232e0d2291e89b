//! `review_requests`: what requests to the administrator's page are, at port 8900 with the token `t`.
use bytes::Bytes;
use conflict_desk::Choice;
use http::Request;
use review_requests::{Judged, Refusal, Side, View, judge};
use std::alloc::Global;
use std::process::Abort;
use std::test::Fail;

const PORT: u16 = 8900;

const HOST: &str = "127.0.0.1:8900";

const PAGE: &str = "http://127.0.0.1:8900";

const FORM: &str = "application/x-www-form-urlencoded";

// A method, a target, the host of its field, and the status that it gets before anything is looked at.
const READINGS: &[(&str, &str, &str, u16)] = &[
    ("GET", "/", HOST, 200),
    ("HEAD", "/report", "localhost:8900", 200),
    ("GET", "/", "evil.example", 421),
    ("GET", "/", "127.0.0.1", 421),
    ("GET", "/", "127.0.0.1:89000", 421),
    ("GET", "http://127.0.0.1:8900/", "x", 200),
    ("GET", "http://evil.example/", HOST, 421),
    ("GET", "http://x@127.0.0.1:8900/", HOST, 421),
    ("GET", "/nothing", HOST, 404),
    ("POST", "/nothing", HOST, 404),
    ("POST", "/nothing", "x", 421),
    ("POST", "/", HOST, 405),
    ("GET", "/decide", HOST, 405),
    ("GET", "/?from=50&clients=100", HOST, 200),
    ("GET", "/?clients=all", HOST, 404),
    ("GET", "/client?c=ann&from=200", HOST, 200),
    ("GET", "/client?c=ann&from=-1", HOST, 404),
    ("GET", "/client?c=a+n", HOST, 404),
    ("GET", "/client", HOST, 404),
    ("GET", "/visit?c=ann", HOST, 404),
    ("GET", "/visit?c=ann&v=3", HOST, 200),
    ("GET", "/visit?v=3&c=ann&v=x", HOST, 200),
    ("GET", "/visit?%63=a%6en&v=3&told=2", HOST, 200),
    ("GET", "/visit?c=ann&v=3&told=", HOST, 404),
    ("GET", "/visit?c=ann&v=9007199254740991", HOST, 200),
    ("GET", "/visit?c=ann&v=9007199254740992", HOST, 404),
    ("GET", "/visit?c=ann&v=18446744073709551617", HOST, 404),
    ("GET", "/visit?c=ann&v=0", HOST, 404),
    ("GET", "/page?c=ann&v=3&of=repaired", HOST, 200),
    ("GET", "/page?c=ann&v=3&of=both", HOST, 404),
    ("GET", "/search", HOST, 200),
    ("GET", "/state", HOST, 200),
    ("GET", "/review.css", HOST, 200),
    ("GET", "/page.css", HOST, 200),
    ("GET", "/review.js", HOST, 200),
];

// The pages that a form comes from, its type, what it says, and its status before the desk is asked.
const POSTINGS: &[(&[&str], &str, &str, u16)] = &[
    (&[], FORM, "token=t&client=ann&visit=3&keep=1", 403),
    (&["null"], FORM, "token=t&client=ann&visit=3&keep=1", 403),
    (
        &["http://localhost:8900"],
        FORM,
        "token=t&client=ann&visit=3&keep=1",
        403,
    ),
    (
        &[PAGE, PAGE],
        FORM,
        "token=t&client=ann&visit=3&keep=1",
        403,
    ),
    (
        &[PAGE],
        "text/plain",
        "token=t&client=ann&visit=3&keep=1",
        415,
    ),
    (&[PAGE], FORM, "client=ann&visit=3&keep=1", 403),
    (&[PAGE], FORM, "token=u&client=ann&visit=3&keep=1", 403),
    (
        &[PAGE],
        FORM,
        "token=t&client=ann&visit=3&keep=1&cancel=1",
        400,
    ),
    (&[PAGE], FORM, "token=t&client=ann&visit=3", 400),
    (&[PAGE], FORM, "token=t&client=ann&visit=03&keep=1", 400),
    (&[PAGE], FORM, "token=t&client=ann&visit=%2B3&keep=1", 400),
    (&[PAGE], FORM, "token=t&visit=3&keep=1", 400),
    (&[PAGE], FORM, "token=u&client=a+n&visit=3&keep=1", 400),
    (&[PAGE], FORM, "token=t&client=zoe&visit=3&keep=1", 303),
    (&[PAGE], FORM, "token=t&client=ann&visit=4&keep=1", 303),
    (
        &[PAGE],
        "Application/X-WWW-Form-Urlencoded ; charset=UTF-8",
        "token=t&client=ann&visit=3&cancel=",
        303,
    ),
];

fn status_of(judged: &Judged) -> u16 {
    match judged {
        Judged::Shows(_) => 200,
        Judged::Decides(_) => 303,
        Judged::Refused(refusal) => refusal.status(),
    }
}

fn asked(alloc: Global, method: &str, target: &str, host: &str, port: u16) -> Result<Judged, Fail> {
    let request = Request::builder(alloc)
        .method(method)
        .uri(target)
        .header("host", host)
        .body(Bytes::copy_from_slice(alloc, b"")?)?;
    Ok(judge(alloc, &request, port, "t")?)
}

fn posted(alloc: Global, pages: &[&str], kind: &str, form: &str) -> Result<Judged, Fail> {
    let mut builder = Request::builder(alloc)
        .method("POST")
        .uri("/decide")
        .header("host", HOST)
        .header("content-type", kind);
    for page in pages {
        builder = builder.header("origin", *page);
    }
    let request = builder.body(Bytes::copy_from_slice(alloc, form.as_bytes())?)?;
    Ok(judge(alloc, &request, PORT, "t")?)
}

#[test]
fn reads_only_from_this_host(rt: HostRuntime) -> Result<(), Fail> {
    let alloc = rt.alloc();
    for (method, target, host, status) in READINGS {
        let judged = asked(alloc, method, target, host, PORT)?;
        assert_eq!(rt; status_of(&judged), *status);
    }
    Ok(())
}

#[test]
fn leaves_out_port_80_alone(rt: HostRuntime) -> Result<(), Fail> {
    let alloc = rt.alloc();
    for host in ["localhost", "127.0.0.1", "localhost:80", "127.0.0.1:80"] {
        assert_eq!(rt; status_of(&asked(alloc, "GET", "/", host, 80)?), 200);
        assert_eq!(rt; status_of(&asked(alloc, "GET", "/", host, 8000)?), 421);
    }
    Ok(())
}

#[test]
fn decides_by_its_own_forms_alone(rt: HostRuntime) -> Result<(), Fail> {
    let alloc = rt.alloc();
    for (pages, kind, form, status) in POSTINGS {
        let judged = posted(alloc, pages, kind, form)?;
        assert_eq!(rt; status_of(&judged), *status);
    }
    Ok(())
}

#[test]
fn takes_forms_of_4096_bytes(rt: HostRuntime) -> Result<(), Fail> {
    let alloc = rt.alloc();
    let mut form = String::new(alloc);
    form.push_str("token=t&client=ann&visit=3&keep=1&more=")?;
    for _ in 0..4057 {
        form.push('x')?;
    }
    assert!(rt;
        matches!(
            posted(alloc, &[PAGE], FORM, form.as_str())?,
            Judged::Decides(_)
        )
    );
    form.push('x')?;
    let judged = posted(alloc, &[PAGE], FORM, form.as_str())?;
    assert!(rt; matches!(judged, Judged::Refused(Refusal::LongForm)));
    Ok(())
}

#[test]
fn tells_what_is_decided(rt: HostRuntime) -> Result<(), Fail> {
    let alloc = rt.alloc();
    let form = "token=t&client=ann&visit=3&cancel=1&visit=4";
    match posted(alloc, &[PAGE], FORM, form)? {
        Judged::Decides(decision) => {
            assert!(rt; decision.client.text() == "ann" && decision.visit == 3);
            assert!(rt; matches!(decision.choice, Choice::Cancel));
        }
        _ => assert!(rt; false),
    }
    Ok(())
}

fn is_drawing(judged: &Judged) -> bool {
    match judged {
        Judged::Shows(
            View::Drawing {
                client,
                visit,
                side,
            },
        ) => { client.text() == "ann" && *visit == 3 && *side == Side::Repaired }
        _ => false,
    }
}

fn is_visit(judged: &Judged) -> bool {
    match judged {
        Judged::Shows(
            View::Visit {
                client,
                visit,
                told,
            },
        ) => { client.text() == "ann" && *visit == 5 && *told == Some(3) }
        _ => false,
    }
}

fn is_search(judged: &Judged) -> bool {
    match judged {
        Judged::Shows(View::Search { text, from }) => {
            text.as_str() == "<b> \u{e9}\u{fffd}" && *from == 0
        }
        _ => false,
    }
}

#[test]
fn tells_what_is_shown(rt: HostRuntime) -> Result<(), Fail> {
    let alloc = rt.alloc();
    let page = "/page?c=ann&v=3&of=repaired&of=recorded";
    assert!(rt; is_drawing(&asked(alloc, "GET", page, HOST, PORT)?));
    let visit = "/visit?c=ann&v=5&told=3";
    assert!(rt; is_visit(&asked(alloc, "GET", visit, HOST, PORT)?));
    let search = "/search?q=%3Cb%3E+%C3%A9%FF";
    assert!(rt; is_search(&asked(alloc, "GET", search, HOST, PORT)?));
    Ok(())
}

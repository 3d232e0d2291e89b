//! What the collector answers, over requests as they come.
use crate::memory_folder::MemoryFolder;
use collect_http::{Collector, Names};
use file_fakes::MemoryFile;
use http_server::{Config, Connection};
use std::alloc::Global;
use std::hash::RandomState;
use std::random::RandomSource;
use std::test::Fail;
use upload_folder::Clients;

type Collecting = Collector<MemoryFile, MemoryFolder>;

const NEVER: u64 = u64::MAX;

// A collector over a folder with room for so many files, which take no more from so many bytes on.
fn begin<R: AllocGlobal + RandomSource>(
    rt: &R,
    fails_at: u64,
    room: u64,
    limit: u64,
) -> Result<Collecting, Fail> {
    begin_over(rt, MemoryFolder::new(rt.alloc(), fails_at, room), limit)
}

fn begin_over<R: AllocGlobal + RandomSource>(
    rt: &R,
    folder: MemoryFolder,
    limit: u64,
) -> Result<Collecting, Fail> {
    let keys = RandomState::new(rt)?;
    let clients = Clients::new(rt.alloc(), folder, limit, keys);
    let names = Names::new(RandomState::new(rt)?, RandomState::new(rt)?);
    let origin = String::from_str(rt.alloc(), "https://pages.example")?;
    Ok(Collector::new(rt.alloc(), clients, names, keys, Some(origin), b"recorder"))
}

// The answer to a request of these head lines and this body.
fn ask<R: AllocGlobal + RandomSource>(
    rt: &R,
    collector: &mut Collecting,
    head: &str,
    body: &str,
) -> Result<String, Fail> {
    let len = body.len();
    let text = format!(in rt.alloc();
        "{head}\r\nHost: here\r\nContent-Length: {len}\r\n\r\n{body}"
    )?;
    let mut connection = Connection::new(rt.alloc(), RandomState::new(rt)?, Config::default());
    let mut unread = text.as_bytes();
    let mut answer = Vec::new(rt.alloc());
    for _ in 0..64 {
        connection.read_from(&mut unread)?;
        connection.advance(collector);
        connection.write_to(&mut answer)?;
    }
    Ok(String::from_utf8(answer)?)
}

const POST: &str =
    "POST /upload HTTP/1.1\r\nCookie: yugdemor=0123456789abcdef0123456789abcdef\r\nContent-Type: text/plain;charset=UTF-8";

const GET: &str =
    "GET /upload?v=a&v=b&v=a HTTP/1.1\r\nCookie: yugdemor=0123456789abcdef0123456789abcdef";

const A1: &str =
    "{\"v\":\"a\",\"n\":1,\"t\":\"load\",\"at\":1,\"path\":\"/\",\"page\":{\"n\":\"html\"}}\n";

const A2: &str = "{\"v\":\"a\",\"n\":2,\"t\":\"click\",\"at\":3,\"target\":\"/html\",\"req\":1}\n";

const BAD_A2: &str =
    "{\"v\":\"a\",\"n\":2,\"t\":\"click\",\"at\":3,\"target\":\"html\",\"req\":1}\n";

const UNENDED: &str = "{\"v\":\"b\",\"n\":2,\"t\":\"end\",\"at\":9";

const A3: &str = "{\"v\":\"a\",\"n\":3,\"t\":\"end\",\"at\":5}\n";

const B1: &str =
    "{\"v\":\"b\",\"n\":1,\"t\":\"load\",\"at\":2,\"path\":\"/x\",\"opener\":\"a\",\"from\":1,\"page\":{\"n\":\"html\"}}\n";

// What is asked.
#[derive(Clone, Copy)]
enum Asks {
    Nothing,
    Puts,
    PostsHealth,
    Health,
    Recorder,
    Name,
    Nameless,
    NamedByAPath,
    NamedInCapitals,
    SecondCookie,
    NoType,
    Picture,
    NullPage,
    PageElsewhere,
    OwnPage,
    OwnSecurePage,
    OtherPage,
    ElsewhereFirst,
    OtherFirst,
}

// Its head lines.
fn head_of(asks: Asks) -> &'static str {
    match asks {
        Asks::Nothing => "GET /nothing HTTP/1.1",
        Asks::Puts => "PUT /upload HTTP/1.1",
        Asks::PostsHealth => "POST /health HTTP/1.1",
        Asks::Health => "GET /health HTTP/1.1",
        Asks::Recorder => "GET /recorder.js HTTP/1.1",
        Asks::Name => "GET /upload HTTP/1.1",
        Asks::Nameless => "POST /upload HTTP/1.1\r\nContent-Type: text/plain",
        Asks::NamedByAPath => {
            "POST /upload HTTP/1.1\r\nCookie: yugdemor=../lock\r\nContent-Type: text/plain"
        }
        Asks::NamedInCapitals => {
            "POST /upload HTTP/1.1\r\nCookie: yugdemor=0123456789ABCDEF0123456789ABCDEF\r\nContent-Type: text/plain"
        }
        Asks::SecondCookie => {
            "POST /upload HTTP/1.1\r\nCookie: a=1; yugdemor=0123456789abcdef0123456789abcdef\r\nContent-Type: Text/Plain"
        }
        Asks::NoType => {
            "POST /upload HTTP/1.1\r\nCookie: yugdemor=0123456789abcdef0123456789abcdef"
        }
        Asks::Picture => {
            "POST /upload HTTP/1.1\r\nCookie: yugdemor=0123456789abcdef0123456789abcdef\r\nContent-Type: image/png"
        }
        Asks::NullPage => "GET /upload HTTP/1.1\r\nOrigin: null",
        Asks::PageElsewhere => "GET /upload HTTP/1.1\r\nOrigin: http://elsewhere",
        Asks::OwnPage => "GET /upload HTTP/1.1\r\nOrigin: http://here",
        Asks::OwnSecurePage => "GET /upload HTTP/1.1\r\nOrigin: https://here",
        Asks::OtherPage => "GET /upload HTTP/1.1\r\nOrigin: https://pages.example",
        Asks::ElsewhereFirst => "OPTIONS /upload HTTP/1.1\r\nOrigin: http://elsewhere",
        Asks::OtherFirst => "OPTIONS /upload HTTP/1.1\r\nOrigin: https://pages.example",
    }
}

const STATUSES: &[(Asks, u64)] = &[
    (Asks::Nothing, 404),
    (Asks::Puts, 405),
    (Asks::PostsHealth, 405),
    (Asks::Health, 200),
    (Asks::Recorder, 200),
    (Asks::Name, 200),
    (Asks::Nameless, 401),
    (Asks::NamedByAPath, 401),
    (Asks::NamedInCapitals, 401),
    (Asks::SecondCookie, 200),
    (Asks::NoType, 415),
    (Asks::Picture, 415),
    (Asks::NullPage, 403),
    (Asks::PageElsewhere, 403),
    (Asks::OwnPage, 200),
    (Asks::OwnSecurePage, 200),
    (Asks::OtherPage, 200),
    (Asks::ElsewhereFirst, 204),
    (Asks::OtherFirst, 204),
];

// Whether an answer has that status.
fn has_status(alloc: Global, answer: &str, status: u64) -> Result<bool, Fail> {
    let begins = format!(in alloc; "HTTP/1.1 {status} ")?;
    Ok(answer.starts_with(begins.as_str()))
}

// Whether a request is answered with that status, in a round that stands.
fn is_answered<R: AllocGlobal + RandomSource>(
    rt: &R,
    asks: Asks,
    status: u64,
) -> Result<bool, Fail> {
    let mut collector = begin(rt, NEVER, 9, 1 << 20)?;
    let answer = ask(rt, &mut collector, head_of(asks), "")?;
    let has = has_status(rt.alloc(), answer.as_str(), status)?;
    Ok(has && collector.settle(false))
}

#[test]
fn each_request_has_its_status(rt: HostRuntime) -> Result<(), Fail> {
    for &(asks, status) in STATUSES {
        assert!(rt; is_answered(&rt, asks, status)?);
    }
    Ok(())
}

// Whether these lines are told so, in a round that stands.
fn tells<R: AllocGlobal + RandomSource>(
    rt: &R,
    collector: &mut Collecting,
    lines: &[&str],
    ends: &str,
) -> Result<bool, Fail> {
    let mut body = String::new(rt.alloc());
    for line in lines {
        body.push_str(*line)?;
    }
    let answer = ask(rt, collector, POST, body.as_str())?;
    let has = has_status(rt.alloc(), answer.as_str(), 200)?;
    Ok(has && answer.as_str().ends_with(ends) && collector.settle(false))
}

#[test]
fn each_line_is_stored_once_and_in_order(rt: HostRuntime) -> Result<(), Fail> {
    let mut all = begin(&rt, NEVER, 9, 1 << 20)?;
    assert!(rt;
        tells(
            &rt,
            &mut all,
            &[A1],
            "{\"have\":{\"a\":1},\"refused\":{}}\n"
        )?
    );
    assert!(rt;
        tells(
            &rt,
            &mut all,
            &[A1, A3],
            "{\"have\":{\"a\":1},\"refused\":{}}\n"
        )?
    );
    assert!(rt;
        tells(
            &rt,
            &mut all,
            &[A2, A2, A3, B1],
            "{\"have\":{\"a\":3,\"b\":1},\"refused\":{}}\n"
        )?
    );
    assert!(rt; tells(&rt, &mut all, &[UNENDED], "{\"have\":{},\"refused\":{}}\n")?);
    let told = ask(&rt, &mut all, GET, "")?;
    assert!(rt;
        told.as_str()
            .ends_with("{\"have\":{\"a\":3,\"b\":1},\"refused\":{}}\n")
    );
    Ok(())
}

#[test]
fn a_refused_visit_is_refused_for_good(rt: HostRuntime) -> Result<(), Fail> {
    let mut all = begin(&rt, NEVER, 9, 1 << 20)?;
    let refused = "{\"have\":{\"a\":1,\"b\":1},\"refused\":{\"a\":\"E8.X1\"}}\n";
    assert!(rt; tells(&rt, &mut all, &[A1, BAD_A2, A2, B1], refused)?);
    assert!(rt; tells(&rt, &mut all, &[A2, B1], refused)?);
    let told = ask(&rt, &mut all, GET, "")?;
    assert!(rt; told.as_str().ends_with(refused));
    Ok(())
}

// What is told of a line that is too long, with these first members.
fn long_line_told<R: AllocGlobal + RandomSource>(rt: &R, members: &str) -> Result<String, Fail> {
    let mut collector = begin(rt, NEVER, 9, 1 << 20)?;
    let mut body = String::from_str(rt.alloc(), members)?;
    for _ in 0..8192 {
        body.push_str("        ")?;
    }
    body.push_str("\"path\":\"/\"}\n")?;
    ask(rt, &mut collector, POST, body.as_str())
}

#[test]
fn e4_a_line_that_is_too_long_is_judged_by_its_first_two_members(
    rt: HostRuntime,
) -> Result<(), Fail> {
    let told = long_line_told(&rt, "{\"v\":\"a\",\"n\":1,")?;
    assert!(rt;
        told.as_str()
            .ends_with("{\"have\":{\"a\":0},\"refused\":{\"a\":\"E4\"}}\n")
    );
    let early = long_line_told(&rt, "{\"v\":\"a\",\"n\":2,")?;
    assert!(rt;
        early
            .as_str()
            .ends_with("{\"have\":{\"a\":0},\"refused\":{}}\n")
    );
    let unknown = long_line_told(&rt, "{\"t\":\"load\",\"at\":1,\"v\":\"a\",\"n\":1,")?;
    assert!(rt; unknown.as_str().ends_with("{\"have\":{},\"refused\":{}}\n"));
    Ok(())
}

// No JSON, by a text that stands for no character, an end that is missing, and a number that begins with 0.
const BAD_B1: &str = "{\"v\":\"b\",\"n\":1,\"t\":\"load\",\"at\":1,\"path\":\"\\ud800\"}\n";

const UNENDED_A2: &str = "{\"v\":\"a\",\"n\":2,\"t\":\"end\"\n";

const UNTOLD_A2: &str = "{\"t\":\"end\",\"at\":3,\"v\":\"a\",\"n\":02}\n";

#[test]
fn e5_a_line_that_is_no_json_is_judged_by_its_first_two_members(
    rt: HostRuntime,
) -> Result<(), Fail> {
    let mut all = begin(&rt, NEVER, 9, 1 << 20)?;
    let waits = "{\"have\":{\"a\":0},\"refused\":{}}\n";
    assert!(rt; tells(&rt, &mut all, &[UNENDED_A2], waits)?);
    let untold = "{\"have\":{},\"refused\":{}}\n";
    assert!(rt; tells(&rt, &mut all, &[UNTOLD_A2], untold)?);
    let stored = "{\"have\":{\"a\":2},\"refused\":{}}\n";
    assert!(rt; tells(&rt, &mut all, &[A1, A2, UNENDED_A2], stored)?);
    let refused = "{\"have\":{\"b\":0},\"refused\":{\"b\":\"E5\"}}\n";
    assert!(rt; tells(&rt, &mut all, &[BAD_B1, B1], refused)?);
    assert!(rt; tells(&rt, &mut all, &[B1], refused)?);
    Ok(())
}

// Whether a line counts that stands behind so many of these texts and that end.
fn counts_behind<R: AllocGlobal + RandomSource>(
    rt: &R,
    text: &str,
    count: usize,
    end: &str,
) -> Result<bool, Fail> {
    let mut collector = begin(rt, NEVER, 9, 1 << 20)?;
    let mut body = String::new(rt.alloc());
    for _ in 0..count {
        body.push_str(text)?;
    }
    body.push_str(end)?;
    body.push_str(A1)?;
    let answer = ask(rt, &mut collector, POST, body.as_str())?;
    Ok(
        answer
            .as_str()
            .ends_with("{\"have\":{\"a\":1},\"refused\":{}}\n"),
    )
}

#[test]
fn a_body_counts_up_to_its_bounds(rt: HostRuntime) -> Result<(), Fail> {
    assert!(rt; counts_behind(&rt, "\n", 1023, "")?);
    assert!(rt; !counts_behind(&rt, "\n", 1024, "")?);
    assert!(rt; counts_behind(&rt, "x", 65535, "\n")?);
    assert!(rt; !counts_behind(&rt, "x", 65536, "\n")?);
    Ok(())
}

#[test]
fn no_room_is_told(rt: HostRuntime) -> Result<(), Fail> {
    let mut full = begin(&rt, NEVER, 0, 1 << 20)?;
    let answer = ask(&rt, &mut full, POST, A1)?;
    assert!(rt; has_status(rt.alloc(), answer.as_str(), 507)?);
    let none = ask(&rt, &mut full, GET, "")?;
    assert!(rt;
        none.as_str()
            .ends_with("{\"have\":{\"a\":0,\"b\":0},\"refused\":{}}\n")
    );
    Ok(())
}

#[test]
fn no_file_is_made_before_a_line_is_to_be_stored(rt: HostRuntime) -> Result<(), Fail> {
    let mut all = begin(&rt, NEVER, 1, 1 << 20)?;
    assert!(rt; tells(&rt, &mut all, &[], "{\"have\":{},\"refused\":{}}\n")?);
    assert!(rt;
        tells(
            &rt,
            &mut all,
            &[A2],
            "{\"have\":{\"a\":0},\"refused\":{}}\n"
        )?
    );
    let refused = "{\"have\":{\"b\":0},\"refused\":{\"b\":\"E5\"}}\n";
    assert!(rt; tells(&rt, &mut all, &[BAD_B1], refused)?);
    assert!(rt; has_posted(&rt, &mut all, 5, 200)? && all.settle(false));
    let answer = ask(&rt, &mut all, POST, A1)?;
    assert!(rt; has_status(rt.alloc(), answer.as_str(), 507)?);
    Ok(())
}

#[test]
fn a_full_file_is_told(rt: HostRuntime) -> Result<(), Fail> {
    let mut long = begin(&rt, NEVER, 9, 80)?;
    let taken = ask(&rt, &mut long, POST, A1)?;
    assert!(rt; has_status(rt.alloc(), taken.as_str(), 200)?);
    let refused = ask(&rt, &mut long, POST, A2)?;
    assert!(rt; has_status(rt.alloc(), refused.as_str(), 413)?);
    let told = ask(&rt, &mut long, GET, "")?;
    assert!(rt;
        told.as_str()
            .ends_with("{\"have\":{\"a\":1,\"b\":0},\"refused\":{}}\n")
    );
    Ok(())
}

// How many lines of the visit an answer tells, if it counts.
fn counted(answer: &str, settled: bool) -> Option<u64> {
    if !settled {
        return None;
    }
    if answer.contains("\"have\":{\"a\":0") {
        return Some(0);
    }
    if answer.contains("\"have\":{\"a\":1") {
        return Some(1);
    }
    if answer.contains("\"have\":{\"a\":2") {
        return Some(2);
    }
    None
}

// Whether no round that stands tells less than one before, where each file fails at the call of that number.
fn is_told_again<R: AllocGlobal + RandomSource>(rt: &R, fails_at: u64) -> Result<bool, Fail> {
    let mut collector = begin(rt, fails_at, 9, 1 << 20)?;
    let mut told = 0;
    for body in [A1, A2, A1, A2, A2] {
        let answer = ask(rt, &mut collector, POST, body)?;
        let settled = collector.settle(false);
        if let Some(count) = counted(answer.as_str(), settled) {
            if count < told {
                return Ok(false);
            }
            told = count;
        }
    }
    Ok(true)
}

#[test]
fn what_is_told_is_told_again_whatever_call_of_a_file_fails(rt: HostRuntime) -> Result<(), Fail> {
    for fails_at in 0..24 {
        assert!(rt; is_told_again(&rt, fails_at)?);
    }
    Ok(())
}

// Whether the first line of a client's visit is answered with that status. The names of clients differ in the digit.
fn has_posted<R: AllocGlobal + RandomSource>(
    rt: &R,
    collector: &mut Collecting,
    digit: u64,
    status: u64,
) -> Result<bool, Fail> {
    let head = format!(in rt.alloc();
        "POST /upload HTTP/1.1\r\nCookie: yugdemor=0123456789abcdef0123456789abcde{digit}\r\nContent-Type: text/plain"
    )?;
    let answer = ask(rt, collector, head.as_str(), A1)?;
    has_status(rt.alloc(), answer.as_str(), status)
}

#[test]
fn four_files_are_made_in_a_round(rt: HostRuntime) -> Result<(), Fail> {
    let mut all = begin(&rt, NEVER, 9, 1 << 20)?;
    for digit in 0..4 {
        assert!(rt; has_posted(&rt, &mut all, digit, 200)?);
    }
    assert!(rt; all.has_read_enough() && has_posted(&rt, &mut all, 4, 503)?);
    assert!(rt; all.settle(false) && !all.has_read_enough());
    assert!(rt; has_posted(&rt, &mut all, 4, 200)?);
    Ok(())
}

// The fourth client's file closes those of the others, of which two are read back in the next round.
#[test]
fn files_that_were_closed_are_read_back_in_turn(rt: HostRuntime) -> Result<(), Fail> {
    let folder = MemoryFolder::new(rt.alloc(), NEVER, 9).with_most(3);
    let mut all = begin_over(&rt, folder, 1 << 20)?;
    for digit in 0..4 {
        assert!(rt; has_posted(&rt, &mut all, digit, 200)? && all.settle(false));
    }
    assert!(rt; has_posted(&rt, &mut all, 0, 200)?);
    assert!(rt; has_posted(&rt, &mut all, 1, 200)?);
    assert!(rt; has_posted(&rt, &mut all, 2, 503)?);
    assert!(rt; all.settle(false) && has_posted(&rt, &mut all, 2, 200)?);
    Ok(())
}

// Whether the first lines of two clients are told as stored.
fn have_both_posted<R: AllocGlobal + RandomSource>(
    rt: &R,
    collector: &mut Collecting,
) -> Result<bool, Fail> {
    Ok(has_posted(rt, collector, 0, 200)? && has_posted(rt, collector, 1, 200)?)
}

// Two files that were open are read back, which takes all pieces of the round.
#[test]
fn files_are_closed_for_connections(rt: HostRuntime) -> Result<(), Fail> {
    let mut all = begin(&rt, NEVER, 9, 1 << 20)?;
    assert!(rt; have_both_posted(&rt, &mut all)? && all.settle(false));
    assert!(rt; have_both_posted(&rt, &mut all)? && !all.has_read_enough());
    assert!(rt; all.settle(false) && all.settle(true));
    assert!(rt; have_both_posted(&rt, &mut all)? && all.has_read_enough());
    Ok(())
}

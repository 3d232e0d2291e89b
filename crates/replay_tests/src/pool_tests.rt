//! Workers that meet.
use crate::made::{patch, site, visit};
use page_tree::{NoMemory, Page};
use replay_workers::replay_all;
use site_hooks::{SiteHooks, SiteLaw, Table};
use std::alloc::AllocError;
use std::process::Abort;
use std::sync::atomic::{AtomicBool, Ordering};
use std::test::Fail;
use std::thread;
use visit_replay::{Finding, Outcome};

// A site that makes a page at `/a` and one at another address only while both are asked for.
#[derive(Drop)]
struct Meets {
    pages: Table,
    at_a: AtomicBool,
    elsewhere: AtomicBool,
}

impl SiteLaw for Meets {
    ghost use Rattle.site_hooks.specs.Table.{table_page, signals_in};

    ghost page_of = { λ site address. table_page site.pages address };

    ghost signals = { λ site address old new. signals_in site.pages old new };
}

impl SiteHooks for Meets {
    fn make(&self, address: &str) -> Result<Option<Page>, NoMemory> {
        let both = if address == "/a" {
            comes(&self.at_a, &self.elsewhere)
        } else {
            comes(&self.elsewhere, &self.at_a)
        };
        if !both {
            return Err(AllocError);
        }
        self.pages.make(address)
    }

    fn signals(&self, address: &str, old: &Page, new: &Page) -> Result<bool, NoMemory> {
        self.pages.signals(address, old, new)
    }
}

// Whether the other came too. Neither goes on alone, but for the wait's limit.
fn comes(own: &AtomicBool, other: &AtomicBool) -> bool {
    own.store(true, Ordering::SeqCst);
    for _ in 0..20_000_000 {
        if other.load(Ordering::SeqCst) {
            return true;
        }
        thread::yield_now();
    }
    false
}

// Whether two visits are done.
fn are_done(all: &[Vec<Outcome>]) -> bool {
    match all {
        [own] => matches!(own.as_slice(), [Outcome::Done { .. }, Outcome::Done { .. }]),
        _ => false,
    }
}

// One visit after the other would have the first one's page refused.
#[test]
fn workers_meet(rt: HostRuntime) -> Result<(), Fail> {
    let addresses = ["/a", "/b"];
    let hooks = Meets {
        pages: site(rt.alloc(), &addresses)?,
        at_a: AtomicBool::new(false),
        elsewhere: AtomicBool::new(false),
    };
    let patch = patch(rt.alloc(), &addresses)?;
    let visits = [visit(rt.alloc(), 1, "/a")?, visit(rt.alloc(), 2, "/b")?];
    let all = replay_all(&rt, 2, &hooks, &patch, &Finding::by_path(), &[&visits])?;
    assert!(rt; are_done(&all));
    Ok(())
}

use crate::fixtures::uploads;
use byte_streams::Told;
use site_line::Site;
use std::hash::RandomState;
use std::process::Abort;
use std::test::Fail;
use stream_fakes::Sips;
use stream_fakes::lines::{ONE_CLICK, SECOND_CLICK};
use warp_server::answer;

// The page has two links now, and both clients' visits are decided.
const SITE: &str =
    r#"{"patched":["/a"],"pages":{"/a":{"n":"html","c":[{"n":"body","c":[{"n":"a","a":{"href":"/b"},"c":["go"]},{"n":"a","a":{"href":"/c"},"c":["no"]}]}]}},"decide":[["c2",1,"keep"],["c1",1,"cancel"]]}"#;

const REPORT: &str =
    "stop none\nclient c1 taken 3 end bye cost 187 lost 0\nvisit 1 cancelled K3 at 1\nclient c2 taken 3 end bye cost 187 lost 0\nvisit 1 kept K3 at 1\nload 0 \"/a\"\ndecide c2 1 keep ok\ndecide c1 1 cancel ok\n";

#[test]
fn answers_two_clients_at_once(rt: HostRuntime) -> Result<(), Fail> {
    let alloc = rt.alloc();
    let site = Site::read(alloc, RandomState::new(&rt)?, SITE.as_bytes())?;
    let uploads = uploads(alloc, &[ONE_CLICK, SECOND_CLICK])?;
    let mut sips = Sips::new(alloc, 7, None);
    match answer(&rt, &site, uploads, &mut Told::new(&mut sips)) {
        Ok(answered) => assert!(rt;
            answered.report.is_ok() && answered.gathered.clients.len() == 2
        ),
        Err(_) => return Err(Fail::from("no answer")),
    }
    assert!(rt; sips.taken.as_slice() == REPORT.as_bytes());
    Ok(())
}

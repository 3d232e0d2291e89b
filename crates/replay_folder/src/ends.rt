//! What became of an upload, and how the program ends by that.
ghost use Rattle.std.specs.Prelude.{◌≡◌};
ghost use Rattle.std.specs.List.{list_any};
ghost use Rattle.replay_folder.specs.Ends.{is_refused, folder_status};

use upload_reader::{Client, Ending, HelloFault};
use warp_run::Status;

/// What became of an upload.
#[derive(Drop)]
pub enum UploadEnd {
    /// U5: it can't be opened.
    Unopened,
    /// U1 to U3: it doesn't begin with a hello.
    NoHello(HelloFault),
    /// How many messages of this client were taken of it, and how it ended.
    Taken {
        client: Client,
        taken: u64,
        end: Option<Ending>,
    },
    /// Nothing was taken of it, since memory was refused before.
    Unread,
}

/// How the program ends by these, where the taking of uploads ended so.
pub(crate) fn folder_status(taking: Status, ends: &[UploadEnd]) -> Status
    ensures { result ≡ folder_status taking ends.now }
{
    match taking {
        Status::Done => if any_refused(ends) {
            Status::BadHello
        } else {
            Status::Done
        },
        other => other,
    }
}

fn any_refused(ends: &[UploadEnd]) -> bool
    ensures { result ≡ list_any is_refused ends.now }
{
    ends.iter().any(|end| is_refused(end))
}

fn is_refused(end: &UploadEnd) -> bool
    ensures { result ≡ is_refused end.now }
{
    match end {
        UploadEnd::Unopened => true,
        UploadEnd::NoHello(_) => true,
        UploadEnd::Taken { .. } => false,
        UploadEnd::Unread => false,
    }
}

//! The hello that the file of a name begins with.
ghost use Rattle.std.specs.Prelude.{IfOk};
ghost use Rattle.byte_streams.specs.Reading.{WasRead};
ghost use Rattle.replay_folder.specs.inside.{GreetsSource, GreetsNamed};
ghost use Rattle.replay_folder.specs.declared.names.Named.TheVariants.{File};

use crate::ends::UploadEnd;
use crate::names::Named;
use crate::opens::OpensUploads;
use byte_streams::{Lines, Source};
use page_tree::NoMemory;
use std::alloc::{AllocError, Global};
use std::io::ErrorKind;
use upload_reader::{HelloFault, Upload};

/// The upload behind the hello that the file of that name begins with; or what becomes of it without one.
pub(crate) fn greet_named<F: Source + Drop, O: OpensUploads<File = F>>(
    alloc: Global,
    opener: &O,
    named: &Named,
) -> Result<Result<Upload<F>, UploadEnd>, NoMemory>
    ensures { IfOk result (GreetsNamed (WasRead F.answers F.remaining) (O.opened opener.now) named.now) }
{
    match named {
        Named::Unlisted(_) => Ok(Err(UploadEnd::Unopened)),
        Named::File(name) => greet_path(alloc, opener, name.as_str()),
    }
}

// The same of the file at that path.
fn greet_path<F: Source + Drop, O: OpensUploads<File = F>>(
    alloc: Global,
    opener: &O,
    path: &str,
) -> Result<Result<Upload<F>, UploadEnd>, NoMemory>
    ensures { IfOk result (GreetsNamed (WasRead F.answers F.remaining) (O.opened opener.now) (File path.now)) }
{
    match opener.open(path) {
        Ok(file) => greet_source(alloc, file),
        Err(error) => match error.kind() {
            ErrorKind::OutOfMemory => Err(AllocError),
            _ => Ok(Err(UploadEnd::Unopened)),
        },
    }
}

// The same of a source. One without a hello is let go.
fn greet_source<F: Source + Drop>(
    alloc: Global,
    file: F,
) -> Result<Result<Upload<F>, UploadEnd>, NoMemory>
    ensures { IfOk result (GreetsSource (WasRead F.answers F.remaining) file) }
{
    let lines = Lines::over(alloc, file)?;
    match Upload::hello(alloc, lines) {
        Ok(upload) => Ok(Ok(upload)),
        Err(refused) => {
            let _file = refused.lines.into_reader();
            match refused.fault {
                HelloFault::NoMemory => Err(AllocError),
                fault => Ok(Err(UploadEnd::NoHello(fault))),
            }
        }
    }
}

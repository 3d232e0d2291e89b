//! Uploads made of texts.
ghost use Rattle.std.specs.Prelude.{IfOk, OnOk};
ghost use Rattle.std.specs.List.{AllByRecursion};
ghost use Rattle.upload_reader.specs.Upload.{IsUntouched};

use byte_streams::{Fed, Lines};
use std::alloc::Global;
use std::test::Fail;
use stream_fakes::Drip;
use stream_fakes::lines::joined;
use upload_reader::Upload;

pub(crate) type Reader = Fed<Drip>;

// The lines of each upload.
pub(crate) type Lanes = &'static [&'static [&'static str]];

// The upload of these lines, the first of which is its hello.
fn upload(alloc: Global, lines: &[&str]) -> Result<Upload<Reader>, Fail>
    ensures { IfOk result IsUntouched }
{
    let text = joined(alloc, lines)?;
    let reader = Fed::new(Drip::new(alloc, text.as_bytes(), 50)?);
    match Upload::hello(alloc, Lines::over(alloc, reader)?) {
        Ok(upload) => Ok(upload),
        Err(refused) => Err(Fail::from(refused.fault)),
    }
}

fn add(uploads: &mut Vec<Upload<Reader>>, upload: Upload<Reader>) -> Result<(), Fail>
    requires others { AllByRecursion IsUntouched uploads.old.items }
    requires one { IsUntouched upload }
    ensures { OnOk result (AllByRecursion IsUntouched uploads.new.items) }
{
    uploads.push(upload)?;
    Ok(())
}

// Of each client an upload of its lines.
pub(crate) fn uploads(alloc: Global, lanes: Lanes) -> Result<Vec<Upload<Reader>>, Fail>
    ensures { IfOk result (λ uploads. AllByRecursion IsUntouched uploads.items) }
{
    let mut uploads = Vec::new(alloc);
    for lines in lanes {
        add(&mut uploads, upload(alloc, lines)?)?;
    }
    Ok(uploads)
}

//! Answers of one text.
ghost use Rattle.std.specs.Prelude.{◌≡◌, [], codes, IfOk, OnOk, IsTrue};
ghost use Rattle.http_header.specs.FieldValue.{is_visible_text};
ghost use Rattle.http_server.specs.Response.{IsBlank, IsResponse};
ghost use Rattle.review_service.specs.Fields.{drawing_style_fields, typed_fields};

use crate::fields::{add_drawing_style, add_text};
use bytes::Bytes;
use http_server::Response;
use page_tree::NoMemory;
use std::alloc::AllocError;

/// A text of that type that the program has.
pub(crate) fn give_file(
    kind: &'static str,
    file: &'static [u8],
    response: &mut Response,
) -> Result<(), NoMemory>
    requires blank { IsBlank response.old }
    requires visible { IsTrue (is_visible_text kind.now) }
    ensures { OnOk result (IsResponse 200 (typed_fields kind.now) file.now response.new) }
{
    add_text(response, kind)?;
    response.body.push(Bytes::from_static(file))
}

/// The style of drawn pages.
pub(crate) fn give_drawing_style(
    file: &'static [u8],
    response: &mut Response,
) -> Result<(), NoMemory>
    requires { IsBlank response.old }
    ensures { OnOk result (IsResponse 200 drawing_style_fields file.now response.new) }
{
    add_drawing_style(response)?;
    response.body.push(Bytes::from_static(file))
}

/// A plain text.
pub(crate) fn say_text(text: Vec<u8>, response: &mut Response) -> Result<(), NoMemory>
    requires { IsBlank response.old }
    ensures { OnOk result
        (IsResponse 200 (typed_fields (codes "text/plain; charset=utf-8")) text.items response.new) }
{
    add_text(response, "text/plain; charset=utf-8")?;
    response.body.push(shared(text)?)
}

/// The bytes, of which none is copied.
pub(crate) fn shared(text: Vec<u8>) -> Result<Bytes, NoMemory>
    ensures { IfOk result (λ bytes. bytes ≡ text.items) }
{
    match Bytes::from_vec(text) {
        Ok(bytes) => Ok(bytes),
        Err(_) => Err(AllocError),
    }
}

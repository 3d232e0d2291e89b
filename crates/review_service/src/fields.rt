//! The fields of the answers.
ghost use Rattle.std.specs.Prelude.{[], codes, OnOk, IsTrue};
ghost use Rattle.http_header.specs.FieldValue.{is_visible_text};
ghost use Rattle.http_server.specs.Response.{IsBlank, IsResponse};
ghost use Rattle.review_service.specs.Fields.{common_fields, drawing_policy, drawing_style_fields, html_fields, own_fields, page_policy, typed_fields};

use http::{HeaderName, HeaderValue};
use http_header::{
    CACHE_CONTROL, CONTENT_SECURITY_POLICY, CONTENT_TYPE, REFERRER_POLICY, X_CONTENT_TYPE_OPTIONS,
};
use http_server::Response;
use page_tree::NoMemory;

/// Of every answer.
pub(crate) fn add_common(response: &mut Response) -> Result<(), NoMemory>
    requires { IsBlank response.old }
    ensures { OnOk result (IsResponse 200 common_fields [] response.new) }
{
    response.add_header(CACHE_CONTROL, HeaderValue::from_static("no-store"))?;
    response.add_header(X_CONTENT_TYPE_OPTIONS, HeaderValue::from_static("nosniff"))?;
    response.add_header(REFERRER_POLICY, HeaderValue::from_static("same-origin"))?;
    response.add_header(
        HeaderName::from_static("cross-origin-opener-policy"),
        HeaderValue::from_static("same-origin"),
    )
}

/// Of every answer that pages of other origins can't load.
pub(crate) fn add_own(response: &mut Response) -> Result<(), NoMemory>
    requires { IsBlank response.old }
    ensures { OnOk result (IsResponse 200 own_fields [] response.new) }
{
    add_common(response)?;
    response.add_header(
        HeaderName::from_static("cross-origin-resource-policy"),
        HeaderValue::from_static("same-origin"),
    )
}

/// Of a text, the script, and the page's style.
pub(crate) fn add_text(response: &mut Response, kind: &'static str) -> Result<(), NoMemory>
    requires blank { IsBlank response.old }
    requires visible { IsTrue (is_visible_text kind.now) }
    ensures { OnOk result (IsResponse 200 (typed_fields kind.now) [] response.new) }
{
    add_own(response)?;
    response.add_header(CONTENT_TYPE, HeaderValue::from_static(kind))
}

/// Of the style of drawn pages, whose origin in their frame is none.
pub(crate) fn add_drawing_style(response: &mut Response) -> Result<(), NoMemory>
    requires { IsBlank response.old }
    ensures { OnOk result (IsResponse 200 drawing_style_fields [] response.new) }
{
    add_common(response)?;
    response.add_header(
        CONTENT_TYPE,
        HeaderValue::from_static("text/css; charset=utf-8"),
    )
}

/// Of a page.
pub(crate) fn add_page(response: &mut Response) -> Result<(), NoMemory>
    requires { IsBlank response.old }
    ensures { OnOk result (IsResponse 200 (html_fields page_policy) [] response.new) }
{
    add_html(response)?;
    response.add_header(
        CONTENT_SECURITY_POLICY,
        HeaderValue::from_static(
            "default-src 'none'; style-src 'self'; script-src 'self'; connect-src 'self'; frame-src 'self'; form-action 'self'; base-uri 'none'; frame-ancestors 'none'",
        ),
    )
}

/// Of a drawn page.
pub(crate) fn add_drawing(response: &mut Response) -> Result<(), NoMemory>
    requires { IsBlank response.old }
    ensures { OnOk result (IsResponse 200 (html_fields drawing_policy) [] response.new) }
{
    add_html(response)?;
    response.add_header(
        CONTENT_SECURITY_POLICY,
        HeaderValue::from_static(
            "default-src 'none'; style-src 'self'; form-action 'none'; base-uri 'none'; frame-ancestors 'self'; sandbox",
        ),
    )
}

fn add_html(response: &mut Response) -> Result<(), NoMemory>
    requires { IsBlank response.old }
    ensures { OnOk result (IsResponse 200 (typed_fields (codes "text/html; charset=utf-8")) [] response.new) }
{
    add_text(response, "text/html; charset=utf-8")
}

//! Lines of uploads and of sites.
use std::alloc::{AllocError, Global};

/// The lines, each with its line end.
pub fn joined(alloc: Global, lines: &[&str]) -> Result<String, AllocError> {
    let mut text = String::new(alloc);
    for line in lines {
        text.push_str(line)?;
        text.push_str("\n")?;
    }
    Ok(text)
}

/// The first visit's page: one link in the body, to `/b`.
pub const LOAD: &str =
    r#"{"t":"load","visit":1,"at":1,"path":"/a","page":{"n":"html","c":[{"n":"body","c":[{"n":"a","a":{"href":"/b"},"c":["go"]}]}]}}"#;

pub const CLICK: &str = r#"{"t":"click","visit":1,"at":2,"target":"/html/body/a","req":1}"#;

pub const END: &str = r#"{"t":"end","visit":1,"at":3}"#;

pub const BYE: &str = r#"{"t":"bye"}"#;

pub const HELLO: &str = r#"{"t":"hello","client":"c1"}"#;

pub const SECOND_HELLO: &str = r#"{"t":"hello","client":"c2"}"#;

pub const ONE_CLICK: &[&str] = &[HELLO, LOAD, CLICK, END, BYE];

pub const SECOND_CLICK: &[&str] = &[SECOND_HELLO, LOAD, CLICK, END, BYE];

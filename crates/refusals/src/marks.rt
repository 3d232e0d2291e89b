//! Where a case's call begins and ends. Standard error says so, for somebody outside who refuses what is allocated in between.

/// What stands where nothing was refused.
pub(crate) const WHOLE: &str = "whole";

pub(crate) fn begin<T: Eprint>(rt: &T) {
    let _ = rt.eprintln("begin");
}

pub(crate) fn end<T: Eprint>(rt: &T) {
    let _ = rt.eprintln("end");
}

/// This answer where that holds; else the answer is wrong.
pub(crate) fn answer(right: bool, text: &'static str) -> Option<&'static str> {
    if right { Some(text) } else { None }
}

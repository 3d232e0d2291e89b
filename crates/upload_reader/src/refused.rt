use crate::hello_fault::HelloFault;
use byte_streams::{Lines, Source};

/// An upload that doesn't begin: its lines, behind what was taken of them, and why.
#[derive(Drop)]
pub struct Refused<R: Source> {
    pub lines: Lines<R>,
    pub fault: HelloFault,
}

//! How an upload begins.
ghost use Rattle.std.specs.Prelude.{◌≡◌, ◌≤◌, [], IfOk, IfErr};
ghost use Rattle.upload_reader.specs.Greeting.{hello_fault_of};
ghost use Rattle.upload_reader.specs.Upload.{Begins, Refuses, upload_behind};

use crate::client::Client;
use crate::hello_fault::HelloFault;
use crate::hello_reading::read_hello;
use crate::lane_fault::LaneFault;
use crate::line_reading::next_text;
use byte_streams::{LineFault, Lines, Source};
use std::alloc::Global;

/// Whose upload it is, by its first line that isn't blank, and the number of that line.
pub(crate) fn greet<R: Source>(
    alloc: Global,
    lines: &mut Lines<R>,
) -> Result<(Client, u64), HelloFault>
    ensures begins { IfOk result (λ hello. Begins lines.old (upload_behind hello.0 lines.new [] hello.1)) }
    ensures few { IfOk result (λ hello. hello.1 ≤ lines.new.place) }
    ensures refused { IfErr result (λ fault. Refuses lines.old lines.new fault) }
{
    let (number, next) = next_text(lines, 0);
    match next {
        Err(fault) => Err(without_hello(number, fault)),
        Ok(()) => match read_hello(alloc, number, lines.line()) {
            Ok(client) => Ok((client, number)),
            Err(fault) => Err(fault),
        },
    }
}

// U3 where there is no line, and U4 for want of memory.
fn without_hello(number: u64, fault: LineFault) -> HelloFault
    ensures { result ≡ hello_fault_of number fault }
{
    match LaneFault::of(fault) {
        Some(fault) => HelloFault::Line {
            line: number,
            fault,
        },
        None => HelloFault::NoMemory,
    }
}

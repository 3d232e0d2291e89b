//! Texts as JSON strings, added piece by piece.
ghost use Rattle.std.specs.Prelude.{◌≡◌, ◌<◌, true};
ghost use Rattle.std.specs.Char.{digit_char};
ghost use Rattle.json.specs.Print.{escape, escape_byte, escape_letter};
ghost use Rattle.json.specs.Run.{is_stop};
ghost use Rattle.warp_run.specs.Buffer.{AddsText};
ghost use Rattle.warp_run.specs.Report.{json_string};

use super::buffer::ReportBuffer;
use super::stops::first_stop;
use byte_streams::Sink;

/// Adds the text as a JSON string.
pub fn add_quoted<W: Sink>(buffer: &mut ReportBuffer, writer: &mut W, text: &str)
    ensures { AddsText W.puts W.contents writer.old buffer.old writer.new buffer.new (json_string text.now) }
{
    buffer.add(writer, "\"");
    add_escaped(buffer, writer, text.as_bytes());
    buffer.add(writer, "\"");
}

// Each run of bytes that stand for themselves, and the escape behind it.
pub(super) fn add_escaped<W: Sink>(buffer: &mut ReportBuffer, writer: &mut W, bytes: &[u8])
    ensures { AddsText W.puts W.contents writer.old buffer.old writer.new buffer.new (escape bytes.now) }
{
    let mut rest = bytes;
    while let Some(at) = first_stop(rest) {
        let (run, behind) = rest.split_at(at);
        buffer.add_bytes(writer, run);
        add_escape(buffer, writer, behind[0]);
        rest = &behind[1..];
    }
    buffer.add_bytes(writer, rest);
}

fn add_escape<W: Sink>(buffer: &mut ReportBuffer, writer: &mut W, byte: u8)
    requires { is_stop byte ≡ true }
    ensures { AddsText W.puts W.contents writer.old buffer.old writer.new buffer.new (escape_byte byte) }
{
    let letter = escape_letter(byte);
    if letter != 0 {
        buffer.add_bytes(writer, &[b'\\', letter]);
    } else {
        let (high, low) = (hex_digit(byte / 16), hex_digit(byte % 16));
        buffer.add_bytes(writer, &[b'\\', b'u', b'0', b'0', high, low]);
    }
}

// The letter of a short escape, or 0 where the byte has none.
fn escape_letter(byte: u8) -> u8
    ensures { result ≡ escape_letter byte }
{
    match byte {
        b'"' => b'"',
        b'\\' => b'\\',
        8 => b'b',
        9 => b't',
        10 => b'n',
        12 => b'f',
        13 => b'r',
        _ => 0,
    }
}

fn hex_digit(digit: u8) -> u8
    requires { digit < 16 }
    ensures { result ≡ digit_char digit }
{
    if digit < 10 {
        b'0' + digit
    } else {
        b'a' + (digit - 10)
    }
}

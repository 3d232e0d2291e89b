//! A report is written as it is made, by a buffer of fixed size.
ghost use Rattle.std.specs.Prelude.{◌≡◌, ◌+◌, ◌*◌, ◌≤◌, [], ◌++◌, ℕ, List, IfOk, IsTrue, length, decimal, vec_len, vec_capacity};
ghost use Rattle.byte_streams.specs.Writing.{writes_of};
ghost use Rattle.form_urlencoded.specs.Form.{byte_serialize, serialize_byte};
ghost use Rattle.warp_run.specs.Buffer.{HasAdded, IsUnused, AddsText};
ghost use Rattle.warp_run.specs.Report.{WritesReport};

use super::fault::ReportFault;
use byte_streams::{Sink, write_text};
use form_urlencoded::byte_serialize;
use itoa::Buffer;
use page_tree::NoMemory;
use percent_encoding::percent_encode_byte;
use std::alloc::Global;
use visit_replay::written_as;

/// How many bytes are held back at most.
const ROOM: usize = 65_536;

/// A report's text on its way to a writer, which takes it in pieces of that size. It asks for memory when it is made, and never again. Once a write has
/// failed it makes no further write, and drops what is added.
#[derive(Drop)]
pub struct ReportBuffer {
    held: Vec<u8>,
    failed: bool,
}

impl ReportBuffer {
    /// Nothing was added yet.
    pub fn new(alloc: Global) -> Result<ReportBuffer, NoMemory>
        ensures { IfOk result IsUnused }
    {
        let held = Vec::with_capacity(alloc, ROOM)?;
        Ok(ReportBuffer {
            held,
            failed: false,
        })
    }

    /// Whether a write failed or took nothing.
    pub fn has_failed(&self) -> bool
        ensures { result ≡ self.now.failed }
    {
        self.failed
    }

    /// Adds a text behind what was added before.
    pub fn add<W: Sink>(&mut self, writer: &mut W, text: &str)
        ensures { AddsText W.puts W.contents writer.old self.old writer.new self.new text.now }
    {
        self.add_bytes(writer, text.as_bytes());
    }

    /// Adds words, and a number behind them.
    pub fn add_with_number<W: Sink>(&mut self, writer: &mut W, words: &str, number: u64)
        ensures { AddsText W.puts W.contents writer.old self.old writer.new self.new (words.now ++ decimal number) }
    {
        let mut digits = Buffer::new();
        self.add(writer, words);
        self.add(writer, digits.format(number));
    }

    /// Adds bytes.
    pub(super) fn add_bytes<W: Sink>(&mut self, writer: &mut W, bytes: &[u8])
        ensures { AddsText W.puts W.contents writer.old self.old writer.new self.new bytes.now }
    {
        if self.has_room(bytes) {
            self.hold(bytes);
            return;
        }
        self.write_held(writer);
        if self.has_room(bytes) {
            self.hold(bytes);
        } else {
            self.write_over(writer, bytes);
        }
    }

    /// Adds a word as `application/x-www-form-urlencoded` has it.
    pub(super) fn add_encoded<W: Sink>(&mut self, writer: &mut W, word: &str)
        ensures { AddsText W.puts W.contents writer.old self.old writer.new self.new (byte_serialize word.now) }
    {
        let bytes = word.as_bytes();
        if self.has_room_encoded(bytes) {
            self.hold_encoded(bytes);
            return;
        }
        self.write_held(writer);
        if self.has_room_encoded(bytes) {
            self.hold_encoded(bytes);
        } else {
            self.add_pieces(writer, bytes);
        }
    }

    /// Writes what is held back still. O1 where this write failed or one before it.
    pub fn finish<W: Sink>(self, writer: &mut W) -> Result<(), ReportFault>
        ensures { (first : W) (text : List ℕ) → HasAdded (writes_of W.puts W.contents first writer.old) self text
            → WritesReport (writes_of W.puts W.contents first writer.new) text result }
    {
        if self.failed {
            return Err(ReportFault::WriteFailed);
        }
        match write_text(writer, self.held.as_slice()) {
            Ok(()) => Ok(()),
            Err(_) => Err(ReportFault::WriteFailed),
        }
    }

    fn has_room(&self, bytes: &[u8]) -> bool
        ensures { IsTrue result → vec_len self.now.held + length bytes.now ≤ vec_capacity self.now.held }
    {
        bytes.len() <= self.held.capacity() - self.held.len()
    }

    // Each byte is written as three at most.
    fn has_room_encoded(&self, word: &[u8]) -> bool
        ensures { IsTrue result → vec_len self.now.held + 3 * length word.now ≤ vec_capacity self.now.held }
    {
        word.len() <= (self.held.capacity() - self.held.len()) / 3
    }

    fn hold(&mut self, bytes: &[u8])
        requires { vec_len self.old.held + length bytes.now ≤ vec_capacity self.old.held }
        ensures held { self.new.held.items ≡ self.old.held.items ++ bytes.now }
        ensures len { vec_len self.new.held ≡ vec_len self.old.held + length bytes.now }
        ensures capacity { vec_capacity self.old.held ≤ vec_capacity self.new.held }
        ensures failed { self.new.failed ≡ self.old.failed }
    {
        let Ok(()) = self.held.extend_from_slice(bytes) else {
            unreachable!()
        };
    }

    fn hold_encoded(&mut self, word: &[u8])
        requires { vec_len self.old.held + 3 * length word.now ≤ vec_capacity self.old.held }
        ensures held { self.new.held.items ≡ self.old.held.items ++ byte_serialize word.now }
        ensures failed { self.new.failed ≡ self.old.failed }
    {
        for byte in word {
            self.hold_one(*byte);
        }
    }

    // One byte of a word.
    fn hold_one(&mut self, byte: u8)
        requires { vec_len self.old.held + 3 ≤ vec_capacity self.old.held }
        ensures held { self.new.held.items ≡ self.old.held.items ++ serialize_byte byte }
        ensures len { vec_len self.new.held ≤ vec_len self.old.held + 3 }
        ensures capacity { vec_capacity self.old.held ≤ vec_capacity self.new.held }
        ensures failed { self.new.failed ≡ self.old.failed }
    {
        let one = written_as(byte);
        if one == 0 {
            self.hold(percent_encode_byte(byte).as_bytes());
        } else {
            self.held.push_reserved(one);
        }
    }

    // A word that may be too long to be held back whole, piece by piece.
    fn add_pieces<W: Sink>(&mut self, writer: &mut W, word: &[u8])
        ensures { AddsText W.puts W.contents writer.old self.old writer.new self.new (byte_serialize word.now) }
    {
        for piece in byte_serialize(word) {
            self.add(writer, piece);
        }
    }

    // Nothing is held back behind it.
    fn write_held<W: Sink>(&mut self, writer: &mut W)
        ensures added { AddsText W.puts W.contents writer.old self.old writer.new self.new [] }
        ensures held { self.new.held.items ≡ [] }
    {
        if self.failed {
            self.held.clear();
            return;
        }
        self.failed = write_text(writer, self.held.as_slice()).is_err();
        self.held.clear();
    }

    // Where nothing is held back, the bytes go straight to the writer.
    fn write_over<W: Sink>(&mut self, writer: &mut W, bytes: &[u8])
        requires { self.old.held.items ≡ [] }
        ensures { AddsText W.puts W.contents writer.old self.old writer.new self.new bytes.now }
    {
        if self.failed {
            return;
        }
        self.failed = write_text(writer, bytes).is_err();
    }
}

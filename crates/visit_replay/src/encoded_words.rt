//! What is left of a text behind a word as `application/x-www-form-urlencoded` has it; none where it begins otherwise.
ghost use Rattle.std.specs.Prelude.{◌≡◌, ◌≢◌, [], ◌∷◌, option_map};
ghost use Rattle.form_urlencoded.specs.Form.{byte_serialize, serialize_byte};
ghost use Rattle.form_urlencoded.specs.Percent.{percent_encode_byte};
ghost use Rattle.visit_replay.specs.inside.FieldsNow.{left_behind};

use crate::comparing::behind;
use form_urlencoded::byte_serialize;

/// Behind that word. Most bytes are written as one byte, so both texts are gone through side by side up to the first that isn't. Each byte is written as one at
/// least, so a word that is longer than the text isn't looked at.
pub(crate) fn word_behind<'t>(word: &str, text: &'t [u8]) -> Option<&'t [u8]>
    ensures { option_map (λ rest. rest.now) result ≡ left_behind (byte_serialize word.now) text.now }
{
    let word = word.as_bytes();
    if text.len() < word.len() {
        return None;
    }
    for at in 0..word.len() {
        let one = written_as(word[at]);
        if one == 0 {
            return pieces_behind(&word[at..], &text[at..]);
        }
        if one != text[at] {
            return None;
        }
    }
    Some(&text[word.len()..])
}

#[rattlefmt::skip]
static WRITTEN: [u8; 256] = *b"\
    \0\0\0\0\0\0\0\0\0\0\0\0\0\0\0\0\0\0\0\0\0\0\0\0\0\0\0\0\0\0\0\0\
    +\0\0\0\0\0\0\0\0\0*\0\0-.\00123456789\0\0\0\0\0\0\
    \0ABCDEFGHIJKLMNOPQRSTUVWXYZ\0\0\0\0_\
    \0abcdefghijklmnopqrstuvwxyz\0\0\0\0\0\
    \0\0\0\0\0\0\0\0\0\0\0\0\0\0\0\0\0\0\0\0\0\0\0\0\0\0\0\0\0\0\0\0\
    \0\0\0\0\0\0\0\0\0\0\0\0\0\0\0\0\0\0\0\0\0\0\0\0\0\0\0\0\0\0\0\0\
    \0\0\0\0\0\0\0\0\0\0\0\0\0\0\0\0\0\0\0\0\0\0\0\0\0\0\0\0\0\0\0\0\
    \0\0\0\0\0\0\0\0\0\0\0\0\0\0\0\0\0\0\0\0\0\0\0\0\0\0\0\0\0\0\0\0";

/// What a byte of a word is written as, if that is one byte; else 0.
pub fn written_as(byte: u8) -> u8
    ensures one { result ≢ 0 → serialize_byte byte ≡ result ∷ [] }
    ensures escaped { result ≡ 0 → serialize_byte byte ≡ percent_encode_byte byte }
{
    WRITTEN[byte as usize]
}

// The same, piece by piece as they are written.
fn pieces_behind<'t>(word: &[u8], text: &'t [u8]) -> Option<&'t [u8]>
    ensures { option_map (λ rest. rest.now) result ≡ left_behind (byte_serialize word.now) text.now }
{
    let mut rest = text;
    for piece in byte_serialize(word) {
        rest = behind(piece, rest)?;
    }
    Some(rest)
}

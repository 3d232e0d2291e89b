//! How much of a body counts, so that no body holds up the answers to all others.
ghost use Rattle.std.specs.Prelude.{◌≡◌, ◌∷◌, ◌++◌, ℕ, List, [], take, position, MatchOption};
ghost use Rattle.byte_streams.specs.Cutting.{is_line_feed};
ghost use Rattle.byte_streams.specs.CompleteLines.{complete_lines};
ghost use Rattle.upload_reader.specs.Front.{bytes_of_lines};
ghost use Rattle.collect_http.specs.Asking.{heard_of, to_line_end};

const MAX_HEARD_LINES: usize = 1024;

const MAX_HEARD_BYTES: usize = 1 << 16;

/// The lines of a body that count. The rest is as if it hadn't been sent.
pub(crate) fn heard_of(body: &[u8]) -> &[u8]
    ensures { result.now ≡ heard_of body.now }
{
    first_lines(to_line_end(body, MAX_HEARD_BYTES), MAX_HEARD_LINES)
}

// So many bytes, and on to the end of the line that stands there.
fn to_line_end(body: &[u8], count: usize) -> &[u8]
    ensures { result.now ≡ to_line_end count body.now }
{
    if body.len() <= count {
        return body;
    }
    match line_feed(&body[count..]) {
        Some(at) => &body[..count + at + 1],
        None => body,
    }
}

fn first_lines(bytes: &[u8], count: usize) -> &[u8]
    ensures { result.now ≡ bytes_of_lines (take count (complete_lines bytes.now)) }
{
    let mut rest = bytes;
    for _ in 0..count {
        match behind_line(rest) {
            Some(more) => rest = more,
            None => break,
        }
    }
    &bytes[..bytes.len() - rest.len()]
}

// What stands behind the first line, if there is a whole one.
fn behind_line(bytes: &[u8]) -> Option<&[u8]>
    ensures { MatchOption result (complete_lines bytes.now ≡ []) (λ more. (line : List ℕ)
        × (complete_lines bytes.now ≡ line ∷ complete_lines more.now) × (bytes.now ≡ line ++ (10 ∷ more.now))) }
{
    let end = line_feed(bytes)?;
    Some(&bytes[end + 1..])
}

fn line_feed(bytes: &[u8]) -> Option<usize>
    ensures { result ≡ position is_line_feed bytes.now }
{
    bytes.iter().position(|c| *c == b'\n')
}

//! Addresses as they are written.
ghost use Rattle.std.specs.Prelude.{◌≡◌, ◌<◌, ◌==◌};
ghost use Rattle.std.specs.List.{before_first};
ghost use Rattle.visit_replay.specs.Form.{bare};

/// An address up to its first `?` or `#`.
pub(crate) fn bare(address: &str) -> &str
    ensures { result.now ≡ bare address.now }
{
    before(before(address, '?'), '#')
}

fn before(text: &str, mark: char) -> &str
    requires { mark < 128 }
    ensures { result.now ≡ before_first (λ c. c == mark) text.now }
{
    match text.split_once(mark) {
        Some((start, _)) => start,
        None => text,
    }
}

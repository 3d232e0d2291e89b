//! Texts are shown as far as there is room.

/// The front of a text, of at most so many bytes. No character is cut.
pub(crate) fn beginning_of(text: &str, most: usize) -> &str {
    let (front, _rest) = text.split_at(text.floor_char_boundary(most));
    front
}

#[cfg(test)]
mod tests {
    use super::*;

    #[test]
    fn cuts(rt: HostRuntime) {
        assert_eq!(rt; beginning_of("abc", 2), "ab");
    }
}

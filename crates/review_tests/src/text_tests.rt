//! `text_difference`: how texts are cut where they differ.
use std::alloc::Global;
use std::process::Abort;
use std::test::Fail;
use text_difference::{TextParts, compare_texts};

// The old text and the new one, and what both begin with, what is gone, what was added, and what both end with.
const CASES: &[(&str, &str, [&str; 4])] = &[
    ("same", "same", ["same", "", "", ""]),
    ("", "x", ["", "", "x", ""]),
    ("abc def", "abc defg", ["abc ", "def", "defg", ""]),
    ("abc def", "abc def ghi", ["abc def", "", " ghi", ""]),
    (
        "one two three",
        "one 2 three",
        ["one ", "two", "2", " three"],
    ),
    ("a a", "a a a", ["a a", "", " a", ""]),
    (
        "na\u{ef}ve text",
        "naive text",
        ["", "na\u{ef}ve", "naive", " text"],
    ),
    ("a\nb\nc", "a\nB\nc", ["a\n", "b", "B", "\nc"]),
];

#[test]
fn cuts_texts_at_words(rt: HostRuntime) -> Result<(), Fail> {
    for (old, new, parts) in CASES {
        let [front, gone, added, rest] = *parts;
        let told = compare_texts(old, new);
        assert!(rt;
            told == TextParts {
                front,
                gone,
                added,
                rest
            }
        );
    }
    Ok(())
}

// A word of that many letters, and then that one.
fn long_word(alloc: Global, count: u32, last: char) -> Result<String, Fail> {
    let mut word = String::new(alloc);
    for _ in 0..count {
        word.push('a')?;
    }
    word.push(last)?;
    Ok(word)
}

// The texts are the same up to their last letter, and all of it is gone over again, since they are one word.
#[test]
fn goes_back_over_a_long_word(rt: HostRuntime) -> Result<(), Fail> {
    let alloc = rt.alloc();
    let old = long_word(alloc, 65_535, 'b')?;
    let new = long_word(alloc, 65_535, 'c')?;
    let told = compare_texts(old.as_str(), new.as_str());
    assert!(rt; told.front.is_empty() && told.rest.is_empty());
    assert!(rt; told.gone == old.as_str() && told.added == new.as_str());
    Ok(())
}

//! Blanks cut off, and words one after another.
use std::test::Fail;
use words::{Separator, cut, cut_text, next_word, split_word, words_of};

/// Texts, and how many words they have between blanks, and between blanks and line ends.
const TEXTS: [(&str, usize, usize); 5] = [
    ("", 0, 0),
    (" \t ", 0, 0),
    ("count", 1, 1),
    ("\tbox 1  2 ", 3, 3),
    ("0 0\r\n1 0", 3, 4),
];

#[test]
fn words_are_counted(rt: HostRuntime) -> Result<(), Fail> {
    let alloc = rt.alloc();
    for (text, of_line, of_lines) in TEXTS {
        let counts = (
            words_of(alloc, text, Separator::Blank)?.len(),
            words_of(alloc, text, Separator::BlankOrLineEnd)?.len(),
        );
        assert!(rt; counts == (of_line, of_lines), "{text:?}");
    }
    let words = words_of(alloc, "\tbox 1  2 ", Separator::Blank)?;
    assert!(rt; words.as_slice() == ["box", "1", "2"].as_slice());
    Ok(())
}

#[test]
fn a_text_is_cut(rt: HostRuntime) {
    assert!(rt; cut(b" a\tb\t ".as_slice()) == b"a\tb".as_slice());
    assert!(rt; cut_text("\t").is_empty());
}

#[test]
fn a_word_is_split_off(rt: HostRuntime) {
    assert!(rt; split_word("load two words", Separator::Blank) == ("load", " two words"));
    assert!(rt; next_word(" 10 20", Separator::Blank) == Some(("10", " 20")));
    assert!(rt; next_word(" \t", Separator::Blank).is_none());
}

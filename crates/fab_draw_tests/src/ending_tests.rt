//! What a text with some words comes to.

use fab_base::{NoMemory, Seq, SureSink, SureSource};
use fab_drawing::draw;
use std::alloc::Global;
use std::test::Fail;

const BUNDLE: &str = "worker w;hostile worker h;store s;run{post h->s\"3c2f673e\";}\n";

/// What stands behind the bundle, the words, the number of the ending, and what is written: all of a refusal, and of a
/// picture the mark of the bytes that are posted, which are no message, and its end.
const ROWS: [(&str, &str, u8, &str); 12] = [
    (
        "fab report 1\nevent 1 post h s 3c2f673e\nend 1\n",
        "",
        0,
        ">1 post no message, 4 bytes</text></g>\n</svg>\n",
    ),
    (
        "fab report 1\nevent 1 post h s 3c2f673e\nend 1\n",
        "s from 1 to 1",
        0,
        ">1 post no message, 4 bytes</text></g>\n</svg>\n",
    ),
    ("fab report 1\nend 0\n", "w s", 0, "</svg>\n"),
    ("fab report 1\nend 0\n", "w h.s", 1, "usage\n"),
    ("fab report 1\nend 0\n", "from 0 to 3", 1, "usage\n"),
    ("fab report 1\nend 0\n", "from 4 to 3", 1, "usage\n"),
    ("}", "", 5, "syntax at 60\n"),
    ("fab report 1\nend 0\n", "nobody", 6, "name unknown at 60\n"),
    ("", "", 11, "trace at 60\n"),
    ("fab report 1\nend 1\n", "", 11, "trace at 77\n"),
    (
        "fab report 1\nevent 1 begin x\nend 1\n",
        "",
        11,
        "trace at 73\n",
    ),
    (" fab report 1\nend 0\n", "", 5, "syntax at 61\n"),
];

/// The words of a command line.
fn words_of(alloc: Global, words: &str) -> Result<Vec<String>, NoMemory> {
    let mut list = Vec::new(alloc);
    if !words.is_empty() {
        for word in words.split(' ') {
            list.push(String::from_str(alloc, word)?)?;
        }
    }
    Ok(list)
}

/// The number with which it ends, and whether what is written ends so.
fn comes_to(alloc: Global, behind: &str, words: &str, end: &str) -> Result<(u8, bool), NoMemory> {
    let mut text = Seq::from_slice(alloc, BUNDLE.as_bytes())?;
    text.extend(behind.as_bytes())?;
    let mut source = SureSource::new(text);
    let mut sink = SureSink::new(alloc)?;
    let ending = draw(alloc, &words_of(alloc, words)?, &mut source, &mut sink);
    Ok((ending.number(), sink.bytes().ends_with(end.as_bytes())))
}

#[test]
fn endings(rt: HostRuntime) -> Result<(), Fail> {
    for (behind, words, number, end) in ROWS {
        let (found, right) = comes_to(rt.alloc(), behind, words, end)?;
        assert_eq!(rt; found, number);
        assert!(rt; right);
    }
    Ok(())
}

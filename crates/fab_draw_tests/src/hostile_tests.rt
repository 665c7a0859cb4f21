//! Texts of strangers in a picture.

use fab_base::{NoMemory, Seq};
use fab_marks::{Shape, Sign, Spot};
use fab_svg::svg;
use std::alloc::Global;
use std::test::Fail;

/// A text that somebody may write who would draw something of his own, and how it stands in a picture.
const ROWS: [(&[u8], &[u8]); 8] = [
    (
        b"</text><script>alert(1)</script>",
        b"&lt;/text&gt;&lt;script&gt;alert(1)&lt;/script&gt;",
    ),
    (b"' onload='alert(1)", b"&#39; onload=&#39;alert(1)"),
    (b"\" x=\"1", b"&quot; x=&quot;1"),
    (b"&lt;&#60;&amp;", b"&amp;lt;&amp;#60;&amp;amp;"),
    (b"]]><!-- <![CDATA[", b"]]&gt;&lt;!-- &lt;![CDATA["),
    (
        b"<?xml-stylesheet href='//a.example'?>",
        b"&lt;?xml-stylesheet href=&#39;//a.example&#39;?&gt;",
    ),
    (b"\x00\x1b[2J\x7f\xff\n\r\t", b"??[2J?????"),
    (b"\xe2\x80\xae\xc0\xbcscript", b"?????script"),
];

/// A mark with this text as its label and as its title.
fn mark(alloc: Global, text: &[u8]) -> Result<Shape, NoMemory> {
    Ok(Shape::Mark {
        at: Spot { column: 0, row: 1 },
        sign: Sign::Begin,
        label: Seq::from_slice(alloc, text)?,
        title: Seq::from_slice(alloc, text)?,
    })
}

/// Behind the style, the picture of this mark.
fn drawn(alloc: Global, text: &[u8]) -> Result<Seq<u8>, NoMemory> {
    let mut out = Seq::from_slice(alloc, b"fill='white'/>\n<g><title>")?;
    out.extend(text)?;
    out.extend(b"</title><path class='full' d='M240,95m-5 0a5 5 0 1 0 10 0a5 5 0 1 0-10 0'/>")?;
    out.extend(b"<text class='start' x='250' y='90'>")?;
    out.extend(text)?;
    out.extend(b"</text></g>\n</svg>\n")?;
    Ok(out)
}

/// Whether the picture of a mark with this text has this in its place.
fn stands_so(alloc: Global, text: &[u8], wanted: &[u8]) -> Result<bool, NoMemory> {
    let shapes = [mark(alloc, text)?];
    let picture = svg(alloc, &shapes)?;
    let end = drawn(alloc, wanted)?;
    Ok(picture.as_slice().ends_with(end.as_slice()))
}

#[test]
fn hostile_texts_are_escaped(rt: HostRuntime) -> Result<(), Fail> {
    for (text, wanted) in ROWS {
        let right = stands_so(rt.alloc(), text, wanted)?;
        assert!(rt; right);
    }
    Ok(())
}

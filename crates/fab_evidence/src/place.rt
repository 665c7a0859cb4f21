//! Where the report begins in a text that has a bundle in front of it.

ghost use Rattle.std.specs.Prelude.{◌≡◌, ◌↔◌, IsTrue};
ghost use Rattle.fab_evidence.specs.Parts.{BeginsReport, IsPlace};
ghost use Rattle.fab_evidence.specs.Texts.{behind};

/// Whether the first line is the head of a report.
fn begins_report(bytes: &[u8]) -> bool
    ensures { IsTrue result ↔ BeginsReport bytes.now }
{
    match bytes.strip_prefix(b"fab report 1") {
        Some(rest) => rest.is_empty() || rest.starts_with(b"\n"),
        None => false,
    }
}

/// The bytes behind the first line, with its line feed.
fn behind_line(bytes: &[u8]) -> &[u8]
    ensures { result.now ≡ behind 10 bytes.now }
{
    let mut rest = bytes;
    'bytes: while let Some((byte, after)) = rest.split_first() {
        rest = after;
        if *byte == b'\n' {
            return rest;
        }
    }
    rest
}

/// How many bytes stand in front of the report, if there is one. It takes no memory, and goes over the text once.
pub fn report_place(text: &[u8]) -> Option<usize>
    ensures { IsPlace text.now result }
{
    let mut rest = text;
    'lines: while !rest.is_empty() {
        if begins_report(rest) {
            return Some(text.len() - rest.len());
        }
        rest = behind_line(rest);
    }
    None
}

//! A text as a bundle with a report behind it.
ghost use Rattle.std.specs.Prelude.{◌≡◌, ◌+◌, ◌≤◌, length, true};
ghost use Rattle.fab_drawing.specs.Parts.{begins_report as begins_report_at, bundle_length as bundle_length_of, bundle_part, report_part};
ghost use Rattle.fab_picture.specs.Fitting.{place_behind as place_behind_lines};

/// Whether the first line is that of a report.
fn begins_report(bytes: &[u8]) -> bool
    ensures { result ≡ begins_report_at bytes.now }
{
    bytes.starts_with(b"fab report 1\n") || bytes == b"fab report 1".as_slice()
}

/// How many bytes stand in front of the report.
fn bundle_length(text: &[u8]) -> usize
    ensures place { result ≡ bundle_length_of true text.now }
    ensures within { result ≤ length text.now }
{
    let mut len = 0;
    let mut fresh = true;
    let mut rest = text;
    'bytes: while let Some((byte, after)) = rest.split_first() {
        if fresh && begins_report(rest) {
            return len;
        }
        len += 1;
        fresh = *byte == b'\n';
        rest = after;
    }
    len
}

/// The bundle and the report of a text.
pub(crate) fn parted(text: &[u8]) -> (&[u8], &[u8])
    ensures bundle { result.0.now ≡ bundle_part text.now }
    ensures report { result.1.now ≡ report_part text.now }
    ensures whole { length result.0.now + length result.1.now ≡ length text.now }
{
    text.split_at(bundle_length(text))
}

/// The place behind so many line ends.
pub(crate) fn place_behind(lines: usize, bytes: &[u8]) -> usize
    ensures place { result ≡ place_behind_lines lines bytes.now }
    ensures within { result ≤ length bytes.now }
{
    let mut place = 0;
    let mut left = lines;
    let mut rest = bytes;
    'bytes: while let Some((byte, after)) = rest.split_first() {
        if left == 0 {
            return place;
        }
        if *byte == b'\n' {
            left -= 1;
        }
        place += 1;
        rest = after;
    }
    place
}

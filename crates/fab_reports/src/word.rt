//! Given words at the front of some bytes.
ghost use Rattle.std.specs.Prelude.{◌≤◌, ◌≡◌, length};
ghost use Rattle.fab_wire.specs.Reading.{Gives};
ghost use Rattle.fab_reports.specs.Reading.{shared, exactly, kind_at};

use fab_wire::Stop;

/// What is told by its word.
pub(crate) trait Word: Copy {
    ghost use Rattle.std.specs.Prelude.{List, ℕ, ◌≡◌};

    /// How it is spelled.
    ghost text: { Self → List ℕ };

    fn text(self) -> &'static [u8]
        ensures { result.now ≡ text self };
}

/// How many bytes two lists have in common at their fronts.
pub fn shared_front(text: &[u8], bytes: &[u8]) -> usize
    ensures count { result ≡ shared text.now bytes.now }
    ensures within { result ≤ length bytes.now }
{
    let mut count = 0;
    let mut left = text;
    let mut right = bytes;
    'letters: while let Some((letter, letters)) = left.split_first() {
        match right.split_first() {
            Some((byte, others)) if *letter == *byte => {
                left = letters;
                right = others;
                count += 1;
            }
            _ => return count,
        }
    }
    count
}

/// The bytes behind this text.
pub fn behind<'a>(text: &[u8], bytes: &'a [u8]) -> Result<&'a [u8], Stop>
    ensures { Gives (λ rest. (text.now, rest.now)) result (exactly text.now bytes.now) }
{
    let shared = shared_front(text, bytes);
    if shared == text.len() {
        Ok(&bytes[shared..])
    } else {
        Err(Stop::Bad {
            left: bytes.len() - shared,
        })
    }
}

/// Which of a few words stands at the front, and the bytes behind it.
pub(crate) fn one_of<'a, K: Word>(kinds: &[K], bytes: &'a [u8]) -> Result<(K, &'a [u8]), Stop>
    ensures { Gives (λ x. (x.0, x.1.now)) result (kind_at K.text kinds.now bytes.now) }
{
    let mut longest = 0;
    let mut rest = kinds;
    'kinds: while let Some((kind, others)) = rest.split_first() {
        let text = kind.text();
        let shared = shared_front(text, bytes);
        if shared == text.len() {
            return Ok((*kind, &bytes[shared..]));
        }
        longest = longest.max(shared);
        rest = others;
    }
    Err(Stop::Bad {
        left: bytes.len() - longest,
    })
}

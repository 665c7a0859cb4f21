//! Which words are numbers.
ghost use Rattle.std.specs.Prelude.{◌≡◌, map};
ghost use Rattle.fab_asked.specs.Numbers.{has_front, number_of, numbers_of, size_of};

/// The greatest size, and the most reads.
const MOST: u32 = 1000;

/// Whether the word begins with `+`, or with a zero that isn't all of it.
fn has_front(word: &str) -> bool
    ensures { result ≡ has_front word.now }
{
    match word.as_bytes() {
        [] => false,
        [digit] => *digit == b'+',
        [first, _, ..] => *first == b'+' || *first == b'0',
    }
}

/// The number that the word writes in digits, without zeros in front.
fn number_of(word: &str) -> Option<u32>
    ensures { result ≡ number_of word.now }
{
    if has_front(word) {
        return None;
    }
    match word.parse::<u32>() {
        Ok(number) => Some(number),
        Err(_) => None,
    }
}

/// The size that the word writes: a number from 1 to 1,000.
pub(crate) fn size_of(word: &str) -> Option<u32>
    ensures { result ≡ size_of word.now }
{
    let size = number_of(word)?;
    if 1 <= size && size <= MOST {
        Some(size)
    } else {
        None
    }
}

/// The number and the size that the words are.
pub(crate) fn numbers_of(words: &[&str]) -> Option<(u32, u32)>
    ensures { result ≡ numbers_of (map (λ v. v.now) words.now) }
{
    let [number, size] = words else {
        return None;
    };
    let number = number_of(number)?;
    let size = size_of(size)?;
    Some((number, size))
}

//! Numbers, read from the front of some bytes.

ghost use Rattle.std.specs.Prelude.{◌<◌};
ghost use Rattle.fab_wire.specs.Reading.{Gives, number_at, byte_at, count_at};

use crate::stop::Stop;
use byteorder::{BigEndian, ByteOrder};

/// The big-endian number in the first two bytes, and the bytes after it.
pub fn u16_of(bytes: &[u8]) -> Result<(u16, &[u8]), Stop>
    ensures { Gives (λ x. (x.0, x.1.now)) result (number_at 2 bytes.now) }
{
    if bytes.len() < 2 {
        return Err(Stop::Bad { left: 0 });
    }
    Ok((BigEndian::read_u16(bytes), &bytes[2..]))
}

/// The big-endian number in the first four bytes, and the bytes after it.
pub fn u32_of(bytes: &[u8]) -> Result<(u32, &[u8]), Stop>
    ensures { Gives (λ x. (x.0, x.1.now)) result (number_at 4 bytes.now) }
{
    if bytes.len() < 4 {
        return Err(Stop::Bad { left: 0 });
    }
    Ok((BigEndian::read_u32(bytes), &bytes[4..]))
}

/// The first byte, which is to lie from `low` to `high`, and the bytes after it.
pub fn byte_of(bytes: &[u8], low: u8, high: u8) -> Result<(u8, &[u8]), Stop>
    ensures { Gives (λ x. (x.0, x.1.now)) result (byte_at low high bytes.now) }
{
    match bytes {
        [] => Err(Stop::Bad { left: 0 }),
        [byte, rest @ ..] => {
            if low <= *byte && *byte <= high {
                Ok((*byte, rest))
            } else {
                Err(Stop::Bad { left: bytes.len() })
            }
        }
    }
}

/// The big-endian number in the first two bytes, which is to be at most `most` times 256, and the
/// bytes after it. A number that is too great goes wrong at the first of its bytes from which it is.
pub fn count_of(bytes: &[u8], most: u16) -> Result<(u16, &[u8]), Stop>
    requires { most < 256 }
    ensures { Gives (λ x. (x.0, x.1.now)) result (count_at most bytes.now) }
{
    match bytes {
        [] => Err(Stop::Bad { left: 0 }),
        [high, rest @ ..] => {
            if *high as u16 > most {
                return Err(Stop::Bad { left: bytes.len() });
            }
            match rest {
                [] => Err(Stop::Bad { left: 0 }),
                [low, after @ ..] => {
                    let count = *high as u16 * 256 + *low as u16;
                    if count <= most * 256 {
                        Ok((count, after))
                    } else {
                        Err(Stop::Bad { left: rest.len() })
                    }
                }
            }
        }
    }
}

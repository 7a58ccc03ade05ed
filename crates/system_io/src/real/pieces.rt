//! One read or write of a real stream; an interrupted call is made again.

ghost use Rattle.std.specs.Prelude.{◌≤◌, ◌<◌, IfSome, length};

use std::io::{ErrorKind, Read, Write};

/// How many bytes came, or nothing where reading fails.
pub(super) fn read_piece<F: Read>(reader: &mut F, buf: &mut [u8]) -> Option<usize>
    ensures { IfSome result (λ n. n ≤ length buf.old) }
{
    for _turn in 0..u64::MAX {
        match reader.read(buf) {
            Ok(count) => return Some(count),
            Err(error) => {
                if error.kind() != ErrorKind::Interrupted {
                    return None;
                }
            }
        }
    }
    None
}

/// How many bytes of a piece that isn't empty were taken, or nothing where none could be.
pub(super) fn write_piece<W: Write>(writer: &mut W, bytes: &[u8]) -> Option<usize>
    ensures { IfSome result (λ n. (0 < n) × (n ≤ length bytes.now)) }
{
    for _turn in 0..u64::MAX {
        match writer.write(bytes) {
            Ok(count) => {
                if count == 0 {
                    return None;
                }
                return Some(count);
            }
            Err(error) => {
                if error.kind() != ErrorKind::Interrupted {
                    return None;
                }
            }
        }
    }
    None
}

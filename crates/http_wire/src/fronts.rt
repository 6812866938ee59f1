//! The front of a message, in which its head must lie.

ghost use Rattle.std.specs.Prelude.{◌≡◌, ◌≤◌, length, take};
ghost use Rattle.std.specs.Bool.{MatchBool};
ghost use Rattle.http_wire.specs.Fronts.{lines_of, front_of, IsFull};

use crate::limits::{MOST_HEAD_BYTES, MOST_HEAD_LINES};

/// How many bytes a front has, and whether no byte behind them belongs to it.
#[derive(Drop)]
pub struct Front {
    pub len: usize,
    pub full: bool,
}

/// The front of what was read of a message: up to its 65,536th byte or up to its 102nd line feed, whichever comes first.
pub fn find_front(bytes: &[u8]) -> Front
    ensures within { result.len ≤ length bytes.now }
    ensures short { result.len ≤ 65536 }
    ensures lines { lines_of (take result.len bytes.now) ≤ 102 }
    ensures front { take result.len bytes.now ≡ front_of bytes.now }
    ensures full { MatchBool result.full (IsFull bytes.now) (¬ (IsFull bytes.now)) }
{
    let most = &bytes[..MOST_HEAD_BYTES.min(bytes.len())];
    let mut lines = 0;
    for (index, byte) in most.iter().enumerate() {
        if *byte == b'\n' {
            lines += 1;
            if lines == MOST_HEAD_LINES {
                return Front {
                    len: index + 1,
                    full: true,
                };
            }
        }
    }
    Front {
        len: most.len(),
        full: most.len() == MOST_HEAD_BYTES,
    }
}

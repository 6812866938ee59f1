//! How many entries a log had that was moved over.

ghost use Rattle.std.specs.Prelude.{◌≡◌, IfOk};
ghost use Rattle.printing.specs.Lines.{entries_line};

use plain_types::{Bytes, NoMemory};
use std::alloc::Global;

/// One line: the word `entries`, a space, how many there are, a LF.
///
/// # Errors
///
/// [`NoMemory`].
pub fn entries_text(alloc: Global, count: u64) -> Result<Bytes, NoMemory>
    ensures { IfOk result (λ text. text.items ≡ entries_line count) }
{
    let mut digits = itoa::Buffer::new();
    let mut out = Bytes::new(alloc);
    out.extend(b"entries ")?;
    out.extend(digits.format(count).as_bytes())?;
    out.push(b'\n')?;
    Ok(out)
}

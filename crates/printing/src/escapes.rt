//! Texts that stay on one line and in one column.

ghost use Rattle.std.specs.Prelude.{◌≡◌, ◌++◌, OnOk};
ghost use Rattle.printing.specs.Lines.{letter_of, escaped, escaped_by};

use plain_types::{Bytes, NoMemory};

/// Appends the text, with a backslash and a letter for each backslash, TAB, LF and CR.
///
/// # Errors
///
/// [`NoMemory`].
pub fn push_escaped(out: &mut Bytes, text: &[u8]) -> Result<(), NoMemory>
    ensures { OnOk result (out.new.items ≡ out.old.items ++ escaped text.now) }
{
    for byte in text {
        push_byte(out, *byte)?;
    }
    Ok(())
}

fn push_byte(out: &mut Bytes, byte: u8) -> Result<(), NoMemory>
    ensures { OnOk result (out.new.items ≡ out.old.items ++ escaped_by (letter_of byte) byte) }
{
    match letter_of(byte) {
        Some(letter) => out.extend(&[b'\\', letter]),
        None => out.push(byte),
    }
}

/// The letter behind a backslash that stands for the byte, where one does.
fn letter_of(byte: u8) -> Option<u8>
    ensures { result ≡ letter_of byte }
{
    match byte {
        b'\\' => Some(b'\\'),
        b'\t' => Some(b't'),
        b'\n' => Some(b'n'),
        b'\r' => Some(b'r'),
        _ => None,
    }
}

//! The hits of a search.

ghost use Rattle.std.specs.Prelude.{◌≡◌, ◌++◌, List, ℕ, OnOk, IfOk};
ghost use Rattle.std.specs.Fmt.{signed_decimal};
ghost use Rattle.record_model.specs.Seen.{history_seen, histories_seen};
ghost use Rattle.printing.specs.Lines.{IsHitLine, PrintsHits};

use crate::escapes::push_escaped;
use crate::times::time_text;
use plain_types::{Bytes, NoMemory};
use record_model::History;
use std::alloc::Global;

/// A line for each command, in their order: the time in UTC as `YYYY-MM-DDTHH:MM:SSZ` with the fraction of the second cut, a
/// TAB, the exit status, a TAB, the command with its backslashes, TABs, LFs and CRs told by a backslash and a letter, a LF.
///
/// # Errors
///
/// [`NoMemory`].
pub fn hits_text(alloc: Global, hits: &[History]) -> Result<Bytes, NoMemory>
    ensures { IfOk result (λ text. PrintsHits (histories_seen hits.now) text.items) }
{
    let mut out = Bytes::new(alloc);
    for hit in hits {
        push_hit(&mut out, hit)?;
    }
    Ok(out)
}

fn push_hit(out: &mut Bytes, hit: &History) -> Result<(), NoMemory>
    ensures { OnOk result ((line : List ℕ) × IsHitLine (history_seen hit.now) line × (out.new.items ≡ out.old.items ++ line)) }
{
    out.extend(time_text(hit.timestamp).as_bytes())?;
    out.push(b'\t')?;
    push_signed(out, hit.exit)?;
    out.push(b'\t')?;
    push_escaped(out, hit.command.as_bytes())?;
    out.push(b'\n')
}

/// Appends the number in decimal.
fn push_signed(out: &mut Bytes, number: i64) -> Result<(), NoMemory>
    ensures { OnOk result (out.new.items ≡ out.old.items ++ signed_decimal number) }
{
    let mut digits = itoa::Buffer::new();
    out.extend(digits.format(number).as_bytes())
}

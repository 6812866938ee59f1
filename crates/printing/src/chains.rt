//! The chains of a status.

ghost use Rattle.std.specs.Prelude.{◌≡◌, ◌++◌, OnOk, IfOk};
ghost use Rattle.record_model.specs.Seen.{chain_seen, chains_seen};
ghost use Rattle.printing.specs.Lines.{chain_line, chain_lines};

use crate::escapes::push_escaped;
use plain_types::{Bytes, NoMemory};
use record_model::{Chain, record_id_text};
use std::alloc::Global;

/// A line for each chain, in their order: the host's id in its hyphenated form (RFC 9562, 4), a space, the tag as texts are
/// printed, a space, the number of its records, a LF.
///
/// # Errors
///
/// [`NoMemory`].
pub fn chains_text(alloc: Global, chains: &[Chain]) -> Result<Bytes, NoMemory>
    ensures { IfOk result (λ text. text.items ≡ chain_lines (chains_seen chains.now)) }
{
    let mut out = Bytes::new(alloc);
    for chain in chains {
        push_chain(&mut out, chain)?;
    }
    Ok(out)
}

fn push_chain(out: &mut Bytes, chain: &Chain) -> Result<(), NoMemory>
    ensures { OnOk result (out.new.items ≡ out.old.items ++ chain_line (chain_seen chain.now)) }
{
    let mut count = itoa::Buffer::new();
    out.extend(&record_id_text(chain.host))?;
    out.push(b' ')?;
    push_escaped(out, chain.tag.as_bytes())?;
    out.push(b' ')?;
    out.extend(count.format(chain.count).as_bytes())?;
    out.push(b'\n')
}

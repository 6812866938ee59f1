//! As many hits as one reply may show.

ghost use Rattle.std.specs.Prelude.{◌≡◌, true, false, ◌≤◌, ◌^◌, ◌-◌, min, [], ◌∷◌, ◌++◌, IfOk};
ghost use Rattle.definitions.specs.Search.{hit_bytes, FitsPage};
ghost use Rattle.history_view.specs.Shown.{command_seen};
ghost use Rattle.search_query.specs.Answers.{seen_of, weight_of};

use history_view::ShownCommand;
use plain_types::NoMemory;

/// What several hits may weigh together, in bytes of their texts.
const MOST_SHOWN_BYTES: u64 = 4_194_304;

/// What the hit weighs: the bytes of its texts, that of its author too.
fn weight(h: &ShownCommand<'_>) -> u64
    ensures { result ≡ min (hit_bytes (command_seen h.now)) (2 ^ 64 - 1) }
{
    let author = match h.author {
        Some(author) => author.len(),
        None => 0,
    };
    (h.command.len() as u64)
        .saturating_add(h.cwd.len() as u64)
        .saturating_add(h.session.len() as u64)
        .saturating_add(h.hostname.len() as u64)
        .saturating_add(author as u64)
}

/// Takes the hit if it fits, and tells whether it did. `bytes` is what the hits weigh.
///
/// # Errors
///
/// [`NoMemory`].
pub fn take<'a>(
    hits: &mut Vec<ShownCommand<'a>>,
    bytes: &mut u64,
    limit: u32,
    h: ShownCommand<'a>,
) -> Result<bool, NoMemory>
    requires limit { 1 ≤ limit }
    requires bytes { bytes.old ≡ weight_of hits.old.items }
    requires fits { FitsPage hit_bytes limit (seen_of hits.old.items) }
    ensures bytes { IfOk result (λ _. bytes.new ≡ weight_of hits.new.items) }
    ensures fits { IfOk result (λ _. FitsPage hit_bytes limit (seen_of hits.new.items)) }
    ensures taken { IfOk result (λ taken. taken ≡ true → hits.new.items ≡ hits.old.items ++ h.entry ∷ []) }
    ensures full { IfOk result (λ taken. taken ≡ false → (hits.new.items ≡ hits.old.items) × (FitsPage hit_bytes limit (seen_of hits.old.items ++ command_seen h.entry ∷ []) → ⊥)) }
{
    let more = bytes.saturating_add(weight(&h));
    if hits.len() >= limit as usize || !hits.is_empty() && more > MOST_SHOWN_BYTES {
        return Ok(false);
    }
    hits.push(h)?;
    *bytes = more;
    Ok(true)
}

//! What is kept of the empty journal.

ghost use Rattle.std.specs.Prelude.{ℕ, List, [], Option};
ghost use Rattle.kept_views.specs.Keeping.{KeepsFor};

use alias_view::AliasView;
use call_drafts::Kept;
use history_view::HistoryView;
use kv_view::KvView;
use started_commands::StartedCommands;
use std::alloc::Global;

/// What is kept of the empty journal: no commands, and views of no changes. It takes no memory.
pub fn nothing_kept(alloc: Global) -> Kept
    ensures { (host : ℕ) (key : Option (List ℕ)) → KeepsFor host key result [] }
{
    Kept {
        commands: StartedCommands::new(alloc),
        history: HistoryView::new(alloc),
        pairs: KvView::new(alloc),
        aliases: AliasView::new(alloc),
    }
}

//! What a store keeps beside its log.

use alias_view::AliasView;
use history_view::HistoryView;
use kv_view::KvView;
use started_commands::StartedCommands;

/// What a store keeps beside its log, and looks up before it writes.
#[derive(Drop)]
pub struct Kept {
    pub commands: StartedCommands,
    pub history: HistoryView,
    pub pairs: KvView,
    pub aliases: AliasView,
}

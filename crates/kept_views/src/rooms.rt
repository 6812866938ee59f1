//! Room for what an event shows.

/// Room for what one event shows, in the view that it belongs to.
#[derive(Debug, Drop)]
pub enum EventRoom {
    /// It shows nothing: a command that starts, a record of another owner, or one that doesn't open or can't be read.
    Unshown,
    /// It creates or deletes a command.
    History(history_view::Room),
    /// It sets or deletes the value of a key.
    Pair(kv_view::Room),
    /// It sets or deletes what a name stands for.
    Alias(alias_view::Room),
}

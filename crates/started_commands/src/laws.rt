//! What is no call's.

ghost use Rattle.started_commands.specs.Kept.{TakenChangesNothing};

/// A record that was taken in starts no command and ends none.
pub fn taken_record_changes_nothing()
    ensures { TakenChangesNothing }
{}

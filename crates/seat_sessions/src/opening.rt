//! The pass with which a session begins, for proofs.

ghost use Rattle.atomic_table.specs.Seated.{TableId};
ghost use Rattle.session_rules.specs.Passes.{Pass};
ghost use Rattle.seat_sessions.specs.Openings.{no_lock, no_pass};

use std::marker::Brand;

/// The lock and the pass of a session's beginning. The call that begins a session picks them.
pub trait Opening {
    ghost lock: { TableId };

    ghost pass: { Pass };
}

impl Opening for Brand {
    ghost lock = { no_lock };

    ghost pass = { no_pass };
}

// How often work is done again.

ghost use Rattle.std.specs.Prelude.{◌≡◌, ℕ};
ghost use Rattle.serving_edge.specs.Pacing.{Grants, pacer_of};

/// Says whether work that is done over and over is done once more.
pub trait Pacer {
    ghost use Rattle.serving_edge.specs.Pacing.{PacerSeen};

    /// How many rounds were granted, and how many will be.
    ghost pacer: { Self → PacerSeen };

    /// Whether there is another round, which is then granted. It may wait before it answers. No round is granted once
    /// 2^64 - 1 were.
    fn next(&mut self) -> bool
        ensures { Grants (pacer self.old) (pacer self.new) result };
}

/// Grants this many rounds, and waits for none.
#[derive(Drop)]
pub struct CountPacer {
    granted: u64,
    left: u64,
}

impl CountPacer {
    ghost use Rattle.serving_edge.specs.PacerViews.{count_pacer_seen};

    /// A pacer that grants `rounds` rounds.
    pub fn new(rounds: u64) -> Self
        ensures { count_pacer_seen result ≡ pacer_of rounds }
    {
        CountPacer {
            granted: 0,
            left: rounds,
        }
    }
}

impl Pacer for CountPacer {
    ghost use Rattle.serving_edge.specs.PacerViews.{count_pacer_seen};

    ghost pacer = { count_pacer_seen };

    fn next(&mut self) -> bool {
        if self.left == 0 || self.granted == u64::MAX {
            return false;
        }
        self.left -= 1;
        self.granted += 1;
        true
    }
}

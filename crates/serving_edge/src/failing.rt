// The counts behind the forms.
ghost use Rattle.std.specs.Prelude.{◌≡◌, ◌≤◌, IsTrue};
ghost use Rattle.std.specs.Bool.{OnTrue, OnFalse};
ghost use Rattle.definitions.specs.Counts.{Rose};
ghost use Rattle.at_edge.specs.Planned.{unmade, MadeAsPlanned};

use std::marker::Model;

/// One more fault, unless the count stands at its last value.
pub(crate) fn count_fault(faults: &mut u64)
    ensures counted { Rose faults.old faults.new }
    ensures kept { faults.old ≤ faults.new }
{
    *faults = faults.saturating_add(1);
}

/// Which calls of a form are to fail, and how many failed. Calls are numbered from 1; from number 2^64 - 1 on, a
/// call keeps that number.
#[derive(Drop)]
pub(crate) struct FailingCalls {
    numbers: Vec<u64>,
    made: u64,
    faults: u64,
}

impl Model for FailingCalls {
    ghost use Rattle.at_edge.specs.Planned.{Planned};

    ghost Value = { Planned };

    ghost view = { λ f. record { numbers = f.numbers.items; made = f.made; faults = f.faults } };
}

impl FailingCalls {
    pub(crate) fn new(numbers: Vec<u64>) -> Self
        ensures { result ≡ unmade numbers.items }
    {
        FailingCalls {
            numbers,
            made: 0,
            faults: 0,
        }
    }

    /// Counts a call, and says whether it is to fail. If so, the fault is counted.
    pub(crate) fn next_fails(&mut self) -> bool
        ensures planned { MadeAsPlanned self.old self.new (IsTrue result) }
        ensures fails { OnTrue result (Rose self.old.faults self.new.faults) }
        ensures kept { self.old.faults ≤ self.new.faults }
        ensures goes_on { OnFalse result (self.new.faults ≡ self.old.faults) }
    {
        self.made = self.made.saturating_add(1);
        if self.numbers.contains(&self.made) {
            count_fault(&mut self.faults);
            return true;
        }
        false
    }

    /// Counts a fault that no number asked for.
    pub(crate) fn fail(&mut self)
        ensures planned { (self.new.numbers ≡ self.old.numbers) × (self.new.made ≡ self.old.made) }
        ensures counted { Rose self.old.faults self.new.faults }
        ensures kept { self.old.faults ≤ self.new.faults }
    {
        count_fault(&mut self.faults);
    }
}

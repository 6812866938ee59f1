//! The words for a plan: which transfers make two stores hold the same, from their statuses, and the
//! laws that hold of these words alone.
//!
//! `specs/Plans` says the plan; a status is a list of places with the lengths of their chains, as the
//! crate `record_rules` has it. Each function has an empty body, and its contract is the law that its
//! name says.
#![tactic(auto)]

ghost use Rattle.plan_rules.specs.Laws.{PlanAscends, PlanHasEachStep, StepsAreThePlan, CountsMakePlan, EqualCountsNeedNothing, PlanLevels};
ghost use Rattle.plan_rules.specs.Examples.{WorkedPlans};

/// The steps of a plan are in order of host, then of the tag's bytes, and no place has two.
pub fn a_plan_ascends()
    ensures { PlanAscends }
{}

/// A plan has a step of a place exactly where the place's counts ask for that step.
pub fn a_plan_has_each_step()
    ensures { PlanHasEachStep }
{}

/// Only the plan is such a list: steps in that order that have of each place the step that its counts ask
/// for, and no other, are the plan.
pub fn such_steps_are_the_plan()
    ensures { StepsAreThePlan }
{}

/// Statuses that tell the same count of each place have one plan, however they are listed.
pub fn counts_make_the_plan()
    ensures { CountsMakePlan }
{}

/// Where the counts are equal nothing is to be done.
pub fn equal_counts_need_nothing()
    ensures { EqualCountsNeedNothing }
{}

/// After all steps of a plan both stores hold the greater count of each place.
pub fn a_plan_levels()
    ensures { PlanLevels }
{}

/// Plans of a few counts.
pub fn worked_plans()
    ensures { WorkedPlans }
{}

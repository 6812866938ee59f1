//! Runs of a world of replicas, and the laws that hold of them.
//!
//! A run is told by a list of events. What its calls read of the clock and draw is filled in: one clock
//! begins at a fixed time, and each node has a generator of its own; so a run is the same wherever it is
//! run. It stops at the first event that can't happen, or that a store refuses.
//!
//! A rehearsal is a large run that a seed tells: the seed gives the key and the random words of events
//! and of hosts. Its events are calls at hosts, transfers by a plan, and crashes; at its end each host
//! uploads, and then each downloads. What the stores of a key seal and open is handed in.
//!
//! Each function has an empty body, and its contract is the law that its name says. The crate stands on
//! the words for worlds (`world_rules`), plans (`plan_rules`), steps (`step_rules`), views
//! (`view_rules`) and journals (`record_rules`).
#![tactic(auto)]

ghost use Rattle.rehearsal_rules.specs.Laws.{WordsFollow, HostsOfDiffer, RunsAreReached, NoneIsBad, InEachRehearsal, IsReached, EndAlike, HasAll, ShowAll, SaysEqual};
ghost use Rattle.rehearsal_rules.specs.Examples.{WorkedWords, WorkedRows, WorkedTransfers, WorkedRehearsal, WorkedRun};

/// The words of a generator are those of its recurrence: each state is the one before and a constant.
pub fn words_follow()
    ensures { WordsFollow }
{}

/// The world where a run by a list of events comes is one that calls of stores, pages and crashes can lead to, which are
/// these events with what their calls use filled in: so all that holds of such worlds holds of it.
pub fn a_run_is_reached()
    ensures { RunsAreReached }
{}

/// No event of a run that happens names a node that isn't there or a page that wasn't sent, or calls the server.
pub fn no_run_is_bad()
    ensures { NoneIsBad }
{}

/// No two nodes of a rehearsal have one host.
pub fn hosts_differ()
    ensures { HostsOfDiffer }
{}

/// The world of a rehearsal is one that calls of stores, pages and crashes can lead to: so all that holds
/// of such worlds holds of it.
pub fn a_rehearsal_is_reached()
    ensures { InEachRehearsal IsReached }
{}

/// At the end of a rehearsal all nodes hold the same chains, at every host and tag, and show the same:
/// the same commands, values and aliases, and the same answers of searches and lists of names.
pub fn a_rehearsal_ends_alike()
    ensures { InEachRehearsal EndAlike }
{}

/// What all nodes hold at the end of a rehearsal is all that its hosts made: each chain of each host is as it was at
/// the host's own node before the last transfers.
pub fn a_rehearsal_ends_with_all()
    ensures { InEachRehearsal HasAll }
{}

/// What each node shows at the end of a rehearsal is what all records show that its hosts made, in whatever order they came.
pub fn a_rehearsal_shows_all()
    ensures { InEachRehearsal ShowAll }
{}

/// So a summary of it says that all hosts show the same.
pub fn a_summary_says_equal()
    ensures { InEachRehearsal SaysEqual }
{}

/// The words of a generator, bytes that are drawn of them, the key and the hosts, worked out.
pub fn worked_words()
    ensures { WorkedWords }
{}

/// An event of each row, worked out, and what a deletion of nothing and a crash leave.
pub fn worked_rows()
    ensures { WorkedRows }
{}

/// Transfers of a node with the server, worked out: one way, the other way, and both by one plan.
pub fn worked_transfers()
    ensures { WorkedTransfers }
{}

/// A whole rehearsal, worked out to its records: the seed 0, one host and three events, of which the first
/// finds nothing to delete and the others each set a value. In the end the server has both records.
pub fn worked_rehearsal()
    ensures { WorkedRehearsal }
{}

/// A run by a list of events, worked out: a host sets a value, which comes to the server; and events at which such a run stops.
pub fn worked_run()
    ensures { WorkedRun }
{}

//! Answers to requests.

ghost use Rattle.bf_locks.specs.Waits.{Graph, IsMadeByAnswers, HasCycle};

use bf_base::Sequence;

/// The answer to a request. Owners are start numbers, and a smaller number is older.
#[derive(Debug, Drop, PartialEq, Eq)]
pub enum LockAnswer {
    /// No other owner conflicts, and the owner now holds the name.
    Granted,
    /// These conflict, all of them younger, rising. The request may be made again.
    Wait(Sequence<u64>),
    /// This conflicts, the oldest that does, and is older.
    Die(u64),
}

/// The law that waits form no cycle: a graph whose edges were made by answers, at whatever
/// times and by whatever tables, leads from no owner back to it. There is nothing to run.
pub fn no_cycle_of_waits()
    ensures { (graph : Graph) → IsMadeByAnswers graph → ¬ HasCycle graph }
{}

//! Laws of footprints. Each is the contract of a function that does nothing.

ghost use Rattle.bf_live.specs.FootprintLaw.{IsBoundAlike, IsBoundWithKeys, ReadsItsFootprint, WritesItsFootprint};
ghost use Rattle.bf_live.specs.OpenGroups.{AGroupMayWriteItsWrites, AnAnswerKeepsLocks, FreeingKeepsOthers, APendingSchemaChangeStays, ASchemaChangeLeavesOthers, AStepIsAdded, AStepStays, AnOpenGroupStays, CommitKeepsAgreement, OwnWritesKeepAgreement, ReplaysUnderMoreLocks};

/// What a statement replies and writes depends on its footprint alone.
pub fn a_statement_reads_its_footprint()
    ensures { ReadsItsFootprint }
{}

/// A statement that is bound again, in a database that agrees on its footprint, has that footprint.
pub fn a_statement_is_bound_alike()
    ensures { IsBoundAlike }
{}

/// A bound statement has what `footprint` asks for.
pub fn a_bound_statement_has_keys()
    ensures { IsBoundWithKeys }
{}

/// A statement writes what its footprint has in X.
pub fn a_statement_writes_its_footprint()
    ensures { WritesItsFootprint }
{}

/// Agreement on a footprint outlasts what a transaction writes over both databases.
pub fn own_writes_keep_agreement()
    ensures { OwnWritesKeepAgreement }
{}

/// A commit of what another owner holds in X leaves what an owner's footprint reads.
pub fn a_commit_keeps_agreement()
    ensures { CommitKeepsAgreement }
{}

/// A step of a transaction is a step on each database that agrees on its footprint.
pub fn a_step_stays()
    ensures { AStepStays }
{}

/// An open group stays right while another owner commits what it holds in X.
pub fn an_open_group_stays()
    ensures { AnOpenGroupStays }
{}

/// A group holds in X what it has written.
pub fn a_group_may_write_its_writes()
    ensures { AGroupMayWriteItsWrites }
{}

/// A group stays right while another owner changes the schema.
pub fn a_schema_change_leaves_others()
    ensures { ASchemaChangeLeavesOthers }
{}

/// A group's next step is added to those before it.
pub fn a_step_is_added()
    ensures { AStepIsAdded }
{}

/// What a group has replied and written stays right while its owner holds what it held.
pub fn replays_under_more_locks()
    ensures { ReplaysUnderMoreLocks }
{}

/// Beside a schema change that is pending nothing is committed.
pub fn a_pending_schema_change_stays()
    ensures { APendingSchemaChangeStays }
{}

/// Each owner holds what it held, after each answer of a lock table.
pub fn an_answer_keeps_locks()
    ensures { AnAnswerKeepsLocks }
{}

/// Each other owner holds what it held, after one has freed its locks.
pub fn freeing_keeps_others()
    ensures { FreeingKeepsOthers }
{}

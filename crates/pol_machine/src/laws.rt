//! Laws of the machine: each is a function without a body, whose clause is the law.
ghost use Rattle.pol_machine.specs.Laws.{AgreeingStatesDoAlike, AnsweredWhereEachRulePasses, ChangesLeadToNextState, FullRunChangesNothing, FullRunIsTold, IssuedTokensAreTheirTables, LivePartAgrees, NextStateIsSound, OpenTokensLieAtTheirTables};

/// The state after a command is sound, where the state before it is and its moment is at most 2^62.
pub fn next_state_is_sound()
    ensures { NextStateIsSound }
{}

/// A command is answered, and not refused, exactly where each of its rules passes.
pub fn answered_where_each_rule_passes()
    ensures { AnsweredWhereEachRulePasses }
{}

/// Applied to a sound state, the changes of a command lead to the state after it, unless the run is full.
pub fn changes_lead_to_next_state()
    ensures { ChangesLeadToNextState }
{}

/// A command is told that the run is full exactly where its charge and the run's are above the bound together.
pub fn full_run_is_told()
    ensures { FullRunIsTold }
{}

/// A command that is told so leaves the state as it is, its time and charges too.
pub fn full_run_changes_nothing()
    ensures { FullRunChangesNothing }
{}

/// In sound states that agree a command is answered alike, makes the same changes, and leads to states that agree. They
/// differ at most in sessions and storage tokens that have expired, and in sessions whose principals are gone.
pub fn agreeing_states_do_alike()
    ensures { AgreeingStatesDoAlike }
{}

/// A sound state without these is sound, and agrees with it: to purge a state of them is harmless.
pub fn live_part_agrees()
    ensures { LivePartAgrees }
{}

/// A storage token that a command issues has its table's location and its count of moves in the state after, and writes
/// exactly where the caller may write the table's data there.
pub fn issued_tokens_are_their_tables()
    ensures { IssuedTokensAreTheirTables }
{}

/// The location of a storage token is its table's as long as it may open anything at all.
pub fn open_tokens_lie_at_their_tables()
    ensures { OpenTokensLieAtTheirTables }
{}

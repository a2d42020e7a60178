//! Laws of the bytes of a journal: each is a function without a body, whose clause is the law.
ghost use Rattle.pol_journal.specs.Laws.{BadStandsForNone, IsBadAtOneGate, IsNoneStandsOrIsBad, NoJournalIsNeither, StandsForOneList};

/// The bytes of a file stand for one list of bodies at most.
pub fn stands_for_one_list()
    ensures { StandsForOneList }
{}

/// The bytes of a file with a bad record stand for no list of bodies.
pub fn bad_stands_for_none()
    ensures { BadStandsForNone }
{}

/// The bytes of a file have a bad record at one gate at most.
pub fn is_bad_at_one_gate()
    ensures { IsBadAtOneGate }
{}

/// The bytes of a file are no journal, stand for a list of bodies, or have a bad record.
pub fn is_none_stands_or_is_bad()
    ensures { IsNoneStandsOrIsBad }
{}

/// The bytes of a file that are no journal neither stand for a list of bodies nor have a bad record.
pub fn no_journal_is_neither()
    ensures { NoJournalIsNeither }
{}

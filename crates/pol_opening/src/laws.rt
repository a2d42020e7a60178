//! Laws of the bytes of a catalogue's journal: each is a function without a body, whose clause is the law.
ghost use Rattle.pol_opening.specs.Laws.{AreOpenedToOneState, AreRefusedAtOneGate, NoJournalIsNeither, OpenedAreNotRefused};

/// The bytes of a journal are opened to one state at most.
pub fn opened_to_one_state()
    ensures { AreOpenedToOneState }
{}

/// They are refused at one gate at most.
pub fn refused_at_one_gate()
    ensures { AreRefusedAtOneGate }
{}

/// Those that are opened are refused at no gate.
pub fn opened_are_not_refused()
    ensures { OpenedAreNotRefused }
{}

/// Bytes that are no journal are neither opened nor refused at a gate.
pub fn no_journal_is_neither()
    ensures { NoJournalIsNeither }
{}

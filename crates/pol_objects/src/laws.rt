//! Laws of the object machine: each is a function without a body, whose clause is the law.
ghost use Rattle.pol_objects.specs.Laws.{CountIsBounded, PutIsThere, PutsAreCounted, TakenBack, TextsTell, WrittenOnce};

/// Locations are told apart by their texts.
pub fn texts_tell_locations()
    ensures { TextsTell }
{}

/// A put that is accepted leaves its object, and an object stays with its bytes until it is deleted.
pub fn objects_are_written_once()
    ensures there { PutIsThere }
    ensures once { WrittenOnce }
{}

/// What is counted is the sum of the puts that were accepted. It never falls, and deletes leave it.
pub fn puts_are_counted()
    ensures counted { PutsAreCounted }
    ensures bounded { CountIsBounded }
{}

/// Taking a new object away again leaves the objects as they were.
pub fn puts_can_be_undone()
    ensures { TakenBack }
{}

//! Laws of the words: each is a function without a body, whose clauses are the law.
ghost use Rattle.std.specs.Prelude.{◌≡◌, codes};
ghost use Rattle.pol_words.specs.Laws.{MeansOneThing};

use crate::names::{CATALOGUE, EXEC, INIT, OBJECTS, ROOT_SECRET};

/// No line of words means two things.
pub fn line_means_one_thing()
    ensures { MeansOneThing }
{}

/// The commands and the names of options are these.
pub fn names_are_those()
    ensures catalogue { CATALOGUE.now ≡ codes "--catalogue" }
    ensures exec { EXEC.now ≡ codes "exec" }
    ensures init { INIT.now ≡ codes "init" }
    ensures objects { OBJECTS.now ≡ codes "--objects" }
    ensures root_secret { ROOT_SECRET.now ≡ codes "--root-secret" }
{}

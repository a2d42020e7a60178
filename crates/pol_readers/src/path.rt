ghost use Rattle.std.specs.Prelude.{◌≡◌, ◌∷◌, [], IfOk};

use pol_types::{OutOfMemory, Text};
use std::alloc::Global;
use std::fmt;
use std::marker::Model;

/// One step into a value of JSON: a key of an object, or a place of an array, which is counted from 0.
#[derive(Debug, Drop)]
pub enum Step {
    Key(Text),
    Place(usize),
}

/// Where a value stands in a body: the steps to it, outermost first. The empty path is the body itself.
///
/// It prints as its keys, joined by `.`, with each place as `[2]`; the empty path prints as `body`.
#[derive(Debug, Drop)]
pub struct Path {
    // innermost first, since a path is made on the way out
    steps: Vec<Step>,
}

impl Model for Path {
    ghost use Rattle.std.specs.Prelude.{List, reverse};
    ghost use Rattle.pol_readers.specs.declared.path.Step.{Step};

    ghost Value = { List Step };

    ghost view = { λ path. reverse path.steps.items };
}

impl Path {
    /// The path of the value itself. It takes no memory.
    pub fn here(alloc: Global) -> Self
        ensures { result ≡ [] }
    {
        Path {
            steps: Vec::new(alloc),
        }
    }

    /// The same path, seen from one step further out: it begins with that step. Where there is no memory for it, the
    /// path is let go.
    pub fn under(mut self, step: Step) -> Result<Self, OutOfMemory>
        ensures { IfOk result (λ path. path ≡ step ∷ self) }
    {
        self.steps.push(step)?;
        Ok(self)
    }
}

impl fmt::Display for Step {
    ghost use Rattle.std.specs.Prelude.{Some};
    ghost use Rattle.pol_readers.specs.Path.{step_text};

    ghost output = { λ step. Some (step_text step) };

    fn fmt<W: fmt::Write>(&self, f: &mut fmt::Formatter<W>) -> fmt::Result {
        match self {
            Step::Key(key) => write!(f, ".{key}"),
            Step::Place(place) => write!(f, "[{place}]"),
        }
    }
}

impl fmt::Display for Path {
    ghost use Rattle.std.specs.Prelude.{Some};
    ghost use Rattle.pol_readers.specs.Path.{path_text};

    ghost output = { λ path. Some (path_text path) };

    fn fmt<W: fmt::Write>(&self, f: &mut fmt::Formatter<W>) -> fmt::Result {
        match self.steps.split_last() {
            None => f.write_str("body"),
            Some((Step::Key(key), inner)) => write!(f, "{key}{}", Steps(inner)),
            Some((place, inner)) => write!(f, "{place}{}", Steps(inner)),
        }
    }
}

/// Steps that aren't the first, innermost first.
#[derive(Drop)]
struct Steps<'a>(&'a [Step]);

impl fmt::Display for Steps<'_> {
    ghost use Rattle.std.specs.Prelude.{Some, reverse};
    ghost use Rattle.std.specs.List.{flat_map};
    ghost use Rattle.pol_readers.specs.Path.{step_text};

    ghost output = { λ steps. Some (flat_map step_text (reverse steps.0.now)) };

    fn fmt<W: fmt::Write>(&self, f: &mut fmt::Formatter<W>) -> fmt::Result {
        let mut left = self.0;
        while let Some((step, inner)) = left.split_last() {
            write!(f, "{step}")?;
            left = inner;
        }
        Ok(())
    }
}

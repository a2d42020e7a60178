ghost use Rattle.std.specs.Prelude.{Some, ◌<◌};
ghost use Rattle.std.specs.List.{join_with_byte};

use crate::Name;
use std::fmt;

/// Names with an ASCII character between each two.
#[derive(Drop)]
pub struct Joined<'a> {
    pub names: &'a [Name],
    pub separator: char,
    ghost ascii: { separator < 128 },
}

impl fmt::Display for Joined<'_> {
    ghost output = { λ joined. Some (join_with_byte joined.separator joined.names.now) };

    fn fmt<W: fmt::Write>(&self, f: &mut fmt::Formatter<W>) -> fmt::Result {
        let Some((first, others)) = self.names.split_first() else {
            return Ok(());
        };
        let separator = self.separator;
        write!(f, "{first}")?;
        for name in others {
            write!(f, "{separator}{name}")?;
        }
        Ok(())
    }
}

ghost use Rattle.std.specs.Prelude.{Some};

use std::error::Error;
use std::fmt;

/// The rule that refuses an action on objects. It prints as its name, with its number behind `: ` where it has one.
#[derive(Clone, Copy, Debug, PartialEq, Eq)]
pub enum ObjectRule {
    /// What is asked for, or is to be deleted, isn't there.
    NoObject,
    /// An object has this path. Objects are written once.
    ObjectThere,
    /// The object has `length` bytes, which are more than 8,388,608.
    TooLong { length: u64 },
    /// With this object `counted` bytes are counted, which are more than 268,435,456. A sum that has more than
    /// 64 bits is given as 2^64 - 1.
    SpaceFull { counted: u64 },
}

impl fmt::Display for ObjectRule {
    ghost use Rattle.pol_objects.specs.Rules.{rule_text};

    ghost output = { λ rule. Some (rule_text rule) };

    fn fmt<W: fmt::Write>(&self, f: &mut fmt::Formatter<W>) -> fmt::Result {
        match self {
            ObjectRule::NoObject => f.write_str("NoObject"),
            ObjectRule::ObjectThere => f.write_str("ObjectThere"),
            ObjectRule::TooLong { length } => write!(f, "TooLong: {length}"),
            ObjectRule::SpaceFull { counted } => write!(f, "SpaceFull: {counted}"),
        }
    }
}

impl Error for ObjectRule {}

ghost use Rattle.std.specs.Prelude.{◌≡◌, [], Some, codes};
ghost use Rattle.pol_declaration.specs.Faults.{fault_text, refused_text, why_text};

use pol_readers::Path;
use pol_types::OutOfMemory;
use std::alloc::{AllocError, AllocFailed, Global};
use std::error::Error;
use std::fmt;

/// Why a text isn't read: it is no declaration, or memory was wanting, for which no clause names a cause.
#[derive(Debug, Drop)]
pub enum DeclarationRefused {
    BadDeclaration(Fault),
    OutOfMemory,
}

/// Why a text is no declaration: what is wrong with it as a whole, or the path to the first value that is wrong.
#[derive(Debug, Drop)]
pub enum Fault {
    /// The text has more than 1,048,576 bytes.
    TooLong,
    /// The text isn't UTF-8.
    NotUtf8,
    /// The text is no TOML.
    NotToml,
    /// The value at the path is wrong, or there is none. A path prints as its keys, joined by `.`, with the places in
    /// lists, which are counted from 0, as `[2]`.
    At { path: Path, why: Why },
}

/// What is wrong with a value.
#[derive(Clone, Copy, Debug, PartialEq, Eq)]
pub enum Why {
    /// The key must be there and isn't.
    Missing,
    /// The key isn't one of the table that it stands in.
    Unlisted,
    /// The value must be a string.
    NotText,
    /// The value must be an array.
    NotList,
    /// The value must be a table.
    NotTable,
    /// The string must be the name of a catalogue, a principal or a role.
    NotPlain,
    /// The string must be the name of a privilege.
    NoPrivilege,
    /// The privilege may not be granted on a catalogue.
    NotGrantable,
}

impl DeclarationRefused {
    /// The value itself is wrong. It takes no memory.
    pub(crate) fn here(alloc: Global, why: Why) -> Self
        ensures { result ≡ DeclarationRefused.BadDeclaration (Fault.At [] why) }
    {
        DeclarationRefused::BadDeclaration(Fault::At {
            path: Path::here(alloc),
            why,
        })
    }
}

impl From<Fault> for DeclarationRefused {
    ghost use Rattle.pol_declaration.specs.declared.fault.DeclarationRefused.{DeclarationRefused};

    ghost from_gives = { λ fault refused. refused ≡ DeclarationRefused.BadDeclaration fault };

    fn from(fault: Fault) -> Self {
        DeclarationRefused::BadDeclaration(fault)
    }
}

impl From<OutOfMemory> for DeclarationRefused {
    ghost use Rattle.pol_declaration.specs.declared.fault.DeclarationRefused.{DeclarationRefused};

    ghost from_gives = { λ _ refused. refused ≡ DeclarationRefused.OutOfMemory };

    fn from(_error: OutOfMemory) -> Self {
        DeclarationRefused::OutOfMemory
    }
}

impl From<AllocError> for DeclarationRefused {
    ghost use Rattle.pol_declaration.specs.declared.fault.DeclarationRefused.{DeclarationRefused};

    ghost from_gives = { λ _ refused. refused ≡ DeclarationRefused.OutOfMemory };

    fn from(_error: AllocError) -> Self {
        DeclarationRefused::OutOfMemory
    }
}

impl<T: Drop> From<AllocFailed<T>> for DeclarationRefused {
    ghost use Rattle.pol_declaration.specs.declared.fault.DeclarationRefused.{DeclarationRefused};

    ghost from_gives = { λ _ refused. refused ≡ DeclarationRefused.OutOfMemory };

    fn from(_error: AllocFailed<T>) -> Self {
        DeclarationRefused::OutOfMemory
    }
}

impl fmt::Display for DeclarationRefused {
    ghost output = { λ refused. Some (refused_text refused) };

    fn fmt<W: fmt::Write>(&self, f: &mut fmt::Formatter<W>) -> fmt::Result {
        match self {
            DeclarationRefused::BadDeclaration(fault) => write!(f, "BadDeclaration: {fault}"),
            DeclarationRefused::OutOfMemory => write!(f, "{OutOfMemory}"),
        }
    }
}

impl Error for DeclarationRefused {}

impl fmt::Display for Fault {
    ghost output = { λ fault. Some (fault_text fault) };

    fn fmt<W: fmt::Write>(&self, f: &mut fmt::Formatter<W>) -> fmt::Result {
        match self {
            Fault::TooLong => f.write_str("longer than 1048576 bytes"),
            Fault::NotUtf8 => f.write_str("not UTF-8"),
            Fault::NotToml => f.write_str("not TOML"),
            Fault::At { path, why } => write!(f, "{path}: {why}"),
        }
    }
}

impl fmt::Display for Why {
    ghost output = { λ why. Some (why_text why) };

    fn fmt<W: fmt::Write>(&self, f: &mut fmt::Formatter<W>) -> fmt::Result {
        f.write_str(match self {
            Why::Missing => "missing",
            Why::Unlisted => "not a key of this table",
            Why::NotText => "not a string",
            Why::NotList => "not an array",
            Why::NotTable => "not a table",
            Why::NotPlain => "not a name",
            Why::NoPrivilege => "not a privilege",
            Why::NotGrantable => "not to be granted on a catalogue",
        })
    }
}

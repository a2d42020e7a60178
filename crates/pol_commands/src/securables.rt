ghost use Rattle.std.specs.Prelude.{Some};
ghost use Rattle.pol_commands.specs.Securables.{securable_text};

use pol_names::{Identifier, Namespace, Plain};
use std::fmt;

/// A securable as a refusal shows it.
#[derive(Drop, PartialEq, Eq)]
pub enum SecurableName {
    Realm,
    Catalog {
        catalog: Plain,
    },
    Namespace {
        catalog: Plain,
        namespace: Namespace,
    },
    Table {
        catalog: Plain,
        identifier: Identifier,
    },
    View {
        catalog: Plain,
        identifier: Identifier,
    },
}

impl fmt::Display for SecurableName {
    ghost output = { λ securable. Some (securable_text securable) };

    fn fmt<W: fmt::Write>(&self, f: &mut fmt::Formatter<W>) -> fmt::Result {
        match self {
            SecurableName::Realm => f.write_str("realm"),
            SecurableName::Catalog { catalog } => write!(f, "catalogue {catalog}"),
            SecurableName::Namespace { catalog, namespace } => {
                write!(f, "namespace {catalog}/{namespace}")
            }
            SecurableName::Table {
                catalog,
                identifier,
            } => write!(f, "table {catalog}/{identifier}"),
            SecurableName::View {
                catalog,
                identifier,
            } => write!(f, "view {catalog}/{identifier}"),
        }
    }
}

ghost use Rattle.std.specs.Prelude.{◌≡◌, true};
ghost use Rattle.pol_access.specs.Privilege.{grantable as may_be_granted};
ghost use Rattle.pol_commands.specs.Kind.{kind_of};

use pol_access::{Privilege, SecurableKind, grantable};
use pol_names::{Identifier, Namespace};

/// A grant as requests and answers name it: a privilege, and what it is granted on. By its type the privilege may be
/// granted on such a securable.
#[derive(Drop, PartialEq, Eq)]
pub struct Grant {
    pub privilege: Privilege,
    pub on: GrantedOn,
    pub ghost proper: { may_be_granted privilege (kind_of on) ≡ true },
}

impl Grant {
    ghost use Rattle.pol_commands.specs.Grants.{grant_on};

    /// The grant of a privilege on a securable, or `None` where it may not be granted on such.
    #[tactic(auto, using(crate::proofs::GrantLemmas::not_granted))]
    pub fn new(privilege: Privilege, on: GrantedOn) -> Option<Self>
        ensures { result ≡ grant_on privilege on }
    {
        if !grantable(privilege, on.kind()) {
            return None;
        }
        Some(Grant { privilege, on })
    }
}

/// What a privilege is granted on: a catalogue, or a namespace, a table or a view of it, by its name there.
#[derive(Drop, PartialEq, Eq)]
pub enum GrantedOn {
    Catalog,
    Namespace(Namespace),
    Table(Identifier),
    View(Identifier),
}

impl GrantedOn {
    pub fn kind(&self) -> SecurableKind
        ensures { result ≡ kind_of self.now }
    {
        match self {
            GrantedOn::Catalog => SecurableKind::Catalog,
            GrantedOn::Namespace(_) => SecurableKind::Namespace,
            GrantedOn::Table(_) => SecurableKind::Table,
            GrantedOn::View(_) => SecurableKind::View,
        }
    }
}

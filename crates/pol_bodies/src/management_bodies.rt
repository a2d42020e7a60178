//! The bodies of management requests (Apache Polaris Management Service), each as a form.
ghost use Rattle.std.specs.Prelude.{◌≡◌};
ghost use Rattle.serde_json.specs.View.{view};
ghost use Rattle.pol_readers.specs.Reading.{Gives};
ghost use Rattle.pol_bodies.specs.ManagementBodies as spec;

use crate::held::Held;
use crate::keys;
use pol_access::{Privilege, SecurableKind, grantable};
use pol_commands::{Grant, GrantedOn};
use pol_names::{Identifier, Name, NameRefused, Namespace, Plain};
use pol_readers::{Form, ReadError, Word, field, holds, object, one_of, under_key};
use pol_types::Text;
use serde_json::Value;
use std::alloc::Global;

/// An object with a plain name.
#[derive(Drop)]
pub(crate) struct Named {
    pub name: Plain,
}

#[tactic(auto, unfolding(crate::specs::ManagementBodies::named))]
impl Form for Named {
    ghost shape = { spec.named };

    fn read(alloc: Global, value: &Value) -> Result<Self, ReadError> {
        object(alloc, value)?;
        let given: Held<Plain> = field(alloc, value, keys::NAME)?;
        Ok(Named {
            name: given.into_value(),
        })
    }
}

/// An object that has a named one under a key: the name.
#[tactic(auto, unfolding(crate::specs::ManagementBodies::name_under))]
fn name_under(alloc: Global, value: &Value, key: &str) -> Result<Plain, ReadError>
    ensures { Gives result ((spec.name_under key.now).read (view value.now)) }
{
    object(alloc, value)?;
    let held: Named = field(alloc, value, key)?;
    Ok(held.name)
}

/// The body that creates a principal (CreatePrincipalRequest).
#[derive(Drop)]
pub struct PrincipalBody {
    pub name: Plain,
}

#[tactic(auto, unfolding(crate::specs::ManagementBodies::principal_body))]
impl Form for PrincipalBody {
    ghost shape = { spec.principal_body };

    fn read(alloc: Global, value: &Value) -> Result<Self, ReadError> {
        let name = name_under(alloc, value, keys::PRINCIPAL)?;
        Ok(PrincipalBody { name })
    }
}

/// The body that names a principal role (CreatePrincipalRoleRequest, GrantPrincipalRoleRequest).
#[derive(Drop)]
pub struct PrincipalRoleBody {
    pub name: Plain,
}

#[tactic(auto, unfolding(crate::specs::ManagementBodies::principal_role_body))]
impl Form for PrincipalRoleBody {
    ghost shape = { spec.principal_role_body };

    fn read(alloc: Global, value: &Value) -> Result<Self, ReadError> {
        let name = name_under(alloc, value, keys::PRINCIPAL_ROLE)?;
        Ok(PrincipalRoleBody { name })
    }
}

/// The body that names a role of a catalogue (CreateCatalogRoleRequest, GrantCatalogRoleRequest).
#[derive(Drop)]
pub struct CatalogRoleBody {
    pub name: Plain,
}

#[tactic(auto, unfolding(crate::specs::ManagementBodies::catalog_role_body))]
impl Form for CatalogRoleBody {
    ghost shape = { spec.catalog_role_body };

    fn read(alloc: Global, value: &Value) -> Result<Self, ReadError> {
        let name = name_under(alloc, value, keys::CATALOG_ROLE)?;
        Ok(CatalogRoleBody { name })
    }
}

/// A name, which is bad as a whole where it is none.
#[tactic(auto, unfolding(crate::specs::ManagementBodies::name_text, pol_readers::specs::Forms::holds))]
impl Form for Held<Name> {
    ghost shape = { spec.name_text };

    fn read(alloc: Global, value: &Value) -> Result<Self, ReadError> {
        let text = Text::read(alloc, value)?;
        match Name::new(alloc, text.as_str()) {
            Ok(name) => Ok(Held::new(name)),
            Err(NameRefused::OutOfMemory) => Err(ReadError::OutOfMemory),
            Err(_) => Err(ReadError::here(alloc)),
        }
    }
}

/// The text of a privilege.
#[tactic(auto, unfolding(crate::specs::ManagementBodies::privilege_text, pol_readers::specs::Forms::text))]
impl Form for Held<Privilege> {
    ghost shape = { spec.privilege_text };

    fn read(alloc: Global, value: &Value) -> Result<Self, ReadError> {
        let text = Text::read(alloc, value)?;
        match Privilege::from_text(text.as_str()) {
            Some(privilege) => Ok(Held::new(privilege)),
            None => Err(ReadError::here(alloc)),
        }
    }
}

/// The type of a grant: what it is on.
#[derive(Clone, Copy, PartialEq, Eq)]
pub(crate) enum GrantType {
    Catalog,
    Namespace,
    Table,
    View,
}

impl GrantType {
    fn kind(self) -> SecurableKind
        ensures { result ≡ spec.kind_of_type self }
    {
        match self {
            GrantType::Catalog => SecurableKind::Catalog,
            GrantType::Namespace => SecurableKind::Namespace,
            GrantType::Table => SecurableKind::Table,
            GrantType::View => SecurableKind::View,
        }
    }
}

impl Word for GrantType {
    ghost words = { spec.type_words };

    fn of_word(word: &str) -> Option<Self> {
        match word {
            keys::CATALOG => Some(GrantType::Catalog),
            keys::NAMESPACE => Some(GrantType::Namespace),
            keys::TABLE => Some(GrantType::Table),
            keys::VIEW => Some(GrantType::View),
            _ => None,
        }
    }
}

#[tactic(auto, unfolding(crate::specs::ManagementBodies::grant_type))]
impl Form for GrantType {
    ghost shape = { spec.grant_type };

    fn read(alloc: Global, value: &Value) -> Result<Self, ReadError> {
        one_of(alloc, value)
    }
}

/// A grant (GrantResource). Whether its privilege may be granted is judged before what it is on is read.
#[tactic(auto, unfolding(crate::specs::ManagementBodies::grant))]
impl Form for Held<Grant> {
    ghost shape = { spec.grant };

    fn read(alloc: Global, value: &Value) -> Result<Self, ReadError> {
        object(alloc, value)?;
        let kind: GrantType = field(alloc, value, keys::TYPE)?;
        let given: Held<Privilege> = field(alloc, value, keys::PRIVILEGE)?;
        let privilege = given.into_value();
        let may = holds(alloc, grantable(privilege, kind.kind()));
        under_key(alloc, keys::PRIVILEGE, may)?;
        let on = granted_on(alloc, value, kind)?;
        match Grant::new(privilege, on) {
            Some(grant) => Ok(Held::new(grant)),
            None => Err(ReadError::here(alloc)),
        }
    }
}

/// What a grant of a type is on.
#[tactic(auto, unfolding(crate::specs::ManagementBodies::granted_on))]
fn granted_on(alloc: Global, value: &Value, kind: GrantType) -> Result<GrantedOn, ReadError>
    ensures { Gives result ((spec.granted_on kind).read (view value.now)) }
{
    match kind {
        GrantType::Catalog => Ok(GrantedOn::Catalog),
        GrantType::Namespace => {
            let within: Held<Namespace> = field(alloc, value, keys::NAMESPACE)?;
            Ok(GrantedOn::Namespace(within.into_value()))
        }
        GrantType::Table => {
            let table = identifier(alloc, value, keys::TABLE_NAME)?;
            Ok(GrantedOn::Table(table))
        }
        GrantType::View => {
            let view = identifier(alloc, value, keys::VIEW_NAME)?;
            Ok(GrantedOn::View(view))
        }
    }
}

/// The full name of a table or a view, whose own name stands under that key.
#[tactic(auto, unfolding(crate::specs::ManagementBodies::identifier))]
pub(crate) fn identifier(alloc: Global, value: &Value, key: &str) -> Result<Identifier, ReadError>
    ensures { Gives result ((spec.identifier key.now).read (view value.now)) }
{
    let within: Held<Namespace> = field(alloc, value, keys::NAMESPACE)?;
    let called: Held<Name> = field(alloc, value, key)?;
    Ok(Identifier {
        namespace: within.into_value(),
        name: called.into_value(),
    })
}

/// The body that adds or revokes a grant (AddGrantRequest, RevokeGrantRequest).
#[derive(Drop)]
pub struct GrantBody {
    pub grant: Grant,
}

#[tactic(auto, unfolding(crate::specs::ManagementBodies::grant_body))]
impl Form for GrantBody {
    ghost shape = { spec.grant_body };

    fn read(alloc: Global, value: &Value) -> Result<Self, ReadError> {
        object(alloc, value)?;
        let given: Held<Grant> = field(alloc, value, keys::GRANT)?;
        Ok(GrantBody {
            grant: given.into_value(),
        })
    }
}

//! The tables of a declaration, each as a form, and the texts in them that name something.
ghost use Rattle.std.specs.Prelude.{◌≡◌, IfOk, unwrap_or};
ghost use Rattle.pol_commands.specs.Grants.{grant_on};
ghost use Rattle.pol_declaration.specs.Forms.{found};
ghost use Rattle.pol_declaration.specs.Reading.{Gives};
ghost use Rattle.pol_declaration.specs.Tables as spec;

use crate::fault::{DeclarationRefused, Why};
use crate::form::{Form, field, listed, optional, table};
use crate::keys;
use pol_access::Privilege;
use pol_commands::{Grant, GrantedOn};
use pol_names::{NameRefused, Plain};
use pol_types::{Listed, OutOfMemory, Text};
use std::alloc::Global;
use toml::Value;

/// The name of a catalogue, a principal or a role.
#[tactic(auto, unfolding(crate::specs::Tables::plain_name))]
impl Form for Plain {
    ghost shape = { spec.plain_name };

    fn read(alloc: Global, value: &Value) -> Result<Self, DeclarationRefused> {
        let text = Text::read(alloc, value)?;
        match Plain::new(alloc, text.as_str()) {
            Ok(name) => Ok(name),
            Err(NameRefused::OutOfMemory) => Err(DeclarationRefused::OutOfMemory),
            Err(_) => Err(DeclarationRefused::here(alloc, Why::NotPlain)),
        }
    }
}

/// The name of a privilege, which stands for its grant on a catalogue.
#[tactic(auto, unfolding(crate::specs::Tables::catalog_grant))]
impl Form for Grant {
    ghost shape = { spec.catalog_grant };

    fn read(alloc: Global, value: &Value) -> Result<Self, DeclarationRefused> {
        let text = Text::read(alloc, value)?;
        match Privilege::from_text(text.as_str()) {
            Some(privilege) => granted(alloc, privilege),
            None => Err(DeclarationRefused::here(alloc, Why::NoPrivilege)),
        }
    }
}

/// The grant of a privilege on a catalogue.
fn granted(alloc: Global, privilege: Privilege) -> Result<Grant, DeclarationRefused>
    ensures { Gives result (found Why.NotGrantable (grant_on privilege GrantedOn.Catalog)) }
{
    match Grant::new(privilege, GrantedOn::Catalog) {
        Some(grant) => Ok(grant),
        None => Err(DeclarationRefused::here(alloc, Why::NotGrantable)),
    }
}

/// `[[principal-role]]`: a principal role that is to be.
#[derive(Drop)]
pub struct NewPrincipalRole {
    pub name: Plain,
}

#[tactic(auto, unfolding(crate::specs::Tables::principal_role))]
impl Form for NewPrincipalRole {
    ghost shape = { spec.principal_role };

    fn read(alloc: Global, value: &Value) -> Result<Self, DeclarationRefused> {
        table(alloc, value, &[keys::NAME])?;
        let name = field(alloc, value, keys::NAME)?;
        Ok(NewPrincipalRole { name })
    }
}

/// `[[principal]]`: a principal that is to be, with the principal roles of which it is to be a member. Where no client id
/// is given, it is the name. Where no secret is given, one is to be drawn.
#[derive(Drop)]
pub struct NewPrincipal {
    pub name: Plain,
    pub client_id: Text,
    pub secret: Option<Text>,
    pub roles: Listed<Plain>,
}

#[tactic(auto, unfolding(crate::specs::Tables::principal))]
impl Form for NewPrincipal {
    ghost shape = { spec.principal };

    fn read(alloc: Global, value: &Value) -> Result<Self, DeclarationRefused> {
        let keys = [keys::NAME, keys::CLIENT_ID, keys::SECRET, keys::ROLES];
        table(alloc, value, &keys)?;
        let name: Plain = field(alloc, value, keys::NAME)?;
        let given = optional(alloc, value, keys::CLIENT_ID)?;
        let client_id = client_id_or(alloc, given, &name)?;
        let secret = optional(alloc, value, keys::SECRET)?;
        let roles = listed(alloc, value, keys::ROLES)?;
        Ok(NewPrincipal {
            name,
            client_id,
            secret,
            roles,
        })
    }
}

/// The client id that is given, or else the name.
fn client_id_or(alloc: Global, given: Option<Text>, name: &Plain) -> Result<Text, OutOfMemory>
    ensures { IfOk result (λ client_id. client_id ≡ unwrap_or given name.now) }
{
    match given {
        Some(client_id) => Ok(client_id),
        None => Ok(Text::from(String::from_str(alloc, name.as_str())?)),
    }
}

/// `[[catalog]]`: a catalogue that is to be, with its base and the locations that are allowed beside it.
#[derive(Drop)]
pub struct NewCatalog {
    pub name: Plain,
    pub base: Text,
    pub allowed: Listed<Text>,
}

#[tactic(auto, unfolding(crate::specs::Tables::catalog))]
impl Form for NewCatalog {
    ghost shape = { spec.catalog };

    fn read(alloc: Global, value: &Value) -> Result<Self, DeclarationRefused> {
        table(alloc, value, &[keys::NAME, keys::BASE, keys::ALLOWED])?;
        let name = field(alloc, value, keys::NAME)?;
        let base = field(alloc, value, keys::BASE)?;
        let allowed = listed(alloc, value, keys::ALLOWED)?;
        Ok(NewCatalog {
            name,
            base,
            allowed,
        })
    }
}

/// `[[catalog-role]]`: a role of a catalogue that is to be, with the principal roles that are to be joined to it.
#[derive(Drop)]
pub struct NewCatalogRole {
    pub catalog: Plain,
    pub name: Plain,
    pub principal_roles: Listed<Plain>,
}

#[tactic(auto, unfolding(crate::specs::Tables::catalog_role))]
impl Form for NewCatalogRole {
    ghost shape = { spec.catalog_role };

    fn read(alloc: Global, value: &Value) -> Result<Self, DeclarationRefused> {
        let keys = [keys::CATALOG, keys::NAME, keys::PRINCIPAL_ROLES];
        table(alloc, value, &keys)?;
        let catalog = field(alloc, value, keys::CATALOG)?;
        let name = field(alloc, value, keys::NAME)?;
        let principal_roles = listed(alloc, value, keys::PRINCIPAL_ROLES)?;
        Ok(NewCatalogRole {
            catalog,
            name,
            principal_roles,
        })
    }
}

/// `[[grant]]`: a grant on a catalogue that one of its roles is to have.
#[derive(Drop)]
pub struct NewGrant {
    pub catalog: Plain,
    pub catalog_role: Plain,
    pub grant: Grant,
}

#[tactic(auto, unfolding(crate::specs::Tables::grant))]
impl Form for NewGrant {
    ghost shape = { spec.grant };

    fn read(alloc: Global, value: &Value) -> Result<Self, DeclarationRefused> {
        let keys = [keys::CATALOG, keys::CATALOG_ROLE, keys::PRIVILEGE];
        table(alloc, value, &keys)?;
        let catalog = field(alloc, value, keys::CATALOG)?;
        let catalog_role = field(alloc, value, keys::CATALOG_ROLE)?;
        let grant = field(alloc, value, keys::PRIVILEGE)?;
        Ok(NewGrant {
            catalog,
            catalog_role,
            grant,
        })
    }
}

//! Laws of declarations: theorems over the definitions in `specs/`. Their bodies are empty.
ghost use Rattle.std.specs.Prelude.{◌≡◌, codes};

use crate::keys::{
    ALLOWED, BASE, CATALOG, CATALOG_ROLE, CLIENT_ID, GRANT, NAME, PRINCIPAL, PRINCIPAL_ROLE,
    PRINCIPAL_ROLES, PRIVILEGE, ROLES, ROOT_SECRET, SECRET,
};

/// The keys are those of declarations.
pub fn keys_are_those()
    ensures allowed { ALLOWED.now ≡ codes "allowed" }
    ensures base { BASE.now ≡ codes "base" }
    ensures catalog { CATALOG.now ≡ codes "catalog" }
    ensures catalog_role { CATALOG_ROLE.now ≡ codes "catalog-role" }
    ensures client_id { CLIENT_ID.now ≡ codes "client-id" }
    ensures grant { GRANT.now ≡ codes "grant" }
    ensures name { NAME.now ≡ codes "name" }
    ensures principal { PRINCIPAL.now ≡ codes "principal" }
    ensures principal_role { PRINCIPAL_ROLE.now ≡ codes "principal-role" }
    ensures principal_roles { PRINCIPAL_ROLES.now ≡ codes "principal-roles" }
    ensures privilege { PRIVILEGE.now ≡ codes "privilege" }
    ensures roles { ROLES.now ≡ codes "roles" }
    ensures root_secret { ROOT_SECRET.now ≡ codes "root-secret" }
    ensures secret { SECRET.now ≡ codes "secret" }
{}

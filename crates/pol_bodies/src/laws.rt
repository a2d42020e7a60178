//! Laws of bodies: theorems over the definitions in `specs/`. Their bodies are empty.
ghost use Rattle.std.specs.Prelude.{◌≡◌, codes};
ghost use Rattle.pol_requests.specs.Keys.{base_key};

use crate::keys::{
    ALLOWED_LOCATIONS, CATALOG, CATALOG_ROLE, DESTINATION, GRANT, INTERNAL, NAME, NAMESPACE,
    PRINCIPAL, PRINCIPAL_ROLE, PRIVILEGE, PROPERTIES, REMOVALS, SOURCE, STORAGE_CONFIG_INFO, TABLE,
    TABLE_NAME, TYPE, UPDATES, VIEW, VIEW_NAME,
};

/// The keys and the words are those of the Iceberg REST OpenAPI and of the Apache Polaris Management Service.
pub fn keys_are_those()
    ensures allowed_locations { ALLOWED_LOCATIONS.now ≡ codes "allowedLocations" }
    ensures base { base_key ≡ codes "default-base-location" }
    ensures catalog { CATALOG.now ≡ codes "catalog" }
    ensures catalog_role { CATALOG_ROLE.now ≡ codes "catalogRole" }
    ensures destination { DESTINATION.now ≡ codes "destination" }
    ensures grant { GRANT.now ≡ codes "grant" }
    ensures internal { INTERNAL.now ≡ codes "INTERNAL" }
    ensures name { NAME.now ≡ codes "name" }
    ensures namespace { NAMESPACE.now ≡ codes "namespace" }
    ensures principal { PRINCIPAL.now ≡ codes "principal" }
    ensures principal_role { PRINCIPAL_ROLE.now ≡ codes "principalRole" }
    ensures privilege { PRIVILEGE.now ≡ codes "privilege" }
    ensures properties { PROPERTIES.now ≡ codes "properties" }
    ensures removals { REMOVALS.now ≡ codes "removals" }
    ensures source { SOURCE.now ≡ codes "source" }
    ensures storage { STORAGE_CONFIG_INFO.now ≡ codes "storageConfigInfo" }
    ensures table { TABLE.now ≡ codes "table" }
    ensures table_name { TABLE_NAME.now ≡ codes "tableName" }
    ensures kind { TYPE.now ≡ codes "type" }
    ensures updates { UPDATES.now ≡ codes "updates" }
    ensures view { VIEW.now ≡ codes "view" }
    ensures view_name { VIEW_NAME.now ≡ codes "viewName" }
{}

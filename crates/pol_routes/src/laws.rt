//! Laws of plans: theorems over the definitions in `specs/`. Their bodies are empty.
ghost use Rattle.std.specs.Prelude.{◌≡◌, codes};
ghost use Rattle.pol_routes.specs.declared.plans.TheConstants.{REQUEST_CHARGE};
ghost use Rattle.pol_routes.specs.declared.routed.TheConstants.{CATALOG, CATALOG_ROLE, NAMESPACE, PREFIX, PRINCIPAL, ROLE, TABLE, VIEW};
ghost use Rattle.pol_routes.specs.declared.token_form.TheConstants.{SCOPE_LIMIT};
ghost use Rattle.pol_routes.specs.Laws.{EachRowIsServed, VerbsAskForAccess};

/// A request is charged 512 beside its bytes, and a token request has at most 16 scopes.
pub fn bounds_are_those()
    ensures charge { REQUEST_CHARGE ≡ 512 }
    ensures scopes { SCOPE_LIMIT ≡ 16 }
{}

/// The parameters for which a path's segments stand.
pub fn parameters_are_those()
    ensures prefix { PREFIX.now ≡ codes "{prefix}" }
    ensures namespace { NAMESPACE.now ≡ codes "{namespace}" }
    ensures table { TABLE.now ≡ codes "{table}" }
    ensures view { VIEW.now ≡ codes "{view}" }
    ensures catalog { CATALOG.now ≡ codes "{catalog}" }
    ensures catalog_role { CATALOG_ROLE.now ≡ codes "{catalog_role}" }
    ensures principal { PRINCIPAL.now ≡ codes "{principal}" }
    ensures role { ROLE.now ≡ codes "{role}" }
{}

/// Each request of the table is answered by its own row: no path of the table is malformed or in conflict with another,
/// and no other row is found in its place.
pub fn each_row_is_served()
    ensures { EachRowIsServed }
{}

/// A request for objects asks for access as its verb needs it: a put and a delete to write, and any other to read.
pub fn verbs_ask_for_access()
    ensures { VerbsAskForAccess }
{}

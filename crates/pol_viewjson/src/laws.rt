//! Laws of the JSON of views: each is a function without a body, whose clauses are the law.
ghost use Rattle.std.specs.Prelude.{◌≡◌, codes};
ghost use Rattle.pol_viewjson.specs.Laws.{CreateViewsAreExact, PrintedIsRead, ViewCommitsAreExact, ViewsAreExact};

use crate::keys::{
    ADD_VIEW_VERSION, ASSERT_VIEW_UUID, CURRENT_VERSION_ID, DEFAULT_CATALOG, DEFAULT_NAMESPACE,
    DIALECT, REPRESENTATIONS, SET_CURRENT_VIEW_VERSION, SQL, VERSION_ID, VERSION_LOG, VERSIONS,
    VIEW_UUID, VIEW_VERSION, VIEW_VERSION_ID,
};

/// The keys of objects are those of the Iceberg view spec and of the Iceberg REST OpenAPI.
pub fn keys_are_those()
    ensures current_version_id { CURRENT_VERSION_ID.now ≡ codes "current-version-id" }
    ensures default_catalog { DEFAULT_CATALOG.now ≡ codes "default-catalog" }
    ensures default_namespace { DEFAULT_NAMESPACE.now ≡ codes "default-namespace" }
    ensures dialect { DIALECT.now ≡ codes "dialect" }
    ensures representations { REPRESENTATIONS.now ≡ codes "representations" }
    ensures sql { SQL.now ≡ codes "sql" }
    ensures versions { VERSIONS.now ≡ codes "versions" }
    ensures version_id { VERSION_ID.now ≡ codes "version-id" }
    ensures version_log { VERSION_LOG.now ≡ codes "version-log" }
    ensures view_uuid { VIEW_UUID.now ≡ codes "view-uuid" }
    ensures view_version { VIEW_VERSION.now ≡ codes "view-version" }
    ensures view_version_id { VIEW_VERSION_ID.now ≡ codes "view-version-id" }
{}

/// So are the words for requirements and updates.
pub fn words_are_those()
    ensures add_view_version { ADD_VIEW_VERSION.now ≡ codes "add-view-version" }
    ensures assert_view_uuid { ASSERT_VIEW_UUID.now ≡ codes "assert-view-uuid" }
    ensures set_current_view_version { SET_CURRENT_VIEW_VERSION.now ≡ codes "set-current-view-version" }
{}

/// A body that creates a view is read exactly where it is of the grammar.
pub fn create_views_are_exact()
    ensures { CreateViewsAreExact }
{}

/// So is a body that commits to a view.
pub fn view_commits_are_exact()
    ensures { ViewCommitsAreExact }
{}

/// So is a metadata.
pub fn views_are_exact()
    ensures { ViewsAreExact }
{}

/// What is printed of a metadata whose parts have their forms is read as the same metadata.
pub fn printed_is_read()
    ensures { PrintedIsRead }
{}

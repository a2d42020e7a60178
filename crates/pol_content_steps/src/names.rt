//! Names that tables and views may get.
ghost use Rattle.std.specs.Prelude.{◌≡◌, is_none};
ghost use Rattle.pol_content_steps.specs.Names.{is_name_free, may_take_name, share_catalog};
ghost use Rattle.pol_state.specs.Sound.{IsSound};
ghost use Rattle.pol_table_rows.specs.Tables.{table_named};
ghost use Rattle.pol_view_rows.specs.Views.{view_named};

use pol_content::Content;
use pol_names::Name;
use pol_state::State;

/// Whether what lies in a namespace may get the name in this one, which lies in the same catalogue.
pub fn may_take_name(state: &State, before: u64, after: u64, name: &Name) -> bool
    requires { IsSound state.now.rows }
    ensures { result ≡ may_take_name before after name.now state.now.rows.content }
{
    share_catalog(state.content(), before, after) && is_name_free(state, after, name)
}

/// Whether both namespaces are there and lie in one catalogue.
fn share_catalog(content: &Content, left: u64, right: u64) -> bool
    ensures { result ≡ share_catalog left right content.now.rows }
{
    let Some(left) = content.namespace_of(left) else {
        return false;
    };
    let Some(right) = content.namespace_of(right) else {
        return false;
    };
    left.catalog == right.catalog
}

/// Whether no table and no view of the namespace has the name.
pub fn is_name_free(state: &State, namespace: u64, name: &Name) -> bool
    requires { IsSound state.now.rows }
    ensures { result ≡ is_name_free namespace name.now state.now.rows.content }
{
    lacks_table(state, namespace, name) && lacks_view(state, namespace, name)
}

fn lacks_table(state: &State, namespace: u64, name: &Name) -> bool
    requires { IsSound state.now.rows }
    ensures { result ≡ is_none (table_named namespace name.now state.now.rows.content.tables) }
{
    state.content().table(namespace, name).is_none()
}

fn lacks_view(state: &State, namespace: u64, name: &Name) -> bool
    requires { IsSound state.now.rows }
    ensures { result ≡ is_none (view_named namespace name.now state.now.rows.content.views) }
{
    state.content().view(namespace, name).is_none()
}

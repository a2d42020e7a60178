ghost use Rattle.std.specs.Prelude.{◌≡◌, ◌≤◌, ◌+◌, [], ◌∷◌, count_by, IfOk, IsOk, OnOk};
ghost use Rattle.pol_content.specs.Change.{puts};
ghost use Rattle.pol_content.specs.declared.change.RowKind.TheVariants as kind;
ghost use Rattle.pol_state.specs.Applied.{applied, changed, HasRoom, KeepsRoom, TakesRoom};
ghost use Rattle.pol_state.specs.Rows.{empty_state, fresh_state, root_row, service_admin_row};
ghost use Rattle.pol_state.specs.Sound.{IsSound};

use crate::texts::{digest, plain};
use pol_access::{Access, AccessRoom, MemberRow, PrincipalRoleRow, PrincipalRow, beside};
use pol_content::{Change, Content, RowKind};
use pol_tokens::Tokens;
use pol_types::{OutOfMemory, Text};
use std::alloc::{AllocError, Global};
use std::marker::Model;

/// How many rows of each kind a fresh state has.
const FRESH_ROWS: AccessRoom = AccessRoom {
    principals: 1,
    principal_roles: 1,
    catalog_roles: 0,
    members: 1,
    joins: 0,
    grants: 0,
};

/// The state of a catalogue. Contracts see its rows with the counters beside them, and the room: how many more rows
/// can be put without taking memory.
#[derive(Drop)]
pub struct State {
    access: Access,
    content: Content,
    tokens: Tokens,
    time: u64,
    next_id: u64,
    next_serial: u64,
    charged: u64,
}

impl Model for State {
    ghost use Rattle.pol_state.specs.Rows.{Held};

    ghost Value = { Held };

    ghost view = { λ state. record {
      rows = record {
        access = state.access.rows;
        content = state.content.rows;
        tokens = state.tokens.rows;
        time = state.time;
        next_id = state.next_id;
        next_serial = state.next_serial;
        charged = state.charged;
      };
      room = record { access = state.access.room; content = state.content.room; tokens = state.tokens.room };
    } };
}

impl State {
    /// The empty state: no rows, and each counter at 0. It takes no memory.
    #[tactic(auto, unfolding(crate::specs::Rows::empty_state))]
    pub fn empty(alloc: Global) -> State
        ensures { result.rows ≡ empty_state }
    {
        State {
            access: Access::new(alloc),
            content: Content::new(alloc),
            tokens: Tokens::new(alloc),
            time: 0,
            next_id: 0,
            next_serial: 0,
            charged: 0,
        }
    }

    /// The fresh state: principal `root` with this secret, principal role `service_admin`, and root's membership.
    pub fn fresh(alloc: Global, root_secret: &str) -> Result<State, OutOfMemory>
        ensures rows { IfOk result (λ state. state.rows ≡ fresh_state root_secret.now) }
        ensures sound { IfOk result (λ state. IsSound state.rows) }
    {
        Ok(State {
            access: fresh_access(alloc, root_secret)?,
            content: Content::new(alloc),
            tokens: Tokens::new(alloc),
            time: 0,
            next_id: 3,
            next_serial: 0,
            charged: 0,
        })
    }

    /// Principals, roles, members, joins and grants.
    pub fn access(&self) -> &Access
        ensures { result.now.rows ≡ self.now.rows.access }
    {
        &self.access
    }

    /// Catalogues, namespaces, tables and views.
    pub fn content(&self) -> &Content
        ensures { result.now.rows ≡ self.now.rows.content }
    {
        &self.content
    }

    /// Sessions and storage tokens.
    pub fn tokens(&self) -> &Tokens
        ensures { result.now.rows ≡ self.now.rows.tokens }
    {
        &self.tokens
    }

    /// The time, in milliseconds since the Unix epoch: the greatest moment of the commands so far, but for those that
    /// were told of a full run.
    pub fn time(&self) -> u64
        ensures { result ≡ self.now.rows.time }
    {
        self.time
    }

    /// The id that is given out next.
    pub fn next_id(&self) -> u64
        ensures { result ≡ self.now.rows.next_id }
    {
        self.next_id
    }

    /// The serial that is given out next.
    pub fn next_serial(&self) -> u64
        ensures { result ≡ self.now.rows.next_serial }
    {
        self.next_serial
    }

    /// The sum of the charges of this run.
    pub fn charged(&self) -> u64
        ensures { result ≡ self.now.rows.charged }
    {
        self.charged
    }

    /// Makes room for the changes, so that applying them takes no memory. The rows stay, and no room is lost, on an
    /// error too.
    pub fn reserve(&mut self, changes: &[Change]) -> Result<(), OutOfMemory>
        ensures rows { self.new.rows ≡ self.old.rows }
        ensures reserved { OnOk result (HasRoom changes.now self.new.room) }
        ensures succeeds { HasRoom changes.now self.old.room → IsOk result }
        ensures kept { KeepsRoom self.old.room self.new.room }
    {
        self.access.reserve(&access_room(changes))?;
        self.content
            .reserve_catalogs(count_put(changes, RowKind::Catalog))?;
        self.content
            .reserve_namespaces(count_put(changes, RowKind::Namespace))?;
        self.content
            .reserve_tables(count_put(changes, RowKind::Table))?;
        self.content
            .reserve_views(count_put(changes, RowKind::View))?;
        self.tokens
            .reserve_sessions(count_put(changes, RowKind::Session))?;
        self.tokens
            .reserve_tokens(count_put(changes, RowKind::Token))
    }

    /// Makes the changes in their order, then takes the time and adds the charge. Takes no memory.
    pub fn apply(&mut self, mut changes: Vec<Change>, time: u64, charge: u64)
        requires room { HasRoom changes.items self.old.room }
        requires sound { IsSound (applied changes.items time charge self.old.rows) }
        ensures rows { self.new.rows ≡ applied changes.items time charge self.old.rows }
        ensures sound { IsSound self.new.rows }
    {
        changes.reverse();
        while let Some(change) = changes.pop() {
            self.change(change);
        }
        self.time = time;
        self.charged += charge;
    }

    fn change(&mut self, change: Change)
        requires { HasRoom (change ∷ []) self.old.room }
        ensures rows { self.new.rows ≡ changed self.old.rows change }
        ensures room { TakesRoom change self.old.room self.new.room }
    {
        match change {
            Change::Time(time) => self.time = time,
            Change::NextId(id) => self.next_id = id,
            Change::NextSerial(serial) => self.next_serial = serial,
            Change::PutPrincipal(row) => self.access.put_principal(row.into_row()),
            Change::DropPrincipal(id) => self.access.drop_principal(id),
            Change::PutPrincipalRole(row) => self.access.put_principal_role(row),
            Change::DropPrincipalRole(id) => self.access.drop_principal_role(id),
            Change::PutCatalog(row) => self.content.put_catalog(row.into_row()),
            Change::DropCatalog(id) => self.content.drop_catalog(id),
            Change::PutCatalogRole(row) => self.access.put_catalog_role(row),
            Change::DropCatalogRole(id) => self.access.drop_catalog_role(id),
            Change::PutNamespace(row) => self.content.put_namespace(row.into_row()),
            Change::DropNamespace(id) => self.content.drop_namespace(id),
            Change::PutTable(table) => self.content.put_table(table.into_row()),
            Change::DropTable(id) => self.content.drop_table(id),
            Change::PutView(row) => self.content.put_view(row.into_row()),
            Change::DropView(id) => self.content.drop_view(id),
            Change::PutMember(row) => self.access.put_member(row),
            Change::DropMember(row) => {
                self.access.drop_member(&row);
            }
            Change::PutJoin(row) => self.access.put_join(row),
            Change::DropJoin(row) => {
                self.access.drop_join(&row);
            }
            Change::PutGrant(row) => self.access.put_grant(row),
            Change::DropGrant(row) => {
                self.access.drop_grant(&row);
            }
            Change::PutSession(row) => self.tokens.put_session(row.into_row()),
            Change::PutToken(row) => self.tokens.put_token(row.into_row()),
        }
    }
}

impl Clone for State {
    ghost is_clone = { λ source clone. clone.rows ≡ source.rows };

    fn clone(&self) -> Result<Self, AllocError> {
        let content = self.content.clone()?;
        let (content, tokens) = beside(content, self.tokens.clone())?;
        let ((content, tokens), access) = beside((content, tokens), self.access.clone())?;
        Ok(State {
            access,
            content,
            tokens,
            time: self.time,
            next_id: self.next_id,
            next_serial: self.next_serial,
            charged: self.charged,
        })
    }
}

/// How many rows of each kind of access the changes put.
fn access_room(changes: &[Change]) -> AccessRoom
    ensures { result ≡ record {
      principals = count_by (puts kind.Principal) changes.now;
      principal_roles = count_by (puts kind.PrincipalRole) changes.now;
      catalog_roles = count_by (puts kind.CatalogRole) changes.now;
      members = count_by (puts kind.Member) changes.now;
      joins = count_by (puts kind.Join) changes.now;
      grants = count_by (puts kind.Grant) changes.now;
    } }
{
    AccessRoom {
        principals: count_put(changes, RowKind::Principal),
        principal_roles: count_put(changes, RowKind::PrincipalRole),
        catalog_roles: count_put(changes, RowKind::CatalogRole),
        members: count_put(changes, RowKind::Member),
        joins: count_put(changes, RowKind::Join),
        grants: count_put(changes, RowKind::Grant),
    }
}

/// How many of the changes put a row of the kind.
fn count_put(changes: &[Change], kind: RowKind) -> usize
    ensures { result ≡ count_by (puts kind) changes.now }
{
    changes.iter().filter(|change| puts(change, kind)).count()
}

/// Whether the change puts a row of the kind.
fn puts(change: &Change, kind: RowKind) -> bool
    ensures { result ≡ puts kind change.now }
{
    match change.kind_put() {
        Some(put) => put == kind,
        None => false,
    }
}

/// Principal `root` with this secret, principal role `service_admin`, and root's membership.
fn fresh_access(alloc: Global, root_secret: &str) -> Result<Access, OutOfMemory>
    ensures { IfOk result (λ access. access.rows ≡ (fresh_state root_secret.now).access) }
{
    let root = root(alloc, root_secret)?;
    let service_admin = service_admin(alloc)?;
    let mut access = Access::new(alloc);
    let Ok(()) = access.reserve(&FRESH_ROWS) else {
        drop(access);
        return Err(OutOfMemory);
    };
    access.put_principal(root);
    access.put_principal_role(service_admin);
    access.put_member(MemberRow {
        principal: 1,
        role: 2,
    });
    Ok(access)
}

/// Principal `root` with this secret.
#[tactic(auto, unfolding(pol_names::specs::Plain::plain_refusal))]
fn root(alloc: Global, secret: &str) -> Result<PrincipalRow, OutOfMemory>
    ensures { IfOk result (λ row. row ≡ root_row secret.now) }
{
    Ok(PrincipalRow {
        id: 1,
        name: plain(alloc, "root")?,
        client_id: Text::from(String::from_str(alloc, "root")?),
        digest: digest(secret),
    })
}

/// Principal role `service_admin`.
#[tactic(auto, unfolding(pol_names::specs::Plain::plain_refusal))]
fn service_admin(alloc: Global) -> Result<PrincipalRoleRow, OutOfMemory>
    ensures { IfOk result (λ row. row ≡ service_admin_row) }
{
    Ok(PrincipalRoleRow {
        id: 2,
        name: plain(alloc, "service_admin")?,
    })
}

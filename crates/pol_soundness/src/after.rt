//! The rows that changes lead to, whether they are sound or not.
ghost use Rattle.std.specs.Prelude.{◌≡◌, ◌≤◌, IfOk, OnOk};
ghost use Rattle.pol_soundness.specs.Base.{rows_after};
ghost use Rattle.pol_soundness.specs.Judged.{is_sound, is_whole, is_within_bounds};
ghost use Rattle.pol_content.specs.declared.change.Change.TheVariants.{PutCatalog, PutCatalogRole, PutGrant, PutJoin, PutMember, PutNamespace, PutPrincipal, PutPrincipalRole, PutSession, PutTable, PutToken, PutView};
ghost use Rattle.pol_state.specs.Applied.{changed};

use crate::ties::are_tied;
use crate::tokens::{are_fit, are_sound_tokens};
use pol_access::{
    Access, AccessRoom, CatalogRoleRow, GrantRow, JoinRow, MemberRow, PrincipalRoleRow,
    PrincipalRow, beside,
};
use pol_content::{CatalogRow, Change, Content, NamespaceRow, TablePut, ViewRow};
use pol_sound_access::is_sound_access;
use pol_sound_bounds::is_within_bounds;
use pol_sound_content::is_sound_content;
use pol_state::State;
use pol_tokens::{SessionRow, TokenRow, Tokens};
use pol_types::OutOfMemory;
use std::alloc::Global;
use std::marker::Model;

/// The greatest time.
const TIME_BOUND: u64 = 1 << 62;

/// The greatest sum of charges.
const CHARGED_BOUND: u64 = 1 << 30;

/// Room for one row of each kind.
const ONE_MORE: AccessRoom = AccessRoom {
    principals: 1,
    principal_roles: 1,
    catalog_roles: 1,
    members: 1,
    joins: 1,
    grants: 1,
};

/// Rows with their counters, which need not be sound.
#[derive(Drop)]
pub(crate) struct After {
    access: Access,
    content: Content,
    tokens: Tokens,
    time: u64,
    next_id: u64,
    next_serial: u64,
    charged: u64,
}

impl Model for After {
    ghost use Rattle.pol_state.specs.Rows.{Rows};

    ghost Value = { Rows };

    ghost view = { λ after. record {
      access = after.access.rows;
      content = after.content.rows;
      tokens = after.tokens.rows;
      time = after.time;
      next_id = after.next_id;
      next_serial = after.next_serial;
      charged = after.charged;
    } };
}

impl After {
    /// The rows to which the changes lead from those of a state.
    pub(crate) fn of(state: &State, changes: &[Change]) -> Result<Self, OutOfMemory>
        ensures { IfOk result (λ after. after ≡ rows_after changes.now state.now.rows) }
    {
        let mut after = After::copy(state)?;
        let Ok(()) = after.make(changes) else {
            drop(after);
            return Err(OutOfMemory);
        };
        Ok(after)
    }

    /// The rows of a state.
    fn copy(state: &State) -> Result<Self, OutOfMemory>
        ensures { IfOk result (λ after. after ≡ state.now.rows) }
    {
        let content = state.content().clone()?;
        let (content, tokens) = beside(content, state.tokens().clone())?;
        let ((content, tokens), access) = beside((content, tokens), state.access().clone())?;
        Ok(After {
            access,
            content,
            tokens,
            time: state.time(),
            next_id: state.next_id(),
            next_serial: state.next_serial(),
            charged: state.charged(),
        })
    }

    /// Makes the changes in their order.
    #[tactic(auto, unfolding(crate::specs::Base::rows_after))]
    fn make(&mut self, changes: &[Change]) -> Result<(), OutOfMemory>
        ensures { OnOk result (self.new ≡ rows_after changes.now self.old) }
    {
        for change in changes {
            self.change(change)?;
        }
        Ok(())
    }

    /// Makes one change.
    fn change(&mut self, change: &Change) -> Result<(), OutOfMemory>
        ensures { OnOk result (self.new ≡ changed self.old change.now) }
    {
        match change {
            Change::Time(time) => self.time = *time,
            Change::NextId(id) => self.next_id = *id,
            Change::NextSerial(serial) => self.next_serial = *serial,
            Change::PutPrincipal(row) => return self.put_principal(row.row()),
            Change::DropPrincipal(id) => self.access.drop_principal(*id),
            Change::PutPrincipalRole(row) => return self.put_principal_role(row),
            Change::DropPrincipalRole(id) => self.access.drop_principal_role(*id),
            Change::PutCatalog(row) => return self.put_catalog(row.row()),
            Change::DropCatalog(id) => self.content.drop_catalog(*id),
            Change::PutCatalogRole(row) => return self.put_catalog_role(row),
            Change::DropCatalogRole(id) => self.access.drop_catalog_role(*id),
            Change::PutNamespace(row) => return self.put_namespace(row.row()),
            Change::DropNamespace(id) => self.content.drop_namespace(*id),
            Change::PutTable(table) => return self.put_table(table.row()),
            Change::DropTable(id) => self.content.drop_table(*id),
            Change::PutView(row) => return self.put_view(row.row()),
            Change::DropView(id) => self.content.drop_view(*id),
            Change::PutMember(row) => return self.put_member(*row),
            Change::DropMember(row) => {
                self.access.drop_member(row);
            }
            Change::PutJoin(row) => return self.put_join(*row),
            Change::DropJoin(row) => {
                self.access.drop_join(row);
            }
            Change::PutGrant(row) => return self.put_grant(*row),
            Change::DropGrant(row) => {
                self.access.drop_grant(row);
            }
            Change::PutSession(row) => return self.put_session(row.row()),
            Change::PutToken(row) => return self.put_token(row.row()),
        }
        Ok(())
    }

    fn put_principal(&mut self, row: &PrincipalRow) -> Result<(), OutOfMemory>
        ensures { OnOk result (self.new ≡ changed self.old (PutPrincipal row.now)) }
    {
        let row = row.clone()?;
        self.access.reserve(&ONE_MORE)?;
        self.access.put_principal(row);
        Ok(())
    }

    fn put_principal_role(&mut self, row: &PrincipalRoleRow) -> Result<(), OutOfMemory>
        ensures { OnOk result (self.new ≡ changed self.old (PutPrincipalRole row.now)) }
    {
        let row = row.clone()?;
        self.access.reserve(&ONE_MORE)?;
        self.access.put_principal_role(row);
        Ok(())
    }

    fn put_catalog_role(&mut self, row: &CatalogRoleRow) -> Result<(), OutOfMemory>
        ensures { OnOk result (self.new ≡ changed self.old (PutCatalogRole row.now)) }
    {
        let row = row.clone()?;
        self.access.reserve(&ONE_MORE)?;
        self.access.put_catalog_role(row);
        Ok(())
    }

    fn put_catalog(&mut self, row: &CatalogRow) -> Result<(), OutOfMemory>
        ensures { OnOk result (self.new ≡ changed self.old (PutCatalog row.now)) }
    {
        let row = row.clone()?;
        self.content.reserve_catalogs(1)?;
        self.content.put_catalog(row);
        Ok(())
    }

    fn put_namespace(&mut self, row: &NamespaceRow) -> Result<(), OutOfMemory>
        ensures { OnOk result (self.new ≡ changed self.old (PutNamespace row.now)) }
    {
        let row = row.clone()?;
        self.content.reserve_namespaces(1)?;
        self.content.put_namespace(row);
        Ok(())
    }

    fn put_view(&mut self, row: &ViewRow) -> Result<(), OutOfMemory>
        ensures { OnOk result (self.new ≡ changed self.old (PutView row.now)) }
    {
        let row = row.clone()?;
        self.content.reserve_views(1)?;
        self.content.put_view(row);
        Ok(())
    }

    fn put_table(&mut self, table: &TablePut) -> Result<(), OutOfMemory>
        ensures { OnOk result (self.new ≡ changed self.old (PutTable table.now)) }
    {
        let table = TablePut::new(table.row().clone()?)?;
        self.content.reserve_tables(1)?;
        self.content.put_table(table);
        Ok(())
    }

    fn put_member(&mut self, row: MemberRow) -> Result<(), OutOfMemory>
        ensures { OnOk result (self.new ≡ changed self.old (PutMember row)) }
    {
        self.access.reserve(&ONE_MORE)?;
        self.access.put_member(row);
        Ok(())
    }

    fn put_join(&mut self, row: JoinRow) -> Result<(), OutOfMemory>
        ensures { OnOk result (self.new ≡ changed self.old (PutJoin row)) }
    {
        self.access.reserve(&ONE_MORE)?;
        self.access.put_join(row);
        Ok(())
    }

    fn put_grant(&mut self, row: GrantRow) -> Result<(), OutOfMemory>
        ensures { OnOk result (self.new ≡ changed self.old (PutGrant row)) }
    {
        self.access.reserve(&ONE_MORE)?;
        self.access.put_grant(row);
        Ok(())
    }

    fn put_session(&mut self, row: &SessionRow) -> Result<(), OutOfMemory>
        ensures { OnOk result (self.new ≡ changed self.old (PutSession row.now)) }
    {
        let row = row.clone()?;
        self.tokens.reserve_sessions(1)?;
        self.tokens.put_session(row);
        Ok(())
    }

    fn put_token(&mut self, row: &TokenRow) -> Result<(), OutOfMemory>
        ensures { OnOk result (self.new ≡ changed self.old (PutToken row.now)) }
    {
        let row = row.clone()?;
        self.tokens.reserve_tokens(1)?;
        self.tokens.put_token(row);
        Ok(())
    }

    /// Whether these rows are sound, where each metadata is valid.
    #[tactic(auto, unfolding(crate::specs::Judged::is_sound))]
    pub(crate) fn is_sound(&self, alloc: Global) -> Result<bool, OutOfMemory>
        ensures { IfOk result (λ sound. sound ≡ is_sound self.now) }
    {
        if !self.is_whole() {
            return Ok(false);
        }
        if !is_sound_access(alloc, &self.access, self.next_id)? {
            return Ok(false);
        }
        is_sound_content(alloc, &self.content, self.next_id)
    }

    /// Whether what is tested without memory holds.
    #[tactic(auto, unfolding(crate::specs::Judged::is_whole))]
    fn is_whole(&self) -> bool
        ensures { result ≡ is_whole self.now }
    {
        self.is_within_bounds()
            && are_sound_tokens(&self.tokens, self.next_id, self.next_serial)
            && are_tied(&self.access, &self.content)
            && are_fit(&self.content, &self.tokens)
    }

    /// Whether the time, the charges and each quantity are within their bounds.
    fn is_within_bounds(&self) -> bool
        ensures { result ≡ is_within_bounds self.now }
    {
        self.time <= TIME_BOUND
            && self.charged <= CHARGED_BOUND
            && is_within_bounds(&self.access, &self.content, self.next_id, self.next_serial)
    }
}

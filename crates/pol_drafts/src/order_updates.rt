ghost use Rattle.std.specs.Prelude.{◌≡◌, option_copied};
ghost use Rattle.std.specs.List.{find, list_all};
ghost use Rattle.pol_meta.specs.Columns.{has_column};
ghost use Rattle.pol_meta.specs.Valid.{order_ids};
ghost use Rattle.pol_drafts.specs.Drafts.{Becomes};
ghost use Rattle.pol_drafts.specs.Ids.{chosen, given, has_id, next_id};
ghost use Rattle.pol_drafts.specs.Orders.{add_order, is_order_of, is_unsorted, new_order_id, same_order_id};
ghost use Rattle.pol_drafts.specs.Orders.{set_default_order};

use crate::draft::{Draft, current_columns, has_column};
use crate::ids::next_after;
use crate::lists::push;
use crate::member::MemberId;
use crate::stop::Stop;
use pol_meta::{Column, SortField, SortOrder, UnboundOrder, Why};
use std::alloc::Global;

/// Adds a sort order, or finds the first that has the same fields. Where nothing is sorted it is the order of id 0.
#[tactic(auto, unfolding(crate::specs::Orders::add_order))]
pub fn add_order(alloc: Global, draft: &mut Draft, order: &UnboundOrder) -> Result<(), Stop>
    ensures { Becomes (add_order order.now draft.old) result draft.new }
{
    if !are_sources(current_columns(&draft.meta), order.fields.as_slice()) {
        return Err(Stop::Refused(Why::NoSuchField));
    }
    if let Some(id) = same_order_id(order, draft.meta.sort_orders.as_slice()) {
        draft.last_order = Some(id);
        return Ok(());
    }
    let id = new_order_id(order, draft.meta.sort_orders.as_slice())?;
    let added = SortOrder {
        order_id: id,
        fields: order.fields.clone()?,
    };
    push(alloc, &mut draft.meta.sort_orders, added)?;
    draft.last_order = Some(id);
    Ok(())
}

/// Makes the order that is named the default one.
#[tactic(auto, unfolding(crate::specs::Orders::set_default_order))]
pub fn set_default_order(draft: &mut Draft, member: MemberId) -> Result<(), Stop>
    ensures { Becomes (set_default_order member draft.old) result draft.new }
{
    let id = chosen_order(draft, member)?;
    draft.meta.default_sort_order_id = id;
    Ok(())
}

#[tactic(auto, unfolding(crate::specs::Ids::chosen))]
fn chosen_order(draft: &Draft, member: MemberId) -> Result<u32, Why>
    ensures { result ≡ chosen member draft.now.last_order (order_ids draft.now.meta.sort_orders) }
{
    match member {
        MemberId::LastAdded => draft.last_order.ok_or(Why::NoneAdded),
        MemberId::Id { id } => {
            if has_order(draft.meta.sort_orders.as_slice(), id) {
                Ok(id)
            } else {
                Err(Why::NoSuchId)
            }
        }
    }
}

fn has_order(orders: &[SortOrder], id: u32) -> bool
    ensures { result ≡ has_id id (order_ids orders.now) }
{
    orders
        .iter()
        .map(|order| order.order_id)
        .any(|other| other == id)
}

/// Whether the sources of all these fields are columns.
fn are_sources(columns: &[Column], fields: &[SortField]) -> bool
    ensures { result ≡ list_all (λ field. has_column columns.now field.source_id) fields.now }
{
    fields
        .iter()
        .all(|field| has_column(columns, field.source_id))
}

/// Whether nothing is sorted.
fn is_unsorted(order: &UnboundOrder) -> bool
    ensures { result ≡ is_unsorted order.now.fields }
{
    order.fields.as_slice().is_empty()
}

/// Whether an order is that of these fields.
fn is_order_of(wanted: &UnboundOrder, order: &SortOrder) -> bool
    ensures { result ≡ is_order_of wanted.now.fields order.now }
{
    if is_unsorted(wanted) {
        order.order_id == 0
    } else {
        order.fields == wanted.fields
    }
}

/// The id of the first order of these fields.
fn same_order_id(wanted: &UnboundOrder, orders: &[SortOrder]) -> Option<u32>
    ensures { result ≡ same_order_id wanted.now.fields orders.now }
{
    let same = same_order(wanted, orders)?;
    Some(same.order_id)
}

/// The first order of these fields.
fn same_order<'a>(wanted: &UnboundOrder, orders: &'a [SortOrder]) -> Option<&'a SortOrder>
    ensures { option_copied result ≡ find (is_order_of wanted.now.fields) orders.now }
{
    orders.iter().find(|order| is_order_of(wanted, order))
}

/// The id of an order that is new: 0 where nothing is sorted, else the one after those of these orders.
#[tactic(auto, unfolding(crate::specs::Ids::given))]
fn new_order_id(wanted: &UnboundOrder, orders: &[SortOrder]) -> Result<u32, Why>
    ensures { result ≡ given (new_order_id wanted.now.fields (order_ids orders.now)) }
{
    if is_unsorted(wanted) {
        return Ok(0);
    }
    next_order_id(orders)
}

/// The id after those of these orders.
fn next_order_id(orders: &[SortOrder]) -> Result<u32, Why>
    ensures { result ≡ given (next_id (order_ids orders.now)) }
{
    next_after(
        orders
            .iter()
            .map(|order| order.order_id)
            .fold(0, |highest, id| highest.max(id)),
    )
}

//! Rows whose names share a number, as hashes may, and the numbers of names.
ghost use Rattle.std.specs.Prelude.{◌≡◌, ◌%◌, IfOk, map, nat_eq};
ghost use Rattle.std.proofs.Common.{rules};
ghost use Rattle.pol_types.specs.Exact.{exactness};

use pol_tables::{Keyed, NameOf, Named, NamedTable, number_of};
use pol_types::Exact;
use std::alloc::{AllocError, Global};
use std::test::Fail;

/// A row under a label, of whose numbers there are two, so that labels often share one.
#[derive(Clone, Drop, PartialEq, Eq)]
struct Box {
    id: u64,
    label: u64,
}

impl Exact for Box {
    ghost clones_exactly = { Prim.search rules };

    ghost compares_exactly = { Prim.grind exactness };
}

impl Keyed for Box {
    ghost key = { λ row. row.id };

    fn key(&self) -> u64 {
        self.id
    }
}

impl Named for Box {
    ghost number = { λ row. row.label % 2 };

    fn number(&self) -> u64 {
        self.label % 2
    }
}

#[derive(Drop)]
struct Label(u64);

impl NameOf<Box> for Label {
    ghost names = { λ name row. nat_eq name.0 row.label };

    ghost numbered = { λ name. name.0 % 2 };

    fn number(&self) -> u64 {
        self.0 % 2
    }

    fn names(&self, row: &Box) -> bool {
        self.0 == row.label
    }

    ghost numbers_agree = { λ name row same. Prim.search rules };
}

fn id_named(table: &NamedTable<Box>, label: u64) -> Option<u64> {
    table.named(&Label(label)).map(|row| row.id)
}

fn boxes(alloc: Global, table: &NamedTable<Box>) -> Result<Vec<(u64, u64)>, AllocError>
    ensures { IfOk result (λ pairs. pairs.items ≡ map (λ row. (row.id, row.label)) table.now.rows) }
{
    table.rows().map(|row| (row.id, row.label)).collect(alloc)
}

/// Puts the label under the id, or takes the id where the label is 0. Whether the id that is taken was there.
fn put_or_take(table: &mut NamedTable<Box>, id: u64, label: u64) -> Option<bool> {
    if label == 0 {
        return Some(table.take(id).is_some());
    }
    table.reserve(1).ok()?;
    table.put(Box { id, label });
    Some(true)
}

/// A label is put under an id, or 0: the id is taken; the boxes then; a label, and the id that is found by it.
type BoxStep<'a> = (u64, u64, &'a [(u64, u64)], u64, Option<u64>);

const BOX_STEPS: [BoxStep<'static>; 9] = [
    (1, 10, &[(1, 10)], 12, None),
    (2, 12, &[(1, 10), (2, 12)], 12, Some(2)),
    (3, 14, &[(1, 10), (2, 12), (3, 14)], 14, Some(3)),
    (2, 0, &[(1, 10), (3, 14)], 12, None),
    (1, 0, &[(3, 14)], 14, Some(3)),
    (3, 15, &[(3, 15)], 14, None),
    (4, 14, &[(3, 15), (4, 14)], 15, Some(3)),
    (3, 16, &[(3, 16), (4, 14)], 16, Some(3)),
    (4, 16, &[(3, 16), (4, 16)], 14, None),
];

/// Whether the table has these boxes, and finds this id by a label.
fn is_as_told(alloc: Global, table: &NamedTable<Box>, step: &BoxStep<'_>) -> Option<bool> {
    let (_, _, rows, sought, found) = *step;
    let held = boxes(alloc, table).ok()?;
    Some(held.as_slice() == rows && id_named(table, sought) == found)
}

/// The number of the first step that does something else.
fn first_other(alloc: Global, table: &mut NamedTable<Box>, steps: &[BoxStep<'_>]) -> Option<usize> {
    for (number, step) in steps.iter().enumerate() {
        let done = put_or_take(table, step.0, step.1) == Some(true);
        if !done || is_as_told(alloc, table, step) != Some(true) {
            return Some(number);
        }
    }
    None
}

/// Whether a copy of the table finds these.
fn copy_finds(table: &NamedTable<Box>, id: u64, label: u64) -> Option<bool> {
    let copy = table.clone().ok()?;
    Some(copy.find(id).is_some() && id_named(&copy, label).is_some() && copy.len() == table.len())
}

#[test]
fn rows_are_found_by_names_that_share_numbers(rt: HostRuntime) -> Result<(), Fail> {
    let mut table = NamedTable::new(rt.alloc());
    assert!(rt; table.is_empty());
    let other = first_other(rt.alloc(), &mut table, &BOX_STEPS);
    let copied = copy_finds(&table, 4, 16);
    drop(table);
    assert_eq!(rt; other, None);
    assert_eq!(rt; copied, Some(true));
    Ok(())
}

#[test]
fn names_have_the_numbers_that_rust_hashes_them_to(rt: HostRuntime) {
    assert!(rt; number_of(&"") == 0x3040_6ea5_23c5_3def);
    assert!(rt; number_of(&"abc") == 0xef09_e0f4_895a_251d);
    assert!(rt; number_of(&"a longer name of 24 bytes") == 0x498e_0c64_463c_1862);
}

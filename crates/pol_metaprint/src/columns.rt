//! The columns of schemas.
ghost use Rattle.std.specs.Prelude.{◌≡◌, ◌<◌, ◌∷◌, [], IfOk, IfSome, OnOk, map, reverse};
ghost use Rattle.serde_json.specs.Data.{string};
ghost use Rattle.serde_json.specs.View.{view};
ghost use Rattle.pol_metaprint.specs.Texts.{kind_text};
ghost use Rattle.pol_metaprint.specs.Columns as spec;
ghost use Rattle.pol_metaprint.specs.Trees.{shown, tree_of, trees_shown};
ghost use Rattle.pol_metaprint.specs.Json as json;

use crate::members::{none, with, with_number, with_optional_text, with_text};
use crate::texts::kind_text;
use pol_meta::{Column, Kind, Part};
use pol_metakeys::keys;
use pol_types::OutOfMemory;
use serde_json::Value;
use std::alloc::Global;

/// A column, and what its type is printed as.
#[derive(Drop)]
pub(crate) struct Tree<'a> {
    pub column: &'a Column,
    pub json: Value,
}

/// Takes the trees at the end that are deeper, the last one first.
fn take_inner<'a>(
    alloc: Global,
    trees: &mut Vec<Tree<'a>>,
    depth: u32,
) -> Result<Vec<Tree<'a>>, OutOfMemory>
    ensures inner { IfOk result (λ inner. shown inner.items ≡ spec.inner_of depth (trees_shown trees.old.items)) }
    ensures beside { OnOk result (trees_shown trees.new.items ≡ spec.beside_of depth (trees_shown trees.old.items)) }
{
    let mut inner = Vec::new(alloc);
    while is_deeper(trees.as_slice(), depth) {
        if let Some(tree) = trees.pop() {
            inner.push(tree)?;
        }
    }
    Ok(inner)
}

/// Whether the last tree is deeper.
fn is_deeper(trees: &[Tree], depth: u32) -> bool
    ensures { result ≡ spec.is_deeper depth (trees_shown trees.now) }
{
    match trees.last() {
        Some(tree) => tree.column.depth > depth,
        None => false,
    }
}

/// The trees of columns in preorder.
pub(crate) fn trees<'a>(alloc: Global, columns: &'a [Column]) -> Result<Vec<Tree<'a>>, OutOfMemory>
    ensures { IfOk result (λ trees. shown trees.items ≡ spec.trees_of columns.now) }
{
    let mut trees = Vec::new(alloc);
    let mut left = columns;
    while let Some((column, before)) = left.split_last() {
        grow(alloc, &mut trees, column)?;
        left = before;
    }
    trees.reverse();
    Ok(trees)
}

/// Puts a column before the others, with those in it that are deeper.
#[tactic(auto, unfolding(crate::specs::Columns::grown))]
fn grow<'a>(alloc: Global, trees: &mut Vec<Tree<'a>>, column: &'a Column) -> Result<(), OutOfMemory>
    ensures { OnOk result (trees_shown trees.new.items ≡ spec.grown column.now (trees_shown trees.old.items)) }
{
    let inner = take_inner(alloc, trees, column.depth)?;
    let json = kind_value(alloc, column.kind, inner)?;
    Ok(trees.push(Tree { column, json })?)
}

/// A type with the trees in it.
fn kind_value(alloc: Global, kind: Kind, inner: Vec<Tree>) -> Result<Value, OutOfMemory>
    ensures { IfOk result (λ value. view value ≡ spec.kind_json kind (shown inner.entry.items)) }
{
    match kind {
        Kind::Struct => struct_value(alloc, inner),
        Kind::List => list_value(alloc, inner),
        Kind::Map => map_value(alloc, inner),
        other => word_value(alloc, other),
    }
}

fn word_value(alloc: Global, kind: Kind) -> Result<Value, OutOfMemory>
    ensures { IfOk result (λ value. view value ≡ string (kind_text kind)) }
{
    let text = kind_text(alloc, kind)?;
    Ok(Value::try_from_str(alloc, text.as_str())?)
}

/// A struct with its fields.
#[tactic(auto, unfolding(crate::specs::Columns::struct_json))]
fn struct_value(alloc: Global, trees: Vec<Tree>) -> Result<Value, OutOfMemory>
    ensures { IfOk result (λ value. view value ≡ spec.struct_json (shown trees.entry.items)) }
{
    let fields = fields(alloc, trees)?;
    let members = with(alloc, none(alloc), keys::FIELDS, fields)?;
    let members = with_text(alloc, members, keys::TYPE, keys::STRUCT)?;
    Ok(Value::from(members))
}

/// The fields of a struct.
pub(crate) fn fields(alloc: Global, trees: Vec<Tree>) -> Result<Value, OutOfMemory>
    ensures { IfOk result (λ value. view value ≡ json.list_json spec.field_json (shown trees.entry.items)) }
{
    let mut values = Vec::with_capacity(alloc, trees.len())?;
    for tree in trees {
        values.push(field(alloc, tree)?)?;
    }
    Ok(Value::from(values))
}

/// A field of a struct.
#[tactic(auto, unfolding(crate::specs::Columns::field_json))]
fn field(alloc: Global, tree: Tree) -> Result<Value, OutOfMemory>
    ensures { IfOk result (λ value. view value ≡ spec.field_json (tree_of tree.entry)) }
{
    part_value(alloc, &tree.column.part, tree.column.id, tree.json)
}

fn part_value(alloc: Global, part: &Part, id: u32, json: Value) -> Result<Value, OutOfMemory>
    ensures { IfOk result (λ value. view value ≡ spec.part_json part.now id (view json)) }
{
    let Part::Field {
        name,
        required,
        doc,
    } = part
    else {
        return Ok(Value::Null);
    };
    let members = with_optional_text(alloc, none(alloc), keys::DOC, doc)?;
    let members = with_number(alloc, members, keys::ID, id as u64)?;
    let members = with_text(alloc, members, keys::NAME, name.as_str())?;
    let members = with(alloc, members, keys::REQUIRED, Value::from(*required))?;
    let members = with(alloc, members, keys::TYPE, json)?;
    Ok(Value::from(members))
}

fn is_required(part: &Part) -> bool
    ensures { result ≡ spec.is_required part.now }
{
    match part {
        Part::Field { required, .. } | Part::Element { required } | Part::Value { required } => {
            *required
        }
        Part::Key => true,
    }
}

/// A list with the column in it.
#[tactic(auto, unfolding(crate::specs::Columns::list_of))]
fn list_value(alloc: Global, trees: Vec<Tree>) -> Result<Value, OutOfMemory>
    ensures { IfOk result (λ value. view value ≡ spec.list_of (shown trees.entry.items)) }
{
    let mut trees = trees;
    if trees.len() != 1 {
        return Ok(Value::Null);
    }
    match trees.pop() {
        Some(element) => element_value(alloc, element),
        None => Ok(Value::Null),
    }
}

fn element_value(alloc: Global, element: Tree) -> Result<Value, OutOfMemory>
    ensures { IfOk result (λ value. view value ≡ spec.element_json (tree_of element.entry)) }
{
    let required = is_required(&element.column.part);
    let members = with(alloc, none(alloc), keys::ELEMENT, element.json)?;
    let members = with_number(alloc, members, keys::ELEMENT_ID, element.column.id as u64)?;
    let members = with(
        alloc,
        members,
        keys::ELEMENT_REQUIRED,
        Value::from(required),
    )?;
    let members = with_text(alloc, members, keys::TYPE, keys::LIST)?;
    Ok(Value::from(members))
}

/// A map with the two columns in it.
#[tactic(auto, unfolding(crate::specs::Columns::map_of))]
fn map_value(alloc: Global, trees: Vec<Tree>) -> Result<Value, OutOfMemory>
    ensures { IfOk result (λ value. view value ≡ spec.map_of (shown trees.entry.items)) }
{
    let mut trees = trees;
    if trees.len() != 2 {
        return Ok(Value::Null);
    }
    let Some(value) = trees.pop() else {
        return Ok(Value::Null);
    };
    match trees.pop() {
        Some(key) => pair_value(alloc, key, value),
        None => Ok(Value::Null),
    }
}

fn pair_value(alloc: Global, key: Tree, value: Tree) -> Result<Value, OutOfMemory>
    ensures { IfOk result (λ json. view json ≡ spec.pair_json (tree_of key.entry) (tree_of value.entry)) }
{
    let required = is_required(&value.column.part);
    let members = with(alloc, none(alloc), keys::KEY, key.json)?;
    let members = with_number(alloc, members, keys::KEY_ID, key.column.id as u64)?;
    let members = with(alloc, members, keys::VALUE, value.json)?;
    let members = with_number(alloc, members, keys::VALUE_ID, value.column.id as u64)?;
    let members = with(alloc, members, keys::VALUE_REQUIRED, Value::from(required))?;
    let members = with_text(alloc, members, keys::TYPE, keys::MAP)?;
    Ok(Value::from(members))
}

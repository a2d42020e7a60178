//! The words of a metadata.
ghost use Rattle.std.specs.Prelude.{◌≡◌, ◌++◌, IfOk, codes, decimal};
ghost use Rattle.pol_metaprint.specs.Texts as spec;

use pol_meta::{Direction, Kind, NullOrder, RefKind, Transform};
use pol_metakeys::keys;
use pol_types::{OutOfMemory, Text};
use std::alloc::Global;

pub(crate) fn transform_text(alloc: Global, transform: Transform) -> Result<Text, OutOfMemory>
    ensures { IfOk result (λ text. text ≡ spec.transform_text transform) }
{
    match transform {
        Transform::Identity => plain(alloc, "identity"),
        Transform::Void => plain(alloc, "void"),
        Transform::Year => plain(alloc, "year"),
        Transform::Month => plain(alloc, "month"),
        Transform::Day => plain(alloc, "day"),
        Transform::Hour => plain(alloc, "hour"),
        Transform::Bucket(buckets) => sized(alloc, "bucket", buckets),
        Transform::Truncate(width) => sized(alloc, "truncate", width),
    }
}

fn plain(alloc: Global, word: &str) -> Result<Text, OutOfMemory>
    ensures { IfOk result (λ text. text ≡ word.now) }
{
    Ok(Text::from(String::from_str(alloc, word)?))
}

fn sized(alloc: Global, word: &str, size: u32) -> Result<Text, OutOfMemory>
    ensures { IfOk result (λ text. text ≡ spec.sized_text word.now size) }
{
    Ok(Text::from(format!(in alloc; "{word}[{size}]")?))
}

pub(crate) fn direction_text(direction: Direction) -> &'static str
    ensures { result.now ≡ spec.direction_text direction }
{
    match direction {
        Direction::Asc => keys::ASC,
        Direction::Desc => keys::DESC,
    }
}

pub(crate) fn null_order_text(null_order: NullOrder) -> &'static str
    ensures { result.now ≡ spec.null_order_text null_order }
{
    match null_order {
        NullOrder::NullsFirst => keys::NULLS_FIRST,
        NullOrder::NullsLast => keys::NULLS_LAST,
    }
}

pub(crate) fn ref_kind_text(kind: RefKind) -> &'static str
    ensures { result.now ≡ spec.ref_kind_text kind }
{
    match kind {
        RefKind::Branch => keys::BRANCH,
        RefKind::Tag => keys::TAG,
    }
}

/// The word of a type; one with columns has the word that says which it is.
pub(crate) fn kind_text(alloc: Global, kind: Kind) -> Result<Text, OutOfMemory>
    ensures { IfOk result (λ text. text ≡ spec.kind_text kind) }
{
    match kind {
        Kind::Boolean => plain(alloc, "boolean"),
        Kind::Int => plain(alloc, "int"),
        Kind::Long => plain(alloc, "long"),
        Kind::Float => plain(alloc, "float"),
        Kind::Double => plain(alloc, "double"),
        Kind::Date => plain(alloc, "date"),
        Kind::Time => plain(alloc, "time"),
        Kind::Timestamp => plain(alloc, "timestamp"),
        Kind::Timestamptz => plain(alloc, "timestamptz"),
        Kind::String => plain(alloc, "string"),
        Kind::Uuid => plain(alloc, "uuid"),
        Kind::Binary => plain(alloc, "binary"),
        Kind::Decimal { precision, scale } => decimal(alloc, precision, scale),
        Kind::Fixed { length } => sized(alloc, "fixed", length),
        Kind::Struct => plain(alloc, keys::STRUCT),
        Kind::List => plain(alloc, keys::LIST),
        Kind::Map => plain(alloc, keys::MAP),
    }
}

fn decimal(alloc: Global, precision: u32, scale: u32) -> Result<Text, OutOfMemory>
    ensures { IfOk result (λ text. text
        ≡ codes "decimal(" ++ (decimal precision ++ (codes ", " ++ (decimal scale ++ codes ")")))) }
{
    Ok(Text::from(format!(in alloc; "decimal({precision}, {scale})")?))
}

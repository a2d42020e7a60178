//! The forms of names, namespaces, locations and properties.
ghost use Rattle.std.specs.Prelude.{◌≡◌, ◌++◌, OnOk, flat_map, ⊤};
ghost use Rattle.std.specs.List.{AllByRecursion};
ghost use Rattle.pol_forms.specs.Forms as forms;
ghost use Rattle.pol_forms.specs.Names as names;

use crate::lists::{read_list, write_list};
use crate::values::{read_text, write_text};
use crate::{CodecRefused, Coder, Common, Unread};
use pol_locations::{Location, LocationRefused};
use pol_names::{Name, NameRefused, Namespace, NamespaceRefused, Plain};
use pol_properties::{Properties, Property};
use pol_types::{OutOfMemory, Text};
use std::alloc::Global;

/// A text that is a plain name.
#[tactic(auto, using(crate::proofs::NameRules::plain_rules), unfolding(crate::specs::Names::plain))]
impl Coder<Plain> for Common {
    ghost form = { names.plain };

    ghost rule = { λ value. ⊤ };

    fn write(value: &Plain, written: &mut Vec<u8>) -> Result<(), OutOfMemory> {
        write_text(value.as_str(), written)
    }

    fn read(alloc: Global, unread: &mut Unread<'_>) -> Result<Plain, CodecRefused> {
        let text = read_text(alloc, unread)?;
        match Plain::new(alloc, text) {
            Ok(name) => Ok(name),
            Err(NameRefused::OutOfMemory) => Err(CodecRefused::OutOfMemory),
            Err(
                NameRefused::Empty
                | NameRefused::Long
                | NameRefused::ControlByte
                | NameRefused::NotPlain,
            ) => Err(CodecRefused::NoForm),
        }
    }
}

/// The list of its levels.
#[tactic(auto, using(crate::proofs::NameRules::namespace_rules), unfolding(crate::specs::Names::namespace))]
impl Coder<Namespace> for Common {
    ghost form = { names.namespace };

    ghost rule = { λ value. ⊤ };

    fn write(value: &Namespace, written: &mut Vec<u8>) -> Result<(), OutOfMemory> {
        write_levels(value.levels(), written)
    }

    fn read(alloc: Global, unread: &mut Unread<'_>) -> Result<Namespace, CodecRefused> {
        let levels = read_list::<Text, Common>(alloc, unread)?;
        match Namespace::from_levels(alloc, &levels) {
            Ok(namespace) => Ok(namespace),
            Err(NamespaceRefused::OutOfMemory) => Err(CodecRefused::OutOfMemory),
            Err(
                NamespaceRefused::TooDeep { .. }
                | NamespaceRefused::EmptyLevel { .. }
                | NamespaceRefused::LongLevel { .. }
                | NamespaceRefused::ControlByte { .. },
            ) => Err(CodecRefused::NoForm),
        }
    }
}

/// Writes the form of a list of levels.
#[tactic(auto, unfolding(crate::specs::Forms::list, crate::specs::Forms::number))]
fn write_levels(levels: &[Name], written: &mut Vec<u8>) -> Result<(), OutOfMemory>
    ensures bytes { OnOk result (written.new.items
        ≡ written.old.items ++ (forms.list forms.text).write levels.now) }
    ensures holds { OnOk result ((forms.list forms.text).holds levels.now) }
{
    let count = levels.len() as u64;
    Common::write(&count, written)?;
    write_each(levels, written)
}

/// Writes the text of each level.
fn write_each(levels: &[Name], written: &mut Vec<u8>) -> Result<(), OutOfMemory>
    ensures bytes { OnOk result (written.new.items
        ≡ written.old.items ++ flat_map forms.text.write levels.now) }
    ensures holds { OnOk result (AllByRecursion forms.text.holds levels.now) }
{
    for level in levels {
        write_text(level.as_str(), written)?;
    }
    Ok(())
}

/// The list of its segments.
#[tactic(auto, using(crate::proofs::NameRules::location_rules), unfolding(crate::specs::Names::location))]
impl Coder<Location> for Common {
    ghost form = { names.location };

    ghost rule = { λ value. ⊤ };

    fn write(value: &Location, written: &mut Vec<u8>) -> Result<(), OutOfMemory> {
        write_list::<Text, Common>(value.segments(), written)
    }

    fn read(alloc: Global, unread: &mut Unread<'_>) -> Result<Location, CodecRefused> {
        let segments = read_list::<Text, Common>(alloc, unread)?;
        match Location::of_segments(alloc, &segments) {
            Ok(location) => Ok(location),
            Err(LocationRefused::OutOfMemory) => Err(CodecRefused::OutOfMemory),
            Err(
                LocationRefused::BadScheme
                | LocationRefused::EmptySegment
                | LocationRefused::DotSegment
                | LocationRefused::ControlByte
                | LocationRefused::TooLong,
            ) => Err(CodecRefused::NoForm),
        }
    }
}

/// The key, and the text under it.
#[tactic(auto, unfolding(crate::specs::Names::property))]
impl Coder<Property> for Common {
    ghost form = { names.property };

    ghost rule = { λ value. ⊤ };

    fn write(value: &Property, written: &mut Vec<u8>) -> Result<(), OutOfMemory> {
        Common::write(&value.key, written)?;
        Common::write(&value.value, written)
    }

    fn read(alloc: Global, unread: &mut Unread<'_>) -> Result<Property, CodecRefused> {
        let key: Text = Common::read(alloc, unread)?;
        let value: Text = Common::read(alloc, unread)?;
        Ok(Property { key, value })
    }
}

/// The list of the pairs, whose keys ascend.
#[tactic(auto, using(crate::proofs::PropertyLemmas::property_rules), unfolding(crate::specs::Names::properties))]
impl Coder<Properties> for Common {
    ghost form = { names.properties };

    ghost rule = { λ value. ⊤ };

    fn write(value: &Properties, written: &mut Vec<u8>) -> Result<(), OutOfMemory> {
        write_list::<Property, Common>(value.iter().as_slice(), written)
    }

    fn read(alloc: Global, unread: &mut Unread<'_>) -> Result<Properties, CodecRefused> {
        let pairs = read_list::<Property, Common>(alloc, unread)?;
        if !keys_ascend(&pairs) {
            return Err(CodecRefused::NoForm);
        }
        Ok(Properties::of_pairs(alloc, pairs)?)
    }
}

/// Whether each key is below the next.
fn keys_ascend(pairs: &[Property]) -> bool
    ensures { result ≡ names.keys_ascend pairs.now }
{
    for i in 1..pairs.len() {
        if !is_below(&pairs[i - 1], &pairs[i]) {
            return false;
        }
    }
    true
}

fn is_below(left: &Property, right: &Property) -> bool
    ensures { result ≡ names.is_below left.now right.now }
{
    left.key < right.key
}

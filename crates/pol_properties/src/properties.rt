ghost use Rattle.std.specs.Prelude.{◌≡◌, ◌↔◌, [], length, filter, not, is_some, None, IsTrue, IfOk, IfErr, OnOk, OnErr, option_copied};
ghost use Rattle.std.specs.Cmp.{partial_equiv_from_equiv};
ghost use Rattle.std.specs.Cmp.Lexicographic.{lists_equiv, pointwise};
ghost use Rattle.std.specs.Slice.Iter.{iter_rest};
ghost use Rattle.pol_types.specs.Exact.{pointwise_exact};
ghost use Rattle.pol_properties.specs.Properties.{KeysAscend, IsAt, IsGap, in_byte_order, is_among, keys, missing_keys, of_pairs, pairs_updated, removed_keys, same_pair, same_pair_equiv, same_pair_exact, twice, value_of, with_value, without_key};

use crate::Property;
use pol_types::{Exact, Listed, OutOfMemory, Text};
use std::alloc::{AllocError, Global};
use std::marker::Model;
use std::slice;

/// Texts under keys, each key once. Contracts see the pairs, in byte order of their keys.
#[derive(Drop)]
pub struct Properties {
    pairs: Vec<Property>,
}

impl Model for Properties {
    ghost use Rattle.std.specs.Prelude.{List};
    ghost use Rattle.pol_properties.specs.declared.property.Property.{Property};
    ghost use Rattle.pol_properties.specs.Properties.{KeysAscend};

    ghost Value = { List Property };

    ghost view = { λ properties. properties.pairs.items };

    ghost invariant = { λ properties. KeysAscend properties.pairs.items };
}

impl Properties {
    /// No pairs, and no memory taken.
    pub fn new(alloc: Global) -> Self
        ensures { result ≡ [] }
    {
        Properties {
            pairs: Vec::new(alloc),
        }
    }

    /// Makes a map of pairs in any order. Of equal keys the last counts.
    pub fn of_pairs(alloc: Global, pairs: Vec<Property>) -> Result<Self, OutOfMemory>
        ensures { IfOk result (λ properties. properties ≡ of_pairs pairs.items) }
    {
        let mut properties = Properties::new(alloc);
        for pair in pairs {
            properties.set(pair)?;
        }
        Ok(properties)
    }

    /// The pairs, in byte order of their keys.
    pub fn iter(&self) -> slice::Iter<'_, Property>
        ensures pairs { iter_rest result ≡ self.now }
        ensures ascend { KeysAscend self.now }
    {
        self.pairs.iter()
    }

    pub fn len(&self) -> usize
        ensures { result ≡ length self.now }
    {
        self.pairs.len()
    }

    pub fn is_empty(&self) -> bool
        ensures { IsTrue result ↔ (self.now ≡ []) }
    {
        self.pairs.is_empty()
    }

    /// The text under this key.
    pub fn get(&self, key: &str) -> Option<&Text>
        ensures { option_copied result ≡ value_of key.now self.now }
    {
        match self.place_of(key) {
            Ok(place) => {
                let pair = &self.pairs[place];
                Some(&pair.value)
            }
            Err(_) => None,
        }
    }

    /// Whether there is a text under this key.
    pub fn contains(&self, key: &str) -> bool
        ensures { result ≡ is_some (value_of key.now self.now) }
    {
        self.get(key).is_some()
    }

    /// Puts a pair, and takes the place of one with the same key. It takes no memory where the key is there.
    pub fn set(&mut self, pair: Property) -> Result<(), OutOfMemory>
        ensures pairs { OnOk result (self.new ≡ with_value pair self.old) }
        ensures err { OnErr result (self.new ≡ self.old) }
        ensures absent { OnErr result (value_of pair.key self.old ≡ None) }
    {
        match self.place_of(pair.key.as_str()) {
            Ok(place) => {
                self.pairs[place] = pair;
                Ok(())
            }
            Err(place) => Ok(self.pairs.insert(place, pair)?),
        }
    }

    /// Takes the pair of this key away, and takes no memory.
    pub fn remove(&mut self, key: &str) -> Option<Text>
        ensures value { result ≡ value_of key.now self.old }
        ensures pairs { self.new ≡ without_key key.now self.old }
    {
        match self.place_of(key) {
            Ok(place) => Some(self.pairs.remove(place).value),
            Err(_) => None,
        }
    }

    /// The keys, in byte order.
    pub fn keys(&self, alloc: Global) -> Result<Listed<Text>, OutOfMemory>
        ensures { IfOk result (λ found. found ≡ keys self.now) }
    {
        let pairs = self.pairs.as_slice();
        let mut found = Vec::new(alloc);
        for pair in pairs {
            found.push(pair.key.clone()?)?;
        }
        Ok(Listed::from(found))
    }

    /// The keys that an update with these removals takes away, in byte order.
    pub fn removed_keys(
        &self,
        alloc: Global,
        removals: &[Text],
    ) -> Result<Listed<Text>, OutOfMemory>
        ensures { IfOk result (λ removed. removed ≡ removed_keys removals.now self.now) }
    {
        let pairs = self.pairs.as_slice();
        let mut removed = Vec::new(alloc);
        for pair in pairs {
            if is_among(removals, &pair.key) {
                removed.push(pair.key.clone()?)?;
            }
        }
        Ok(Listed::from(removed))
    }

    /// The removals that are no keys here, in byte order, each once.
    pub fn missing_keys(
        &self,
        alloc: Global,
        removals: &[Text],
    ) -> Result<Listed<Text>, OutOfMemory>
        ensures { IfOk result (λ missing. missing ≡ missing_keys removals.now self.now) }
    {
        let mut missing = Vec::new(alloc);
        for key in removals {
            if !self.contains(key.as_str()) {
                missing.push(key.clone()?)?;
            }
        }
        Ok(Listed::from(in_byte_order(missing)))
    }

    /// The pairs once each of the removals is removed and then each of the updates is set, as new properties.
    pub fn updated(
        &self,
        alloc: Global,
        removals: &[Text],
        updates: &Properties,
    ) -> Result<Properties, OutOfMemory>
        ensures { IfOk result (λ properties. properties ≡ pairs_updated removals.now updates.now self.now) }
    {
        let mut properties = self.without(alloc, removals)?;
        let pairs = updates.pairs.as_slice();
        for pair in pairs {
            properties.set(pair.clone()?)?;
        }
        Ok(properties)
    }

    /// The first of the removals that is a key here.
    pub fn first_among<'a>(&self, removals: &'a [Text]) -> Option<&'a Text>
        ensures { option_copied result ≡ twice removals.now self.now }
    {
        removals.iter().find(|key| self.contains(key.as_str()))
    }

    /// The pairs whose keys aren't among the removals, as new properties.
    fn without(&self, alloc: Global, removals: &[Text]) -> Result<Properties, OutOfMemory>
        ensures { IfOk result (λ properties. properties
            ≡ filter (λ pair. not (is_among removals.now pair.key)) self.now) }
    {
        let pairs = self.pairs.as_slice();
        let mut kept = Vec::new(alloc);
        for pair in pairs {
            if !is_among(removals, &pair.key) {
                kept.push(pair.clone()?)?;
            }
        }
        Ok(Properties { pairs: kept })
    }

    /// Where the pair of this key stands, or where it would.
    fn place_of(&self, key: &str) -> Result<usize, usize>
        ensures found { IfOk result (IsAt key.now self.now) }
        ensures absent { IfErr result (IsGap key.now self.now) }
    {
        self.pairs
            .binary_search_by(|pair| pair.key.as_str().cmp(key))
    }
}

impl Clone for Properties {
    ghost is_clone = { λ source clone. clone ≡ source };

    fn clone(&self) -> Result<Self, AllocError> {
        Ok(Properties {
            pairs: self.pairs.clone()?,
        })
    }
}

impl Exact for Properties {
    ghost clones_exactly = { λ source clone same. same };

    ghost compares_exactly = { pointwise_exact same_pair_exact };
}

impl PartialEq for Properties {
    ghost eq = { pointwise same_pair };

    ghost laws = { partial_equiv_from_equiv (lists_equiv same_pair_equiv) };

    fn eq(&self, other: &Self) -> bool {
        self.pairs.as_slice() == other.pairs.as_slice()
    }
}

impl Eq for Properties {
    ghost laws = { lists_equiv same_pair_equiv };
}

/// Whether a key is among these.
fn is_among(keys: &[Text], key: &Text) -> bool
    ensures { result ≡ is_among keys.now key.now }
{
    keys.contains(key)
}

/// The set of these keys, in byte order.
fn in_byte_order(keys: Vec<Text>) -> Vec<Text>
    ensures { result.items ≡ in_byte_order keys.items }
{
    let mut ordered = keys;
    ordered.sort_unstable();
    ordered.dedup();
    ordered
}

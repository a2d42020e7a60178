//! Properties that are made of pairs and set one by one, as no body of a request makes them.
ghost use Rattle.std.specs.Prelude.{◌≡◌, IfOk};

use pol_properties::{Properties, Property};
use pol_types::Text;
use std::alloc::{AllocError, Global};

type Pairs<'a> = &'a [(&'a str, &'a str)];

fn property(alloc: Global, key: &str, value: &str) -> Result<Property, AllocError>
    ensures { IfOk result (λ pair. pair ≡ record { key = key.now; value = value.now }) }
{
    Ok(Property {
        key: Text::from(String::from_str(alloc, key)?),
        value: Text::from(String::from_str(alloc, value)?),
    })
}

/// The properties of these pairs.
fn made(alloc: Global, pairs: Pairs<'_>) -> Option<Properties> {
    let mut list = Vec::new(alloc);
    for (key, value) in pairs {
        list.push(property(alloc, key, value).ok()?).ok()?;
    }
    Properties::of_pairs(alloc, list).ok()
}

/// Whether these are the pairs, in their order.
fn has_pairs(alloc: Global, properties: &Properties, pairs: Pairs<'_>) -> Option<bool> {
    let held: Vec<(&str, &str)> = properties
        .iter()
        .map(|pair| (pair.key.as_str(), pair.value.as_str()))
        .collect(alloc)
        .ok()?;
    Some(held.as_slice() == pairs && properties.len() == pairs.len())
}

/// Whether the properties of some pairs are these.
fn holds(alloc: Global, given: Pairs<'_>, held: Pairs<'_>) -> Option<bool> {
    let properties = made(alloc, given)?;
    let kept = has_pairs(alloc, &properties, held);
    drop(properties);
    kept
}

#[test]
fn of_equal_keys_the_last_counts_and_keys_ascend(rt: HostRuntime) {
    let cases: [(Pairs<'_>, Pairs<'_>); 4] = [
        (&[], &[]),
        (&[("a", "1"), ("a", "2")], &[("a", "2")]),
        (
            &[("ab", "1"), ("a", "2"), ("b", "3"), ("", "4"), ("ab", "5")],
            &[("", "4"), ("a", "2"), ("ab", "5"), ("b", "3")],
        ),
        (
            &[("é", "1"), ("z", "2"), ("Z", "3")],
            &[("Z", "3"), ("z", "2"), ("é", "1")],
        ),
    ];
    for (given, held) in cases {
        assert!(rt; holds(rt.alloc(), given, held) == Some(true));
    }
}

/// Sets a key anew and one more, and takes that one and one that isn't there.
fn change(alloc: Global, properties: &mut Properties) -> Option<bool> {
    properties.set(property(alloc, "owner", "bob").ok()?).ok()?;
    properties.set(property(alloc, "color", "red").ok()?).ok()?;
    let found = properties.contains("color") && properties.get("own").is_none();
    let taken = properties.remove("color").is_some() && properties.remove("own").is_none();
    Some(found && taken)
}

/// Whether properties that are changed so have these pairs.
fn changed_to(alloc: Global, given: Pairs<'_>, held: Pairs<'_>) -> Option<bool> {
    let mut properties = made(alloc, given)?;
    let changed = change(alloc, &mut properties);
    let kept = has_pairs(alloc, &properties, held);
    drop(properties);
    Some(changed? && kept?)
}

#[test]
fn keys_are_set_found_and_taken_away(rt: HostRuntime) {
    let given = [("owner", "ann"), ("zone", "eu")];
    let held = [("owner", "bob"), ("zone", "eu")];
    assert!(rt; changed_to(rt.alloc(), &given, &held) == Some(true));
}

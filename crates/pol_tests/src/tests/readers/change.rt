//! The form: a name, an object of texts, and a list of updates with words and numbers.
ghost use Rattle.std.specs.Prelude.{◌∷◌, [], codes, length, nat_le};
ghost use Rattle.pol_readers.specs.Shape as spec;
ghost use Rattle.pol_readers.specs.Shape.{◌>>=◌};

use pol_readers::{
    Entries, Form, OrMinusOne, Ranged, ReadError, Word, field, fixed, holds, object, one_of,
    optional, under_key,
};
use pol_types::{Listed, Text};
use serde_json::Value;
use std::alloc::Global;

/// What an update does.
#[derive(Clone, Copy, Debug, PartialEq, Eq)]
pub enum Action {
    Add,
    Remove,
}

impl Word for Action {
    ghost use Rattle.pol_tests.specs.declared.tests.readers.change.Action.TheVariants.{Add, Remove};

    ghost words = { (codes "add", Add) ∷ (codes "remove", Remove) ∷ [] };

    fn of_word(word: &str) -> Option<Self> {
        match word {
            "add" => Some(Action::Add),
            "remove" => Some(Action::Remove),
            _ => None,
        }
    }
}

impl Form for Action {
    ghost shape = { spec.one_of ⟦<Action as Word>⟧.words };

    fn read(alloc: Global, value: &Value) -> Result<Self, ReadError> {
        one_of(alloc, value)
    }
}

/// An update, of which a field is always the same word.
#[derive(Drop)]
pub struct Update {
    pub action: Action,
    pub snapshot: Ranged<1, 9_223_372_036_854_775_807>,
    pub schema: Option<OrMinusOne<Ranged<0, 2_147_483_647>>>,
}

impl Form for Update {
    ghost shape = { spec.an_object
        >>= (λ nothing. spec.field (codes "kind") (spec.fixed (codes "update"))
        >>= (λ nothing. spec.field (codes "action") ⟦<Action as Form>⟧.shape
        >>= (λ action. spec.field (codes "snapshot") (spec.whole_number 1 9223372036854775807)
        >>= (λ snapshot. spec.optional (codes "schema") (spec.or_minus_one (spec.whole_number 0 2147483647))
        >>= (λ schema. spec.done (record { action = action; snapshot = snapshot; schema = schema })))))) };

    fn read(alloc: Global, value: &Value) -> Result<Self, ReadError> {
        object(alloc, value)?;
        fixed(alloc, value, "kind", "update")?;
        let action = field(alloc, value, "action")?;
        let snapshot = field(alloc, value, "snapshot")?;
        let schema = optional(alloc, value, "schema")?;
        Ok(Update {
            action,
            snapshot,
            schema,
        })
    }
}

/// A change with updates of the form `U`, whose name isn't empty.
#[derive(Drop)]
pub struct Change<U> {
    pub name: Text,
    pub properties: Option<Entries<Text>>,
    pub updates: Listed<U>,
}

/// A body.
pub type Body = Change<Update>;

impl<U: Form> Form for Change<U> {
    ghost shape = { spec.an_object >>= (λ nothing. spec.field (codes "name") spec.text
        >>= (λ name. spec.holds_at (codes "name") (nat_le 1 (length name))
        >>= (λ nothing. spec.optional (codes "properties") (spec.entries spec.text)
        >>= (λ properties. spec.field (codes "updates") (spec.list U.shape)
        >>= (λ updates. spec.done (record { name = name; properties = properties; updates = updates })))))) };

    fn read(alloc: Global, value: &Value) -> Result<Self, ReadError> {
        object(alloc, value)?;
        let name: Text = field(alloc, value, "name")?;
        under_key(alloc, "name", holds(alloc, name.len() >= 1))?;
        let properties = optional(alloc, value, "properties")?;
        let updates = field(alloc, value, "updates")?;
        Ok(Change {
            name,
            properties,
            updates,
        })
    }
}

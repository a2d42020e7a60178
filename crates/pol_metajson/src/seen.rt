//! The ids of columns, while the columns are read.
ghost use Rattle.std.specs.Prelude.{◌≡◌, ◌++◌, ◌∷◌, [], true, not, IfOk};
ghost use Rattle.pol_metajson.specs.Schema.{is_seen};

use indexmap::IndexSet;
use pol_types::OutOfMemory;
use std::alloc::Global;
use std::marker::Model;

/// The ids of the columns that are read so far, in the order of the columns.
#[derive(Drop)]
pub(crate) struct Seen {
    ids: IndexSet<u32>,
}

impl Model for Seen {
    ghost use Rattle.std.specs.Prelude.{ℕ, List};

    ghost Value = { List ℕ };

    ghost view = { λ seen. seen.ids.keys };
}

impl Seen {
    /// No column is read.
    pub fn new(alloc: Global) -> Self
        ensures { result ≡ [] }
    {
        Seen {
            ids: IndexSet::new(alloc),
        }
    }

    /// Adds an id, and tells whether no column before has it.
    #[tactic(auto, using(crate::proofs::SeenLemmas::seen))]
    pub fn insert(&mut self, id: u32) -> Result<bool, OutOfMemory>
        ensures is_new { IfOk result (λ is_new. is_new ≡ not (is_seen self.old id)) }
        ensures pushed { IfOk result (λ is_new. is_new ≡ true → self.new ≡ self.old ++ id ∷ []) }
    {
        Ok(self.ids.insert(id)?)
    }
}

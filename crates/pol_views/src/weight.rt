ghost use Rattle.std.specs.Prelude.{◌≡◌, ◌<◌, ◌^◌, length, sum_by};
ghost use Rattle.pol_meta.specs.Weight.{capped};
ghost use Rattle.pol_views.specs.Weight.{representation_weight, version_weight, view_weight};

use crate::{Representation, ViewMetadata, ViewVersion};
use pol_meta::weight::{
    Weighs, nothing, of_all, of_items, of_optional, of_pairs, of_properties, of_text, plus,
};
use pol_names::Name;

impl ViewMetadata {
    /// The lengths of all texts of this metadata, and 64 for each field of a schema, entry of the log and property;
    /// 2^64 - 1 where the sum is above it.
    #[tactic(auto, unfolding(pol_meta::specs::Weight::capped))]
    pub fn weight(&self) -> u64
        ensures value { result ≡ capped (view_weight self.now) }
        ensures exact { view_weight self.now < 2 ^ 64 → result ≡ view_weight self.now }
    {
        of_view(self)
    }
}

fn of_view(meta: &ViewMetadata) -> u64
    ensures { result ≡ capped (view_weight meta.now) }
{
    let weight = plus(of_text(&meta.location), of_properties(&meta.properties));
    let weight = plus(weight, of_all(meta.schemas.as_slice()));
    let weight = plus(weight, of_items(meta.version_log.len()));
    plus(weight, of_all(meta.versions.as_slice()))
}

impl Weighs for Representation {
    ghost weight = { representation_weight };

    fn weight(&self) -> u64 {
        plus(of_text(&self.sql), of_text(&self.dialect))
    }
}

impl Weighs for ViewVersion {
    ghost weight = { version_weight };

    fn weight(&self) -> u64 {
        let weight = plus(
            of_pairs(&self.summary),
            of_all(self.representations.as_slice()),
        );
        let weight = plus(weight, of_optional(self.default_catalog.as_ref()));
        plus(weight, of_levels(self.default_namespace.levels()))
    }
}

/// The texts of the levels of a namespace.
fn of_levels(levels: &[Name]) -> u64
    ensures { result ≡ capped (sum_by length levels.now) }
{
    let mut weight = nothing();
    for level in levels {
        weight = plus(weight, of_level(level));
    }
    weight
}

#[tactic(auto, unfolding(pol_meta::specs::Weight::capped))]
fn of_level(level: &Name) -> u64
    ensures { result ≡ capped (length level.now) }
{
    level.as_str().len() as u64
}

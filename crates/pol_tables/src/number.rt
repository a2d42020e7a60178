ghost use Rattle.std.specs.Prelude.{◌≡◌};
ghost use Rattle.pol_tables.specs.Number.{number_of};

use std::hash::{DefaultHasher, Hash, Hasher};

/// The number of a name, under which an index finds what has the name: the name's hash by std's `DefaultHasher`
/// (SipHash-1-3). Names may share one.
pub fn number_of<N: Hash>(name: &N) -> u64
    ensures { result ≡ number_of (N.hash_input name.now) }
{
    let mut hasher = DefaultHasher::new();
    name.hash(&mut hasher);
    hasher.finish()
}

ghost use Rattle.std.specs.Prelude.{◌≡◌, ◌≤◌, ◌<◌, ◌↔◌, List, ℕ, ◌∷◌, ◌++◌, [], length, take, map, string_bytes, nat_eq, IsTrue, IfOk, IfErr, OnOk, Some};
ghost use Rattle.std.specs.Hash as fed;
ghost use Rattle.std.specs.Hash.{same_Alike};
ghost use Rattle.std.specs.Cmp.{partial_equiv_from_equiv};
ghost use Rattle.std.specs.Cmp.Lexicographic.{bytes_decides, lists_equiv, nat_list_eq_equiv, pointwise, pointwise_decides};
ghost use Rattle.std.proofs.Common.{rules};
ghost use Rattle.pol_types.specs.Exact.{exactness};
ghost use Rattle.pol_names.specs.Name.{IsName, name_refusal};
ghost use Rattle.pol_names.specs.Namespace.{IsNamespace, IsNamespaceRefusal, RefusesDepth, RefusesLevel, at_level, dotted, levels_of, parent_of, segment_of, texts};
ghost use Rattle.pol_names.specs.declared.namespace.NamespaceRefused.TheVariants.{OutOfMemory};

use crate::joined::Joined;
use crate::{Name, NameRefused};
use pol_types::{Exact, Listed, OutOfMemory, Text};
use std::alloc::{AllocError, AllocFailed, Global};
use std::error::Error;
use std::fmt;
use std::hash::{Hash, Hasher};
use std::marker::Model;

/// The most levels that a namespace has.
const MAX_LEVELS: usize = 16;

/// The byte between the levels of a namespace in a segment of a path (Iceberg REST OpenAPI, parameter
/// `namespace`), sent as `%1F`.
const SEPARATOR: char = '\u{1f}';

/// Why a list of levels is no namespace. `TooDeep` has the number of levels, which is 0 or over 16; it comes before
/// all others, which are the refusal of the first bad level, with its place from 0.
#[derive(Clone, Copy, Debug, PartialEq, Eq)]
pub enum NamespaceRefused {
    TooDeep { levels: usize },
    EmptyLevel { level: usize },
    LongLevel { level: usize },
    ControlByte { level: usize },
    OutOfMemory,
}

impl NamespaceRefused {
    /// The refusal of a name that is the level at a place.
    fn at_level(level: usize, why: NameRefused) -> Self
        ensures { result ≡ at_level level why }
    {
        match why {
            NameRefused::Empty => NamespaceRefused::EmptyLevel { level },
            NameRefused::Long => NamespaceRefused::LongLevel { level },
            NameRefused::ControlByte | NameRefused::NotPlain => {
                NamespaceRefused::ControlByte { level }
            }
            NameRefused::OutOfMemory => NamespaceRefused::OutOfMemory,
        }
    }
}

impl fmt::Display for NamespaceRefused {
    ghost use Rattle.pol_names.specs.Namespace.{namespace_refusal_text};

    ghost output = { λ why. Some (namespace_refusal_text why) };

    fn fmt<W: fmt::Write>(&self, f: &mut fmt::Formatter<W>) -> fmt::Result {
        match self {
            NamespaceRefused::TooDeep { levels } => {
                write!(f, "a namespace has 1 to 16 levels, and this has {levels}")
            }
            NamespaceRefused::EmptyLevel { level } => write!(f, "level {level} is empty"),
            NamespaceRefused::LongLevel { level } => {
                write!(f, "level {level} has more than 128 bytes")
            }
            NamespaceRefused::ControlByte { level } => {
                write!(f, "level {level} has a control byte")
            }
            NamespaceRefused::OutOfMemory => f.write_str("out of memory"),
        }
    }
}

impl Error for NamespaceRefused {}

impl From<AllocError> for NamespaceRefused {
    ghost from_gives = { λ _ why. why ≡ OutOfMemory };

    fn from(_error: AllocError) -> Self {
        NamespaceRefused::OutOfMemory
    }
}

impl<T: Drop> From<AllocFailed<T>> for NamespaceRefused {
    ghost from_gives = { λ _ why. why ≡ OutOfMemory };

    fn from(_error: AllocFailed<T>) -> Self {
        NamespaceRefused::OutOfMemory
    }
}

/// A namespace: 1 to 16 levels, each a name. Contracts see it as the list of its levels' bytes. Namespaces compare
/// level by level, a proper prefix first. A namespace prints as its levels with dots between them.
#[derive(Clone, Drop, Eq, PartialOrd, Ord)]
pub struct Namespace {
    levels: Listed<Name>,
}

impl Model for Namespace {
    ghost Value = { List (List ℕ) };

    ghost view = { λ namespace. namespace.levels };

    ghost invariant = { λ namespace. IsNamespace namespace.levels };

    ghost inverse = { λ levels. record { levels = levels } };
}

impl PartialEq for Namespace {
    ghost eq = { pointwise (pointwise nat_eq) };

    ghost laws = { partial_equiv_from_equiv (lists_equiv nat_list_eq_equiv) };

    fn eq(&self, other: &Self) -> bool {
        self.levels == other.levels
    }
}

impl Hash for Namespace {
    ghost hash_input = { fed.slice ⟦<Name as Hash>⟧.hash_input };

    ghost respects_eq = { (same_Alike (fed.slice ⟦<Name as Hash>⟧.hash_input) (pointwise_decides bytes_decides)).fed };

    fn hash<H: Hasher>(&self, state: &mut H) {
        self.levels.hash(state);
    }
}

impl Exact for Namespace {
    ghost clones_exactly = { Prim.search rules };

    ghost compares_exactly = { Prim.grind exactness };
}

impl Namespace {
    /// Reads the segment of a path, whose percent signs are decoded already. An empty segment is one empty level.
    pub fn from_segment(alloc: Global, text: &str) -> Result<Self, NamespaceRefused>
        ensures value { IfOk result (λ namespace. namespace ≡ levels_of text.now) }
        ensures named { OnOk result (IsNamespace (levels_of text.now)) }
        ensures refused { IfErr result (IsNamespaceRefusal (levels_of text.now)) }
    {
        let levels = split_levels(alloc, text)?;
        read_levels(alloc, levels.as_slice())
    }

    /// Reads a list of levels. 0x1F in a level is a control byte.
    pub fn from_levels(alloc: Global, levels: &[Text]) -> Result<Self, NamespaceRefused>
        ensures value { IfOk result (λ namespace. namespace ≡ levels.now) }
        ensures named { OnOk result (IsNamespace levels.now) }
        ensures refused { IfErr result (IsNamespaceRefusal levels.now) }
    {
        let levels = lent_levels(alloc, levels)?;
        read_levels(alloc, levels.as_slice())
    }

    pub fn levels(&self) -> &[Name]
        ensures value { result.now ≡ self.now }
        ensures named { IsNamespace self.now }
    {
        self.levels.as_slice()
    }

    /// The segment of a path that stands for this namespace; `from_segment` gives the namespace back.
    pub fn segment(&self, alloc: Global) -> Result<String, OutOfMemory>
        ensures { IfOk result (λ segment. string_bytes segment ≡ segment_of self.now) }
    {
        let names = self.levels();
        Ok(Joined {
            names,
            separator: SEPARATOR,
        }
        .to_string(alloc)?)
    }

    /// The namespace of the first `depth` levels.
    pub fn ancestor(&self, alloc: Global, depth: usize) -> Result<Namespace, OutOfMemory>
        requires { (0 < depth) × (depth ≤ length self.now) }
        ensures { IfOk result (λ ancestor. ancestor ≡ take depth self.now) }
    {
        let levels = Vec::from_clones(alloc, &self.levels.as_slice()[..depth])?;
        Ok(Namespace {
            levels: Listed::from(levels),
        })
    }

    /// The namespace of all levels but the last, or `None` where there is but one.
    pub fn parent(&self, alloc: Global) -> Result<Option<Namespace>, OutOfMemory>
        ensures { IfOk result (λ parent. parent ≡ parent_of self.now) }
    {
        let depth = self.levels.len() - 1;
        if depth == 0 {
            return Ok(None);
        }
        Ok(Some(self.ancestor(alloc, depth)?))
    }

    /// Whether the other namespace has the levels of this one and one more.
    pub fn is_parent_of(&self, other: &Namespace) -> bool
        ensures { IsTrue result ↔ (parent_of other.now ≡ Some self.now) }
    {
        other.levels.len() == self.levels.len() + 1
            && other.levels.as_slice().starts_with(self.levels.as_slice())
    }
}

impl fmt::Display for Namespace {
    ghost output = { λ levels. Some (dotted levels) };

    fn fmt<W: fmt::Write>(&self, f: &mut fmt::Formatter<W>) -> fmt::Result {
        let joined = Joined {
            names: self.levels(),
            separator: '.',
        };
        write!(f, "{joined}")
    }
}

fn split_levels(alloc: Global, segment: &str) -> Result<Vec<&str>, AllocError>
    ensures { IfOk result (λ levels. texts levels.items ≡ levels_of segment.now) }
{
    segment.split(SEPARATOR).collect(alloc)
}

fn lent_levels(alloc: Global, levels: &[Text]) -> Result<Vec<&str>, AllocError>
    ensures { IfOk result (λ lent. texts lent.items ≡ levels.now) }
{
    levels.iter().map(|level| level.as_str()).collect(alloc)
}

/// Reads levels in turn, of which contracts see the bytes.
fn read_levels(alloc: Global, levels: &[&str]) -> Result<Namespace, NamespaceRefused>
    ensures value { IfOk result (λ namespace. namespace ≡ texts levels.now) }
    ensures named { OnOk result (IsNamespace (texts levels.now)) }
    ensures refused { IfErr result (IsNamespaceRefusal (texts levels.now)) }
{
    judge_depth(levels.len())?;
    let mut names = Vec::with_capacity(alloc, levels.len())?;
    for level in levels {
        read_level(alloc, &mut names, level)?;
    }
    Ok(Namespace {
        levels: Listed::from(names),
    })
}

/// Tells whether a namespace may have so many levels.
fn judge_depth(count: usize) -> Result<(), NamespaceRefused>
    ensures bounded { OnOk result ((0 < count) × (count ≤ 16)) }
    ensures refused { IfErr result (RefusesDepth count) }
{
    if count == 0 || count > MAX_LEVELS {
        return Err(NamespaceRefused::TooDeep { levels: count });
    }
    Ok(())
}

/// Reads the level behind the names that were read.
fn read_level(alloc: Global, names: &mut Vec<Name>, level: &str) -> Result<(), NamespaceRefused>
    ensures read { OnOk result (names.new.items ≡ names.old.items ++ level.now ∷ []) }
    ensures named { OnOk result (IsName level.now) }
    ensures refused { IfErr result (RefusesLevel names.old.items level.now) }
{
    let name = match Name::new(alloc, level) {
        Ok(name) => name,
        Err(why) => return Err(NamespaceRefused::at_level(names.len(), why)),
    };
    names.push(name)?;
    Ok(())
}

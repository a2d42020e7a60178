ghost use Rattle.std.specs.Prelude.{◌≡◌, ◌≤◌, ◌<◌, ◌↔◌, ◌==◌, ◌||◌, codes, None, List, ℕ, ◌∷◌, ◌++◌, [], drop, false, length, nat_eq, string_bytes, true, IsTrue, IfOk, IfErr, MatchOption, OnOk, Some};
ghost use Rattle.std.specs.Cmp.{partial_equiv_from_equiv};
ghost use Rattle.std.specs.Cmp.Lexicographic.{bytes_decides, lists_equiv, nat_list_eq_equiv, pointwise, pointwise_decides};
ghost use Rattle.std.specs.Hash as fed;
ghost use Rattle.std.specs.Hash.{same_Alike};
ghost use Rattle.std.specs.List.{join_with_byte, list_all, slice_split, starts_with};
ghost use Rattle.std.proofs.Common.{rules};
ghost use Rattle.pol_types.specs.Exact.{exactness};
ghost use Rattle.pol_locations.specs.Location.{Covers, IsLocation, IsLocationRefusal, IsParseRefusal, IsSegment, IsSegmentRefusal, Overlaps, RefusesSegment, is_cover, is_overlap, is_segment_byte, location_refusal, location_text, parse_refusal, parts, scheme, segment_refusal, segments_of, texts, trimmed};

use crate::LocationRefused;
use pol_types::{Exact, Listed, OutOfMemory, Text};
use std::alloc::{AllocError, Global};
use std::fmt;
use std::hash::{Hash, Hasher};
use std::marker::Model;

/// What the text of each location begins with.
const SCHEME: &str = "lake://";

/// The most bytes that the text of a location has.
const MAX_LENGTH: usize = 1024;

/// A location: one or more segments, of which contracts see the bytes. Its text is `lake://` and the segments with
/// `/` between them, and has at most 1,024 bytes. A segment has at least one byte, no `/`, no byte below 0x20 and no
/// 0x7F, and is neither `.` nor `..`. Locations compare segment by segment, a proper prefix first, and print as
/// their text.
#[derive(Clone, Drop, Eq, PartialOrd, Ord)]
pub struct Location {
    segments: Listed<Text>,
}

impl Model for Location {
    ghost Value = { List (List ℕ) };

    ghost view = { λ location. location.segments };

    ghost invariant = { λ location. IsLocation location.segments };

    ghost inverse = { λ segments. record { segments = segments } };
}

impl PartialEq for Location {
    ghost eq = { pointwise (pointwise nat_eq) };

    ghost laws = { partial_equiv_from_equiv (lists_equiv nat_list_eq_equiv) };

    fn eq(&self, other: &Self) -> bool {
        self.segments == other.segments
    }
}

impl Hash for Location {
    ghost hash_input = { fed.slice ⟦<Text as Hash>⟧.hash_input };

    ghost respects_eq = { (same_Alike (fed.slice ⟦<Text as Hash>⟧.hash_input) (pointwise_decides bytes_decides)).fed };

    fn hash<H: Hasher>(&self, state: &mut H) {
        self.segments.hash(state);
    }
}

impl Exact for Location {
    ghost clones_exactly = { Prim.search rules };

    ghost compares_exactly = { Prim.grind exactness };
}

impl Location {
    /// Reads the text of a location. One `/` at the end of what follows `lake://` is dropped, and the bytes are
    /// counted after that.
    pub fn parse(alloc: Global, text: &str) -> Result<Self, LocationRefused>
        ensures value { IfOk result (λ location. location ≡ segments_of text.now) }
        ensures located { OnOk result (IsLocation (segments_of text.now)) }
        ensures passes { OnOk result (parse_refusal text.now ≡ None) }
        ensures refused { IfErr result (IsParseRefusal text.now) }
    {
        let Some(path) = path_of(text) else {
            return Err(unschemed(text));
        };
        read_path(alloc, without_slash(path))
    }

    /// Makes a location of its segments.
    pub fn of_segments(alloc: Global, segments: &[Text]) -> Result<Self, LocationRefused>
        ensures value { IfOk result (λ location. location ≡ segments.now) }
        ensures located { OnOk result (IsLocation segments.now) }
        ensures refused { IfErr result (IsLocationRefusal segments.now) }
    {
        let segments = lent_segments(alloc, segments)?;
        of_lent(alloc, segments.as_slice())
    }

    /// The location with one more segment.
    pub fn join(&self, alloc: Global, segment: &str) -> Result<Self, LocationRefused>
        ensures value { IfOk result (λ location. location ≡ self.now ++ segment.now ∷ []) }
        ensures located { OnOk result (IsLocation (self.now ++ segment.now ∷ [])) }
        ensures refused { IfErr result (IsLocationRefusal (self.now ++ segment.now ∷ [])) }
    {
        let segments = lent_and_one(alloc, self.segments.as_slice(), segment)?;
        of_lent(alloc, segments.as_slice())
    }

    /// The text of this location; `parse` gives the location back.
    pub fn text(&self, alloc: Global) -> Result<String, OutOfMemory>
        ensures { IfOk result (λ text. string_bytes text ≡ location_text self.now) }
    {
        Ok(self.to_string(alloc)?)
    }

    pub fn segments(&self) -> &[Text]
        ensures value { result.now ≡ self.now }
        ensures located { IsLocation self.now }
    {
        self.segments.as_slice()
    }
}

impl fmt::Display for Location {
    ghost output = { λ segments. Some (location_text segments) };

    fn fmt<W: fmt::Write>(&self, f: &mut fmt::Formatter<W>) -> fmt::Result {
        let path = Path {
            segments: self.segments(),
        };
        write!(f, "lake://{path}")
    }
}

/// Segments with `/` between them.
#[derive(Drop)]
struct Path<'a> {
    segments: &'a [Text],
}

impl fmt::Display for Path<'_> {
    ghost output = { λ path. Some (join_with_byte 0x2F path.segments.now) };

    fn fmt<W: fmt::Write>(&self, f: &mut fmt::Formatter<W>) -> fmt::Result {
        let Some((first, others)) = self.segments.split_first() else {
            return Ok(());
        };
        write!(f, "{first}")?;
        for segment in others {
            write!(f, "/{segment}")?;
        }
        Ok(())
    }
}

/// Whether the segments of `a` are a prefix of those of `b`.
pub fn covers(a: &Location, b: &Location) -> bool
    ensures test { result ≡ is_cover a.now b.now }
    ensures covers { IsTrue result ↔ Covers a.now b.now }
{
    b.segments.as_slice().starts_with(a.segments.as_slice())
}

/// Whether one of the two covers the other.
pub fn overlaps(a: &Location, b: &Location) -> bool
    ensures test { result ≡ is_overlap a.now b.now }
    ensures overlaps { IsTrue result ↔ Overlaps a.now b.now }
{
    covers(a, b) || covers(b, a)
}

/// What follows the scheme.
fn path_of(text: &str) -> Option<&str>
    ensures { MatchOption result (starts_with nat_eq text.now scheme ≡ false) (λ path.
        (starts_with nat_eq text.now scheme ≡ true) × (path.now ≡ drop 7 text.now)) }
{
    text.strip_prefix(SCHEME)
}

/// The refusal of a text without the scheme.
#[tactic(auto, unfolding(crate::specs::Location::parse_refusal))]
fn unschemed(text: &str) -> LocationRefused
    requires { starts_with nat_eq text.now scheme ≡ false }
    ensures { IsParseRefusal text.now result }
{
    if text.len() > MAX_LENGTH {
        LocationRefused::TooLong
    } else {
        LocationRefused::BadScheme
    }
}

fn without_slash(path: &str) -> &str
    ensures { result.now ≡ trimmed path.now }
{
    match path.strip_suffix('/') {
        Some(front) => front,
        None => path,
    }
}

/// Reads what stands between the scheme and the one `/` that may end a text.
fn read_path(alloc: Global, path: &str) -> Result<Location, LocationRefused>
    ensures value { IfOk result (λ location. location ≡ parts path.now) }
    ensures located { OnOk result (IsLocation (parts path.now)) }
    ensures refused { IfErr result (IsLocationRefusal (parts path.now)) }
{
    if path.len() > MAX_LENGTH - SCHEME.len() {
        return Err(LocationRefused::TooLong);
    }
    let segments = split_path(alloc, path)?;
    read_segments(alloc, segments.as_slice())
}

fn split_path(alloc: Global, path: &str) -> Result<Vec<&str>, AllocError>
    ensures { IfOk result (λ segments. texts segments.items ≡ slice_split (λ byte. byte == 0x2F) path.now) }
{
    path.split('/').collect(alloc)
}

fn lent_segments(alloc: Global, segments: &[Text]) -> Result<Vec<&str>, AllocError>
    ensures { IfOk result (λ lent. texts lent.items ≡ segments.now) }
{
    segments
        .iter()
        .map(|segment| segment.as_str())
        .collect(alloc)
}

fn lent_and_one<'a>(
    alloc: Global,
    segments: &'a [Text],
    last: &'a str,
) -> Result<Vec<&'a str>, AllocError>
    ensures { IfOk result (λ lent. texts lent.items ≡ segments.now ++ last.now ∷ []) }
{
    let mut lent = lent_segments(alloc, segments)?;
    lent.push(last)?;
    Ok(lent)
}

/// Makes a location of segments, of which contracts see the bytes.
fn of_lent(alloc: Global, segments: &[&str]) -> Result<Location, LocationRefused>
    ensures value { IfOk result (λ location. location ≡ texts segments.now) }
    ensures located { OnOk result (IsLocation (texts segments.now)) }
    ensures refused { IfErr result (IsLocationRefusal (texts segments.now)) }
{
    if is_too_long(segments) {
        return Err(LocationRefused::TooLong);
    }
    read_segments(alloc, segments)
}

/// Whether the text of these segments has more bytes than that of a location.
fn is_too_long(segments: &[&str]) -> bool
    ensures { IsTrue result ↔ (1024 < length (location_text (texts segments.now))) }
{
    let mut length = SCHEME.len() - 1;
    for segment in segments {
        if segment.len() >= MAX_LENGTH - length {
            return true;
        }
        length += segment.len() + 1;
    }
    false
}

/// Reads the segments of a text that is not too long.
fn read_segments(alloc: Global, segments: &[&str]) -> Result<Location, LocationRefused>
    requires { length (location_text (texts segments.now)) ≤ 1024 }
    ensures value { IfOk result (λ location. location ≡ texts segments.now) }
    ensures located { OnOk result (IsLocation (texts segments.now)) }
    ensures refused { IfErr result (IsLocationRefusal (texts segments.now)) }
{
    if segments.is_empty() {
        return Err(LocationRefused::EmptySegment);
    }
    let mut read = Vec::with_capacity(alloc, segments.len())?;
    for segment in segments {
        read_segment(alloc, &mut read, segment)?;
    }
    Ok(Location {
        segments: Listed::from(read),
    })
}

/// Reads the segment behind those that were read.
fn read_segment(
    alloc: Global,
    segments: &mut Vec<Text>,
    segment: &str,
) -> Result<(), LocationRefused>
    ensures read { OnOk result (segments.new.items ≡ segments.old.items ++ segment.now ∷ []) }
    ensures segmented { OnOk result (IsSegment segment.now) }
    ensures refused { IfErr result (RefusesSegment segments.old.items segment.now) }
{
    judge(segment)?;
    segments.push(Text::from(String::from_str(alloc, segment)?))?;
    Ok(())
}

#[tactic(auto, unfolding(crate::specs::Location::segment_refusal))]
fn judge(segment: &str) -> Result<(), LocationRefused>
    ensures segmented { OnOk result (IsSegment segment.now) }
    ensures refused { IfErr result (IsSegmentRefusal segment.now) }
{
    if segment.is_empty() {
        return Err(LocationRefused::EmptySegment);
    }
    if is_dots(segment) {
        return Err(LocationRefused::DotSegment);
    }
    if !has_segment_bytes(segment) {
        return Err(LocationRefused::ControlByte);
    }
    Ok(())
}

fn is_dots(segment: &str) -> bool
    ensures { result ≡ (pointwise nat_eq segment.now (codes ".") || pointwise nat_eq segment.now (codes "..")) }
{
    segment == "." || segment == ".."
}

fn has_segment_bytes(segment: &str) -> bool
    ensures { result ≡ list_all is_segment_byte segment.now }
{
    segment
        .as_bytes()
        .iter()
        .all(|byte| *byte >= 0x20 && *byte != 0x7F && *byte != b'/')
}

ghost use Rattle.std.specs.Prelude.{◌≡◌, ◌++◌, [], ℕ, map, IfOk, OnOk, OnErr, None, List, is_some, length, option_map};
ghost use Rattle.pol_blocks.specs.Blocks.{flat};
ghost use Rattle.pol_locations.specs.Location.{IsLocation, location_text, parse_refusal, segments_of};
ghost use Rattle.pol_objects.specs.Entries.{IsRising, bytes_under};
ghost use Rattle.pol_objects.specs.Objects.{IsKept, IsKey, object_at, object_with, path_of, paths_behind, paths_under, total_length, with_object, without_object};

use crate::entries;
use crate::entry::Entry;
use pol_blocks::Blocks;
use pol_locations::{Location, LocationRefused};
use pol_shared_bytes::SharedBytes;
use pol_types::{Listed, OutOfMemory, Text};
use std::alloc::Global;
use std::marker::Model;

/// A finite map from locations to bytes, which are kept under the texts of their paths. Contracts see the objects in
/// byte order of these texts.
#[derive(Drop)]
pub struct ObjectMap {
    by_text: Blocks<Entry>,
}

impl Model for ObjectMap {
    ghost use Rattle.std.specs.Prelude.{List};
    ghost use Rattle.pol_blocks.specs.Blocks.{flat};
    ghost use Rattle.pol_objects.specs.Objects.{IsKept, Object, kept_objects};

    ghost Value = { List Object };

    ghost view = { λ map. kept_objects (flat map.by_text) };

    ghost invariant = { λ map. IsKept (flat map.by_text) };
}

impl ObjectMap {
    pub fn new(alloc: Global) -> Self
        ensures { result ≡ [] }
    {
        ObjectMap {
            by_text: Blocks::new(alloc),
        }
    }

    /// The bytes of the object at this path. They have one owner more, so the map changes, and not what it has.
    pub fn get(
        &mut self,
        alloc: Global,
        path: &Location,
    ) -> Result<Option<SharedBytes>, OutOfMemory>
        ensures found { IfOk result (λ found. option_map (object_with path.now) found ≡ object_at self.old path.now) }
        ensures kept { self.new ≡ self.old }
    {
        let text = text_of(alloc, path)?;
        entries::share(&mut self.by_text, alloc, text.as_bytes())
    }

    /// Whether there is an object at this path.
    pub fn contains(&self, alloc: Global, path: &Location) -> Result<bool, OutOfMemory>
        ensures { IfOk result (λ there. there ≡ is_some (object_at self.now path.now)) }
    {
        let text = text_of(alloc, path)?;
        Ok(entries::contains(&self.by_text, text.as_bytes()))
    }

    /// How many bytes the object at this path has.
    pub fn length(&self, alloc: Global, path: &Location) -> Result<Option<usize>, OutOfMemory>
        ensures { IfOk result (λ found. found
            ≡ option_map (λ object. length object.bytes) (object_at self.now path.now)) }
    {
        let text = text_of(alloc, path)?;
        Ok(entries::length(&self.by_text, text.as_bytes()))
    }

    /// Adds an object at a new path. Where there is no memory for it, the objects stay.
    pub fn insert(
        &mut self,
        alloc: Global,
        path: &Location,
        bytes: SharedBytes,
    ) -> Result<(), OutOfMemory>
        requires new { object_at self.old path.now ≡ None }
        ensures added { OnOk result (self.new ≡ with_object (object_with path.now bytes) self.old) }
        ensures error { OnErr result (self.new ≡ self.old) }
    {
        let text = text_of(alloc, path)?;
        let entry = Entry::new(alloc, &text, bytes)?;
        entries::insert(&mut self.by_text, alloc, entry)?;
        Ok(())
    }

    /// The text under which an object of this path is kept.
    pub fn key(alloc: Global, path: &Location) -> Result<Text, OutOfMemory>
        ensures { IfOk result (λ key. key ≡ location_text path.now) }
    {
        text_of(alloc, path)
    }

    /// Takes the object whose path has this text away, and tells whether there was one. It takes no memory.
    pub fn take(&mut self, key: &Text) -> bool
        requires { IsKey key.now }
        ensures taken { (path : List (List ℕ)) → IsLocation path → key.now ≡ location_text path
            → result ≡ is_some (object_at self.old path) }
        ensures without { (path : List (List ℕ)) → key.now ≡ location_text path
            → self.new ≡ without_object path self.old }
    {
        entries::remove(&mut self.by_text, key.as_bytes())
    }

    /// Takes the object at this path away, and tells whether there was one. Where there is no memory to look for it,
    /// the objects stay.
    pub fn remove(&mut self, alloc: Global, path: &Location) -> Result<bool, OutOfMemory>
        ensures taken { IfOk result (λ taken. taken ≡ is_some (object_at self.old path.now)) }
        ensures without { OnOk result (self.new ≡ without_object path.now self.old) }
        ensures error { OnErr result (self.new ≡ self.old) }
    {
        let key = text_of(alloc, path)?;
        Ok(self.take(&key))
    }

    /// The paths of the objects that this path covers, in byte order of their texts. Only these are looked at, and read
    /// of their texts.
    pub fn paths_under(
        &self,
        alloc: Global,
        path: &Location,
    ) -> Result<Listed<Location>, OutOfMemory>
        ensures { IfOk result (λ paths. paths ≡ paths_under self.now path.now) }
    {
        let text = text_of(alloc, path)?;
        let mut paths = Vec::new(alloc);
        push_at(&mut paths, &self.by_text, path, &text)?;
        push_below(&mut paths, &self.by_text, alloc, &text)?;
        Ok(Listed::from(paths))
    }

    /// How many bytes the objects have together. It is `OutOfMemory` where they are more than a number of 64 bits
    /// tells, which no memory holds.
    pub fn total_length(&self) -> Result<u64, OutOfMemory>
        ensures { IfOk result (λ total. total ≡ total_length self.now) }
    {
        entries::total_length(&self.by_text)
    }
}

/// The text of a path.
fn text_of(alloc: Global, path: &Location) -> Result<Text, OutOfMemory>
    ensures text { IfOk result (λ text. text ≡ location_text path.now) }
    ensures located { IsLocation path.now }
{
    path.segments();
    Ok(Text::from(path.text(alloc)?))
}

/// Pushes this path, whose text this is, if there is an object at it.
fn push_at(
    paths: &mut Vec<Location>,
    by_text: &Blocks<Entry>,
    path: &Location,
    text: &Text,
) -> Result<(), OutOfMemory>
    requires { IsRising (flat by_text.now) }
    ensures { OnOk result (paths.new.items
        ≡ paths.old.items ++ path_of path.now (bytes_under (flat by_text.now) text.now)) }
{
    if entries::contains(by_text, text.as_bytes()) {
        paths.push(path.clone()?)?;
    }
    Ok(())
}

/// Pushes the paths of the objects whose texts go on behind this text with a `/`.
fn push_below(
    paths: &mut Vec<Location>,
    by_text: &Blocks<Entry>,
    alloc: Global,
    text: &Text,
) -> Result<(), OutOfMemory>
    requires { IsKept (flat by_text.now) }
    ensures { OnOk result (paths.new.items ≡ paths.old.items ++ paths_behind text.now (flat by_text.now)) }
{
    let first = text_with(alloc, text, "/")?;
    let end = text_with(alloc, text, "0")?;
    let place = entries::place_of(by_text, first.as_bytes());
    for entry in by_text.iter_from(place) {
        if !entry.text().cmp(&end.as_bytes()).is_lt() {
            return Ok(());
        }
        paths.push(location_of(alloc, entry.as_str())?)?;
    }
    Ok(())
}

/// The location that has this text.
fn location_of(alloc: Global, text: &str) -> Result<Location, OutOfMemory>
    requires { parse_refusal text.now ≡ None }
    ensures { IfOk result (λ location. location ≡ segments_of text.now) }
{
    match Location::parse(alloc, text) {
        Ok(location) => Ok(location),
        Err(LocationRefused::OutOfMemory) => Err(OutOfMemory),
        Err(
            LocationRefused::BadScheme
            | LocationRefused::EmptySegment
            | LocationRefused::DotSegment
            | LocationRefused::ControlByte
            | LocationRefused::TooLong,
        ) => unreachable!(),
    }
}

/// The first text with the second behind it.
fn text_with(alloc: Global, text: &Text, more: &str) -> Result<Text, OutOfMemory>
    ensures { IfOk result (λ longer. longer ≡ text.now ++ more.now) }
{
    let mut longer = String::from_str(alloc, text.as_str())?;
    longer.push_str(more)?;
    Ok(Text::from(longer))
}

//! Tables of single values.
ghost use Rattle.std.specs.Prelude.{◌≡◌, ◌++◌, IfOk, IfSome, None, All, string_bytes};
ghost use Rattle.pol_locations.specs.Location.{is_cover, is_overlap, segments_of};
ghost use Rattle.pol_values.specs.Values.{Differs, IsAnother, IsAsWanted, Tells, TellsJoin, TellsLevels, TellsLocation, TellsName, TellsPlain, TellsSegment, TellsTest};

use crate::changes::{changes, changes_again, object_change};
use crate::commits::{commit, transaction};
use crate::difference::Difference;
use crate::escapes::{shown, unescaped, unescaped_text};
use crate::tables::{metadata, table};
use crate::unread::Unread;
use crate::views::{view, view_commit, view_metadata};
use pol_locations::{Location, LocationRefused, covers, overlaps};
use pol_names::{Name, NameRefused, Namespace, NamespaceRefused, Plain};
use pol_types::Text;
use std::alloc::{AllocError, Global};

/// A line that asks for a value.
#[derive(Drop)]
pub struct Value {
    /// The line, counted from 1.
    pub line: usize,
    pub question: Question,
    pub arguments: Vec<Text>,
    /// What is to be told.
    pub wanted: Vec<u8>,
}

/// What is asked.
#[derive(Clone, Copy, PartialEq, Eq)]
pub enum Question {
    Plain,
    Name,
    Segment,
    Levels,
    Location,
    Join,
    Covers,
    Overlaps,
    TableRequest,
    TableMetadata,
    TableCommit,
    TableTransaction,
    ViewRequest,
    ViewMetadata,
    ViewCommit,
    Changes,
    ChangesAgain,
    ObjectChange,
}

impl Value {
    /// Reads a line that begins with this word.
    pub fn read(alloc: Global, word: &str, rest: &str, line: usize) -> Result<Self, Unread>
        ensures { IfOk result (λ value. value.line ≡ line) }
    {
        let Some(question) = Question::of(word) else {
            return Err(Unread::Form);
        };
        let (arguments, wanted) = match rest.strip_prefix("-> ") {
            Some(wanted) => (question.no_arguments(alloc)?, wanted),
            None => match rest.split_once(" -> ") {
                Some((list, wanted)) => (arguments_of(alloc, list)?, wanted),
                None => return Err(Unread::Form),
            },
        };
        Ok(Value {
            line,
            question,
            arguments,
            wanted: unescaped(alloc, wanted)?,
        })
    }
}

/// The arguments of a list.
fn arguments_of(alloc: Global, list: &str) -> Result<Vec<Text>, Unread> {
    let mut arguments = Vec::new(alloc);
    for text in list.split(" | ") {
        arguments.push(unescaped_text(alloc, text)?)?;
    }
    Ok(arguments)
}

impl Question {
    /// The arguments where none is written: no level, or the empty text.
    fn no_arguments(self, alloc: Global) -> Result<Vec<Text>, AllocError> {
        let mut arguments = Vec::new(alloc);
        if self != Question::Levels {
            arguments.push(Text::from(String::new(alloc)))?;
        }
        Ok(arguments)
    }

    /// The question of this word.
    fn of(word: &str) -> Option<Self> {
        match word {
            "plain" => Some(Question::Plain),
            "name" => Some(Question::Name),
            "segment" => Some(Question::Segment),
            "levels" => Some(Question::Levels),
            "location" => Some(Question::Location),
            "join" => Some(Question::Join),
            "covers" => Some(Question::Covers),
            "overlaps" => Some(Question::Overlaps),
            "table-request" => Some(Question::TableRequest),
            "table-metadata" => Some(Question::TableMetadata),
            "table-commit" => Some(Question::TableCommit),
            "table-transaction" => Some(Question::TableTransaction),
            "view-request" => Some(Question::ViewRequest),
            "view-metadata" => Some(Question::ViewMetadata),
            "view-commit" => Some(Question::ViewCommit),
            "changes" => Some(Question::Changes),
            "changes-again" => Some(Question::ChangesAgain),
            "object-change" => Some(Question::ObjectChange),
            _ => None,
        }
    }
}

/// What is told.
fn told(alloc: Global, question: Question, arguments: &[Text]) -> Result<String, Unread>
    ensures { IfOk result (λ told. Tells question arguments.now (string_bytes told)) }
{
    match (question, arguments) {
        (Question::Plain, [text]) => plain(alloc, text.as_str()),
        (Question::Name, [text]) => name(alloc, text.as_str()),
        (Question::Segment, [text]) => segment(alloc, text.as_str()),
        (Question::Levels, levels) => segment_of(alloc, levels),
        (Question::Location, [text]) => location(alloc, text.as_str()),
        (Question::Join, [base, segments @ ..]) => join(alloc, base.as_str(), segments),
        (Question::Covers, [a, b]) => cover(alloc, a.as_str(), b.as_str()),
        (Question::Overlaps, [a, b]) => overlap(alloc, a.as_str(), b.as_str()),
        (Question::TableRequest, [body]) => table(alloc, body.as_str()),
        (Question::TableMetadata, [text]) => metadata(alloc, text.as_str()),
        (Question::TableCommit, [meta, body]) => commit(alloc, meta.as_str(), body.as_str()),
        (Question::TableTransaction, [body]) => transaction(alloc, body.as_str()),
        (Question::ViewRequest, [body]) => view(alloc, body.as_str()),
        (Question::ViewMetadata, [text]) => view_metadata(alloc, text.as_str()),
        (Question::ViewCommit, [meta, body]) => view_commit(alloc, meta.as_str(), body.as_str()),
        (Question::Changes, [digits]) => changes(alloc, digits.as_str()),
        (Question::ChangesAgain, [digits]) => changes_again(alloc, digits.as_str()),
        (Question::ObjectChange, [digits]) => object_change(alloc, digits.as_str()),
        _ => Err(Unread::Form),
    }
}

fn plain(alloc: Global, text: &str) -> Result<String, Unread>
    ensures { IfOk result (λ told. TellsPlain text.now (string_bytes told)) }
{
    match Plain::new(alloc, text) {
        Ok(name) => Ok(name.to_string(alloc)?),
        Err(NameRefused::OutOfMemory) => Err(Unread::NoMemory),
        Err(why) => Ok(why.to_string(alloc)?),
    }
}

fn name(alloc: Global, text: &str) -> Result<String, Unread>
    ensures { IfOk result (λ told. TellsName text.now (string_bytes told)) }
{
    match Name::new(alloc, text) {
        Ok(name) => Ok(name.to_string(alloc)?),
        Err(NameRefused::OutOfMemory) => Err(Unread::NoMemory),
        Err(why) => Ok(why.to_string(alloc)?),
    }
}

fn segment(alloc: Global, text: &str) -> Result<String, Unread>
    ensures { IfOk result (λ told. TellsSegment text.now (string_bytes told)) }
{
    match Namespace::from_segment(alloc, text) {
        Ok(namespace) => Ok(namespace.to_string(alloc)?),
        Err(NamespaceRefused::OutOfMemory) => Err(Unread::NoMemory),
        Err(why) => Ok(why.to_string(alloc)?),
    }
}

fn segment_of(alloc: Global, levels: &[Text]) -> Result<String, Unread>
    ensures { IfOk result (λ told. TellsLevels levels.now (string_bytes told)) }
{
    match Namespace::from_levels(alloc, levels) {
        Ok(namespace) => Ok(namespace.segment(alloc)?),
        Err(NamespaceRefused::OutOfMemory) => Err(Unread::NoMemory),
        Err(why) => Ok(why.to_string(alloc)?),
    }
}

fn location(alloc: Global, text: &str) -> Result<String, Unread>
    ensures { IfOk result (λ told. TellsLocation text.now (string_bytes told)) }
{
    match Location::parse(alloc, text) {
        Ok(location) => Ok(location.to_string(alloc)?),
        Err(LocationRefused::OutOfMemory) => Err(Unread::NoMemory),
        Err(why) => Ok(why.to_string(alloc)?),
    }
}

fn join(alloc: Global, base: &str, segments: &[Text]) -> Result<String, Unread>
    ensures { IfOk result (λ told. TellsJoin base.now segments.now (string_bytes told)) }
{
    match joined(alloc, base, segments) {
        Ok(location) => Ok(location.to_string(alloc)?),
        Err(LocationRefused::OutOfMemory) => Err(Unread::NoMemory),
        Err(why) => Ok(why.to_string(alloc)?),
    }
}

/// The location below a base.
fn joined(alloc: Global, base: &str, segments: &[Text]) -> Result<Location, LocationRefused>
    ensures { IfOk result (λ location. location ≡ segments_of base.now ++ segments.now) }
{
    let mut location = Location::parse(alloc, base)?;
    for segment in segments {
        location = location.join(alloc, segment.as_str())?;
    }
    Ok(location)
}

/// Whether a location covers another one.
fn cover(alloc: Global, a: &str, b: &str) -> Result<String, Unread>
    ensures { IfOk result (λ told. TellsTest (is_cover (segments_of a.now) (segments_of b.now)) (string_bytes told)) }
{
    let (a, b) = (location_of(alloc, a)?, location_of(alloc, b)?);
    truth(alloc, covers(&a, &b))
}

/// Whether two locations overlap.
fn overlap(alloc: Global, a: &str, b: &str) -> Result<String, Unread>
    ensures { IfOk result (λ told. TellsTest (is_overlap (segments_of a.now) (segments_of b.now)) (string_bytes told)) }
{
    let (a, b) = (location_of(alloc, a)?, location_of(alloc, b)?);
    truth(alloc, overlaps(&a, &b))
}

/// The location of a text.
fn location_of(alloc: Global, text: &str) -> Result<Location, Unread>
    ensures { IfOk result (λ location. location ≡ segments_of text.now) }
{
    match Location::parse(alloc, text) {
        Ok(location) => Ok(location),
        Err(LocationRefused::OutOfMemory) => Err(Unread::NoMemory),
        Err(_) => Err(Unread::Form),
    }
}

/// How a test is told.
fn truth(alloc: Global, holds: bool) -> Result<String, Unread>
    ensures { IfOk result (λ told. TellsTest holds (string_bytes told)) }
{
    let word = if holds { "true" } else { "false" };
    Ok(String::from_str(alloc, word)?)
}

/// Where what one of the values is told to be differs from what is wanted.
pub fn value_difference(alloc: Global, values: &[Value]) -> Result<Option<Difference>, Unread>
    ensures agree { IfOk result (λ difference. difference ≡ None → All IsAsWanted values.now) }
    ensures differs { IfOk result (λ difference. IfSome difference (λ shown. Differs values.now shown.line)) }
{
    for value in values {
        if let Some(difference) = value.difference(alloc)? {
            return Ok(Some(difference));
        }
    }
    Ok(None)
}

impl Value {
    /// Where what it is told to be differs from what is wanted.
    fn difference(&self, alloc: Global) -> Result<Option<Difference>, Unread>
        ensures agrees { IfOk result (λ difference. difference ≡ None → IsAsWanted self.now) }
        ensures differs { IfOk result
            (λ difference. IfSome difference (λ shown. (shown.line ≡ self.now.line) × IsAnother self.now)) }
    {
        let got = told(alloc, self.question, self.arguments.as_slice())?;
        if got.as_bytes() == self.wanted.as_slice() {
            return Ok(None);
        }
        let difference = self.shown(alloc, got.as_bytes())?;
        Ok(Some(difference))
    }

    /// Shows what it is told to be.
    fn shown(&self, alloc: Global, got: &[u8]) -> Result<Difference, AllocError>
        ensures { IfOk result (λ shown. shown.line ≡ self.now.line) }
    {
        Ok(Difference {
            line: self.line,
            what: Text::from(String::from_str(alloc, "another value is told")?),
            wanted: Text::from(shown(alloc, self.wanted.as_slice())?),
            got: Text::from(shown(alloc, got)?),
        })
    }
}

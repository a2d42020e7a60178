//! The options of a line.
ghost use Rattle.std.specs.Prelude.{◌∷◌, [], MatchBool, option_copied};
ghost use Rattle.pol_words.specs.Options as spec;

use crate::names::{CATALOGUE, OBJECTS, ROOT_SECRET};
use pol_types::Text;

/// The secret in words that are `--root-secret SECRET`.
pub(crate) fn secret(words: &[Text]) -> Option<&str>
    ensures { spec.GivesValues words.now (ROOT_SECRET.now ∷ []) (spec.one_value result) }
{
    if !are_options(words, 1) {
        return None;
    }
    let Some(secret) = value_of(words, ROOT_SECRET) else {
        return None;
    };
    Some(secret)
}

/// The catalogue and the objects in words that are `--catalogue FILE --objects FILE`, in any order.
pub(crate) fn places(words: &[Text]) -> Option<(&str, &str)>
    ensures { spec.GivesValues words.now (CATALOGUE.now ∷ OBJECTS.now ∷ []) (spec.two_values result) }
{
    if !are_options(words, 2) {
        return None;
    }
    let Some(catalogue) = value_of(words, CATALOGUE) else {
        return None;
    };
    let Some(objects) = value_of(words, OBJECTS) else {
        return None;
    };
    Some((catalogue, objects))
}

/// Whether the words are this many options.
fn are_options(words: &[Text], count: usize) -> bool
    ensures { MatchBool result (spec.AreThisMany words.now count) (spec.AreNotThisMany words.now count) }
{
    if count == 0 {
        return words.is_empty();
    }
    match first_option(words) {
        Some((_, _, rest)) => are_options(rest, count - 1),
        None => false,
    }
}

/// The value of the first option of this name, of words that are options.
fn value_of<'a>(words: &'a [Text], name: &str) -> Option<&'a str>
    ensures { spec.HasValue words.now name.now (option_copied result) }
{
    let (given, value, rest) = first_option(words)?;
    if given == name {
        return Some(value);
    }
    value_of(rest, name)
}

/// The name and the value of the first option, and the words behind it.
fn first_option(words: &[Text]) -> Option<(&str, &str, &[Text])>
    ensures { spec.FindsFirst words.now (spec.option_and_rest result) }
{
    let (first, behind) = words.split_first()?;
    match parts(first.as_str()) {
        Some((_, "")) => None,
        Some((name, value)) => Some((name, value, behind)),
        None => apart(first.as_str(), behind),
    }
}

/// The option of this name whose value is the next word, and the words behind it.
fn apart<'a>(name: &'a str, behind: &'a [Text]) -> Option<(&'a str, &'a str, &'a [Text])>
    requires { spec.IsName name.now }
    ensures { spec.FindsFirst (name.now ∷ behind.now) (spec.option_and_rest result) }
{
    let (value, rest) = behind.split_first()?;
    if stands_apart(value.as_str()) {
        return Some((name, value.as_str(), rest));
    }
    None
}

/// What stands before the first `=` of a word, and what stands behind it.
fn parts(word: &str) -> Option<(&str, &str)>
    ensures { spec.IsCut word.now (spec.both result) }
{
    word.split_once('=')
}

/// Whether a value may stand as a word of its own: it has a byte, and doesn't begin as an option does.
fn stands_apart(value: &str) -> bool
    ensures { MatchBool result (spec.StandsApart value.now) (¬ (spec.StandsApart value.now)) }
{
    match value.as_bytes() {
        [] => false,
        [first, ..] => *first != b'-',
    }
}

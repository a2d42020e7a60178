//! Laws of forms: theorems over the definitions in `specs/`. Their bodies are empty.
ghost use Rattle.pol_readers.specs.Laws.{ObjectsAreExact, TextsAreExact, TruthValuesAreExact, NumbersAreExact, NumbersOrMinusOneAreExact, WordsAreExact, FixedWordsAreExact, FieldsAreExact, OptionalFieldsAreExact, ListsAreExact, EntriesAreExact, WholesAreExact, BodiesAreExact, OtherBodiesAreBad, LastOfEqualKeysCounts, OtherKeysAreIgnored};

use crate::form::Form;
use crate::word::Word;

/// A value is an object exactly where its grammar says so.
pub fn objects_are_exact()
    ensures { ObjectsAreExact }
{}

/// A text is read exactly where one stands.
pub fn texts_are_exact()
    ensures { TextsAreExact }
{}

/// A truth value is read exactly where one stands.
pub fn truth_values_are_exact()
    ensures { TruthValuesAreExact }
{}

/// A number is read exactly where a whole one within the bounds stands, written without sign, fraction and exponent.
pub fn numbers_are_exact()
    ensures { NumbersAreExact }
{}

/// -1 is read exactly where it stands, and the other form exactly where its grammar holds of any other value.
pub fn numbers_or_minus_one_are_exact<F: Form>()
    ensures { NumbersOrMinusOneAreExact F.shape }
{}

/// A word is read exactly where a text stands that some row has, as what the first such row says.
pub fn words_are_exact<W: Word>()
    ensures { WordsAreExact W.words }
{}

/// A fixed word is read exactly where it stands.
pub fn fixed_words_are_exact()
    ensures { FixedWordsAreExact }
{}

/// A field is read exactly where its key has a value of its grammar.
pub fn fields_are_exact<F: Form>()
    ensures { FieldsAreExact F.shape }
{}

/// An optional field is read as absent exactly where its key is absent or has a null, else exactly where its key has
/// a value of its grammar.
pub fn optional_fields_are_exact<F: Form>()
    ensures { OptionalFieldsAreExact F.shape }
{}

/// A list is read exactly where an array stands, each member of which is of the grammar.
pub fn lists_are_exact<F: Form>()
    ensures { ListsAreExact F.shape }
{}

/// Entries are read exactly where an object stands, each value of which is of the grammar.
pub fn entries_are_exact<F: Form>()
    ensures { EntriesAreExact F.shape }
{}

/// A value that is one field, into which no path goes, is read exactly where its grammar holds.
pub fn wholes_are_exact<F: Form>()
    ensures { WholesAreExact F.shape }
{}

/// A body is read exactly where the reader of JSON reads the bytes as an object, and that is of the grammar.
pub fn bodies_are_exact<F: Form>()
    ensures { BodiesAreExact F.shape }
{}

/// Bytes that aren't an object in JSON and UTF-8 are bad as a whole, with the empty path.
pub fn other_bodies_are_bad<F: Form>()
    ensures { OtherBodiesAreBad F.shape }
{}

/// A field reads what was put at its key last.
pub fn last_of_equal_keys_counts<F: Form>()
    ensures { LastOfEqualKeysCounts F.shape }
{}

/// What was put at another key is nothing to a field.
pub fn other_keys_are_ignored<F: Form>()
    ensures { OtherKeysAreIgnored F.shape }
{}

//! What all columns in memory keep: their texts are UTF-8, and texts and lists are short enough to have a form.
ghost use Rattle.pol_forms.specs.Enums as enums;
ghost use Rattle.pol_columnforms.specs.Columns.{AreStored, HasTexts, doc_in, name_in};
ghost use Rattle.pol_forms.specs.Forms as forms;

use pol_meta::{Column, Part};
use pol_types::Text;

/// Changes nothing, and tells of columns what they keep.
pub(crate) fn tell_stored(columns: &[Column])
    ensures { AreStored columns.now }
{
    let _count = columns.len();
    for column in columns {
        tell_texts(column);
    }
}

fn tell_texts(column: &Column)
    ensures { HasTexts column.now }
{
    tell_name(&column.part);
    tell_doc_in(&column.part);
}

fn tell_name(part: &Part)
    ensures { forms.text.holds (name_in part.now) }
{
    match part {
        Part::Field { name, .. } => tell_text(name.as_str()),
        Part::Element { .. } | Part::Key | Part::Value { .. } => tell_text(""),
    }
}

fn tell_doc_in(part: &Part)
    ensures { (enums.optional forms.text).holds (doc_in part.now) }
{
    match part {
        Part::Field { doc, .. } => tell_doc(doc),
        Part::Element { .. } | Part::Key | Part::Value { .. } => {
            let none: Option<Text> = None;
            tell_doc(&none)
        }
    }
}

#[tactic(auto, unfolding(pol_forms::specs::Enums::optional))]
fn tell_doc(doc: &Option<Text>)
    ensures { (enums.optional forms.text).holds doc.now }
{
    match doc {
        Some(doc) => tell_text(doc.as_str()),
        None => {}
    }
}

#[tactic(auto, unfolding(pol_forms::specs::Forms::text, pol_forms::specs::Forms::byte_string))]
fn tell_text(text: &str)
    ensures { forms.text.holds text.now }
{
    let _length = text.len();
}

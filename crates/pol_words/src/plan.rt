//! The words of a command line, and what they ask for.
ghost use Rattle.std.specs.Prelude.{◌≡◌, ◌∷◌, Ok, IfOk, None};
ghost use Rattle.pol_words.specs.Words as spec;

use crate::names::{EXEC, INIT};
use crate::options::{places, secret};
use pol_types::{Listed, OutOfMemory, Text};
use std::alloc::Global;

/// The words of a command line, without the program's name.
#[derive(Drop)]
pub struct Words {
    pub list: Listed<Text>,
}

/// What a line of words asks for.
#[derive(Drop)]
pub enum Plan {
    /// `exec --root-secret SECRET`: serves the link over a fresh catalogue whose root has this secret.
    ExecFresh { root_secret: Text },
    /// `exec --catalogue FILE --objects FILE`: serves the link over the catalogue and the objects in these files.
    Exec { catalogue: Text, objects: Text },
    /// `init --catalogue FILE --objects FILE`: makes the catalogue and the objects in these files, by the
    /// declaration that the link has.
    Init { catalogue: Text, objects: Text },
}

/// What the words ask for, or `None` where they are no command line.
///
/// `OutOfMemory` where memory was wanting for the texts of a plan. Words that are no command line take none.
pub fn plan_of(alloc: Global, words: &Words) -> Result<Option<Plan>, OutOfMemory>
    ensures plan { IfOk result (λ plan. spec.IsReadAs words.now.list plan) }
    ensures none { spec.MeansNothing words.now.list → result ≡ Ok None }
{
    let Some((command, options)) = words.list.as_slice().split_first() else {
        return Ok(None);
    };
    if command.as_str() == EXEC {
        return exec(alloc, options);
    }
    if command.as_str() == INIT {
        return init(alloc, options);
    }
    Ok(None)
}

/// What `exec` asks for with these options.
fn exec(alloc: Global, options: &[Text]) -> Result<Option<Plan>, OutOfMemory>
    ensures plan { IfOk result (λ plan. spec.IsReadAs (EXEC.now ∷ options.now) plan) }
    ensures none { spec.MeansNothing (EXEC.now ∷ options.now) → result ≡ Ok None }
{
    if let Some(secret) = secret(options) {
        let root_secret = owned(alloc, secret)?;
        return Ok(Some(Plan::ExecFresh { root_secret }));
    }
    let Some((catalogue, objects)) = places(options) else {
        return Ok(None);
    };
    let (catalogue, objects) = both_owned(alloc, catalogue, objects)?;
    Ok(Some(Plan::Exec { catalogue, objects }))
}

/// What `init` asks for with these options.
fn init(alloc: Global, options: &[Text]) -> Result<Option<Plan>, OutOfMemory>
    ensures plan { IfOk result (λ plan. spec.IsReadAs (INIT.now ∷ options.now) plan) }
    ensures none { spec.MeansNothing (INIT.now ∷ options.now) → result ≡ Ok None }
{
    let Some((catalogue, objects)) = places(options) else {
        return Ok(None);
    };
    let (catalogue, objects) = both_owned(alloc, catalogue, objects)?;
    Ok(Some(Plan::Init { catalogue, objects }))
}

/// Both texts, each of its own.
fn both_owned(alloc: Global, one: &str, two: &str) -> Result<(Text, Text), OutOfMemory>
    ensures { IfOk result (λ copies. copies ≡ (one.now, two.now)) }
{
    Ok((owned(alloc, one)?, owned(alloc, two)?))
}

/// A text of its own, with the same bytes.
fn owned(alloc: Global, text: &str) -> Result<Text, OutOfMemory>
    ensures { IfOk result (λ copy. copy ≡ text.now) }
{
    Ok(Text::from(String::from_str(alloc, text)?))
}

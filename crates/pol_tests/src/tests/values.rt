//! Texts, bytes, lists and scopes give back what they are made of, and want of memory is told.
ghost use Rattle.std.specs.Prelude.{◌≡◌, ◌∷◌, [], IfOk};
ghost use Rattle.pol_names.specs.declared.scope.Scope.TheVariants.{Roles};

use pol_names::Scope;
use pol_types::{Bytes, Listed, OutOfMemory, Text};
use std::alloc::{AllocError, Global};
use std::test::Fail;

fn text(alloc: Global, word: &str) -> Result<Text, AllocError>
    ensures { IfOk result (λ text. text ≡ word.now) }
{
    Ok(Text::from(String::from_str(alloc, word)?))
}

/// Whether a text has these bytes, and prints so, plainly and for programmers.
fn is_text(text: &Text, alloc: Global, bytes: &[u8], printed: &str) -> Result<bool, AllocError> {
    let print = format!(in alloc; "{text} {text:?}")?;
    Ok(text.as_bytes() == bytes && text.len() == bytes.len() && print.as_str() == printed)
}

fn given_text(alloc: Global) -> Result<String, AllocError> {
    let word = text(alloc, "é")?;
    Ok(String::from(word.clone()?))
}

fn given_bytes(alloc: Global) -> Result<Vec<u8>, AllocError> {
    let pair = Bytes::from(Vec::from_slice(alloc, &[1, 2])?);
    Ok(pair.clone()?.into())
}

fn list(alloc: Global, word: &str) -> Result<Listed<Text>, AllocError>
    ensures { IfOk result (λ list. list ≡ word.now ∷ []) }
{
    let text = text(alloc, word)?;
    let mut items = Vec::with_capacity(alloc, 1)?;
    items.push_reserved(text);
    Ok(Listed::from(items))
}

fn given_list(alloc: Global) -> Result<Vec<Text>, AllocError> {
    let one = list(alloc, "a")?;
    Ok(one.clone()?.into())
}

fn role_scope(alloc: Global) -> Result<Scope, AllocError>
    ensures { IfOk result (λ scope. scope ≡ Roles (2 ∷ 3 ∷ [])) }
{
    Ok(Scope::Roles(Listed::from(Vec::from_slice(alloc, &[2, 3])?)))
}

#[test]
fn values_are_given_back(rt: HostRuntime) -> Result<(), Fail> {
    let alloc = rt.alloc();
    let scope = role_scope(alloc)?;
    assert!(rt; scope.clone()? == scope && scope != Scope::All);
    assert_eq!(rt; given_text(alloc)?.as_str(), "é");
    assert_eq!(rt; given_bytes(alloc)?.as_slice(), [1, 2].as_slice());
    assert_eq!(rt; given_list(alloc)?.as_slice(), list(alloc, "a")?.as_slice());
    Ok(())
}

#[test]
fn values_print_and_compare(rt: HostRuntime) -> Result<(), Fail> {
    let alloc = rt.alloc();
    let word = text(alloc, "é")?;
    let is_word = is_text(&word, alloc, &[0xc3, 0xa9], "é \"é\"")?;
    assert!(rt; is_word && text(alloc, "z")? < word);
    assert!(rt; list(alloc, "a")? < list(alloc, "b")?);
    Ok(())
}

#[test]
fn refused_allocation_is_out_of_memory(rt: HostRuntime) -> Result<(), Fail> {
    fn grown(alloc: Global, count: usize) -> Result<Vec<u8>, OutOfMemory> {
        Ok(Vec::with_capacity(alloc, count)?)
    }
    assert_eq!(rt; grown(rt.alloc(), usize::MAX).err(), Some(OutOfMemory));
    assert_eq!(rt;
        format!(in rt.alloc(); "{OutOfMemory}")?.as_str(),
        "out of memory"
    );
    Ok(())
}

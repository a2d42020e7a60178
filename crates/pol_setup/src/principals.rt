//! Principals with their secrets, and the lines that tell those that were drawn.
ghost use Rattle.std.specs.Prelude.{◌≡◌, ◌≤◌, ◌<◌, ◌+◌, ◌*◌, ◌++◌, IfOk, count_by, is_none, length, string_bytes, true, if◌then◌else◌};
ghost use Rattle.std.specs.List.{flat_map};
ghost use Rattle.pol_setup.specs.Setup as spec;

use pol_declaration::NewPrincipal;
use pol_names::Plain;
use pol_types::{Listed, OutOfMemory, Text};
use std::alloc::Global;

/// A principal that is to be, with its secret.
#[derive(Drop)]
pub(crate) struct KeyedPrincipal {
    pub name: Plain,
    pub client_id: Text,
    pub secret: Text,
    pub is_drawn: bool,
    pub roles: Listed<Plain>,
}

/// The principals, each with its secret.
pub(crate) fn keyed(
    alloc: Global,
    principals: &[NewPrincipal],
    words: &[u64],
) -> Result<Listed<KeyedPrincipal>, OutOfMemory>
    requires { 2 * count_by spec.is_drawn principals.now ≤ length words.now }
    ensures { IfOk result (λ keyed. keyed ≡ spec.keyed words.now 0 principals.now) }
{
    let mut keyed = Vec::with_capacity(alloc, principals.len())?;
    let mut drawn = 0;
    for principal in principals {
        let one = with_secret(alloc, principal, words, drawn)?;
        drawn = next_place(drawn, one.is_drawn);
        keyed.push(one)?;
    }
    Ok(Listed::from(keyed))
}

/// A principal with its secret, which is that of this place where it is drawn.
fn with_secret(
    alloc: Global,
    principal: &NewPrincipal,
    words: &[u64],
    place: usize,
) -> Result<KeyedPrincipal, OutOfMemory>
    requires { spec.is_drawn principal.now ≡ true → 2 * place + 1 < length words.now }
    ensures { IfOk result (λ one. one ≡ spec.with_secret words.now place principal.now) }
{
    Ok(KeyedPrincipal {
        name: principal.name.clone()?,
        client_id: principal.client_id.clone()?,
        secret: secret_or(alloc, &principal.secret, words, place)?,
        is_drawn: principal.secret.is_none(),
        roles: principal.roles.clone()?,
    })
}

/// The secret that is given, or else the drawn one of that place.
fn secret_or(
    alloc: Global,
    given: &Option<Text>,
    words: &[u64],
    place: usize,
) -> Result<Text, OutOfMemory>
    requires { is_none given.now ≡ true → 2 * place + 1 < length words.now }
    ensures { IfOk result (λ secret. secret ≡ spec.secret_or given.now words.now place) }
{
    match given {
        Some(secret) => Ok(secret.clone()?),
        None => drawn_at(alloc, words, place),
    }
}

/// The place of the next drawn secret.
fn next_place(place: usize, is_drawn: bool) -> usize
    requires { place < usize.MAX }
    ensures { result ≡ (if is_drawn then place + 1 else place) }
{
    if is_drawn { place + 1 } else { place }
}

/// The drawn secret of that place.
fn drawn_at(alloc: Global, words: &[u64], place: usize) -> Result<Text, OutOfMemory>
    requires { 2 * place + 1 < length words.now }
    ensures { IfOk result (λ secret. secret ≡ spec.drawn_at words.now place) }
{
    drawn_secret(alloc, words[2 * place], words[2 * place + 1])
}

/// Two words as 32 hexadecimal digits.
fn drawn_secret(alloc: Global, high: u64, low: u64) -> Result<Text, OutOfMemory>
    ensures { IfOk result (λ secret. secret ≡ spec.digits high low) }
{
    let mut digits = hex::encode(alloc, high.to_be_bytes())?;
    let others = hex::encode(alloc, low.to_be_bytes())?;
    digits.push_str(others.as_str())?;
    Ok(Text::from(digits))
}

/// The lines that tell the secrets that were drawn.
pub(crate) fn lines_of(alloc: Global, principals: &[KeyedPrincipal]) -> Result<Text, OutOfMemory>
    ensures { IfOk result (λ lines. lines ≡ flat_map spec.line_of principals.now) }
{
    let mut lines = String::new(alloc);
    for principal in principals {
        push_line(alloc, &mut lines, principal)?;
    }
    Ok(Text::from(lines))
}

/// The line of a principal, where its secret was drawn.
#[tactic(auto, unfolding(crate::specs::Setup::line))]
fn push_line(
    alloc: Global,
    lines: &mut String,
    principal: &KeyedPrincipal,
) -> Result<(), OutOfMemory>
    ensures { IfOk result (λ _. string_bytes lines.new ≡ string_bytes lines.old ++ spec.line_of principal.now) }
{
    if principal.is_drawn {
        let (name, id, secret) = (&principal.name, &principal.client_id, &principal.secret);
        let line = format!(in alloc; "principal {name} client-id {id} secret {secret}\n")?;
        lines.push_str(line.as_str())?;
    }
    Ok(())
}

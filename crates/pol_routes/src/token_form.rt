//! The form of a token request (RFC 6749, sections 2.3.1, 3.3 and 4.4.2).
ghost use Rattle.std.specs.Prelude.{◌≡◌, List, ℕ, [], ◌∷◌, ◌++◌, IfOk};
ghost use Rattle.form_urlencoded.specs.Form.{parse};
ghost use Rattle.pol_routes.specs.TokenForm as spec;

use crate::form::{Values, decoded};
use form_urlencoded::raw_pairs;
use pol_types::{Listed, OutOfMemory, Text};
use std::alloc::Global;

/// The most words of a scope.
pub(crate) const SCOPE_LIMIT: usize = 16;

/// A token request whose fields stand as they must.
#[derive(Drop)]
pub(crate) struct TokenForm {
    pub grant_type: Text,
    pub client_id: Text,
    pub client_secret: Text,
    pub scopes: Listed<Text>,
}

/// The fields that a token request may have. Others are ignored.
#[derive(Drop)]
pub(crate) struct Fields {
    pub grant_type: Values,
    pub client_id: Values,
    pub client_secret: Values,
    pub scope: Values,
}

impl Fields {
    fn new() -> Self
        ensures { result ≡ spec.fields_of [] }
    {
        Fields {
            grant_type: Values::Missing,
            client_id: Values::Missing,
            client_secret: Values::Missing,
            scope: Values::Missing,
        }
    }

    /// One more field of the form.
    fn add(&mut self, name: &str, value: Text)
        ensures { (form : List (List ℕ × List ℕ)) → self.old ≡ spec.fields_of form
            → self.new ≡ spec.fields_of (form ++ (name.now, value) ∷ []) }
    {
        match name {
            "grant_type" => self.grant_type.add(value),
            "client_id" => self.client_id.add(value),
            "client_secret" => self.client_secret.add(value),
            "scope" => self.scope.add(value),
            _ => {}
        }
    }
}

/// The token request that a body makes, if it makes one.
#[tactic(auto, unfolding(crate::specs::TokenForm::token_form))]
pub(crate) fn read_token_form(alloc: Global, body: &[u8]) -> Result<Option<TokenForm>, OutOfMemory>
    ensures { IfOk result (λ form. form ≡ spec.token_form (parse body.now)) }
{
    match read_fields(alloc, body)? {
        Some(fields) => request_of(alloc, fields),
        None => Ok(None),
    }
}

/// The fields of a body, where all of it is UTF-8 once decoded.
fn read_fields(alloc: Global, body: &[u8]) -> Result<Option<Fields>, OutOfMemory>
    ensures { IfOk result (λ fields. fields ≡ spec.readable_fields (parse body.now)) }
{
    let mut fields = Fields::new();
    for (name, value) in raw_pairs(body) {
        let Some(name) = decoded(alloc, name)? else {
            return Ok(None);
        };
        let Some(value) = decoded(alloc, value)? else {
            return Ok(None);
        };
        fields.add(name.as_str(), value);
    }
    Ok(Some(fields))
}

/// The request that the fields make, where each stands as it must.
fn request_of(alloc: Global, fields: Fields) -> Result<Option<TokenForm>, OutOfMemory>
    ensures { IfOk result (λ form. form ≡ spec.request_of fields) }
{
    let Some(grant_type) = sole(fields.grant_type) else {
        return Ok(None);
    };
    let Some(client_id) = sole(fields.client_id) else {
        return Ok(None);
    };
    let Some(client_secret) = sole(fields.client_secret) else {
        return Ok(None);
    };
    let Some(scopes) = scopes_of(alloc, fields.scope)? else {
        return Ok(None);
    };
    Ok(Some(TokenForm {
        grant_type,
        client_id,
        client_secret,
        scopes,
    }))
}

/// The value of a field that must stand once and not be empty.
fn sole(values: Values) -> Option<Text>
    ensures { result ≡ spec.sole values }
{
    match values {
        Values::One(value) if !value.is_empty() => Some(value),
        Values::One(_) | Values::Missing | Values::Several => None,
    }
}

/// The scopes that are asked for, where the field doesn't stand twice and has at most `SCOPE_LIMIT` words.
fn scopes_of(alloc: Global, scope: Values) -> Result<Option<Listed<Text>>, OutOfMemory>
    ensures { IfOk result (λ scopes. scopes ≡ spec.scopes_of scope) }
{
    match scope {
        Values::Missing => Ok(Some(Listed::from(Vec::new(alloc)))),
        Values::One(text) => scope_words(alloc, text.as_str()),
        Values::Several => Ok(None),
    }
}

/// The words of a scope, where they are at most `SCOPE_LIMIT`.
fn scope_words(alloc: Global, scope: &str) -> Result<Option<Listed<Text>>, OutOfMemory>
    ensures { IfOk result (λ words. words ≡ spec.few_words (spec.scope_words scope.now)) }
{
    let mut words = Vec::new(alloc);
    if scope.is_empty() {
        return Ok(Some(Listed::from(words)));
    }
    for word in scope.split(' ') {
        if words.len() == SCOPE_LIMIT {
            return Ok(None);
        }
        words.push(Text::from(String::from_str(alloc, word)?))?;
    }
    Ok(Some(Listed::from(words)))
}

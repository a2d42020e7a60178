//! The JSON of answers on tables.
ghost use Rattle.std.specs.Prelude.{◌≡◌, ◌++◌, IfOk, false, option_copied};
ghost use Rattle.serde_json.specs.View.{members_view, view};
ghost use Rattle.serde_json.specs.Written.{compact_text, has_float, members_have_float};
ghost use Rattle.pol_json_texts.specs.Objects.{opened_text};
ghost use Rattle.pol_answers.specs.TableJson as spec;

use crate::json::{ToJson, list};
use crate::texts::written_token;
use pol_json_texts::{Members, close_object, name_member, open_object};
use pol_meta::TableMetadata;
use pol_metaprint::members::{none, with, with_text};
use pol_metaprint::write_table;
use pol_names::Identifier;
use pol_tokens::TokenRow;
use pol_types::{Bytes, Listed, OutOfMemory, Text};
use serde_json::{Value, json};
use std::alloc::{AllocError, Global};

impl ToJson for Identifier {
    ghost json = { spec.identifier_json };

    fn to_json(&self, alloc: Global) -> Result<Value, OutOfMemory> {
        let name = self.name.to_json(alloc)?;
        let levels = self.namespace.to_json(alloc)?;
        Ok(json!(in alloc; {"name": name, "namespace": levels})?)
    }
}

/// A list of identifiers.
pub(crate) fn identifiers_json(
    alloc: Global,
    identifiers: &Listed<Identifier>,
) -> Result<Value, OutOfMemory>
    ensures { IfOk result (λ json. view json ≡ spec.identifiers_json identifiers.now) }
{
    let identifiers = list(alloc, identifiers.as_slice())?;
    Ok(json!(in alloc; {"identifiers": identifiers})?)
}

/// The text that shows a table with its metadata, which is at this place, and the storage token that was issued, if one
/// was.
#[tactic(auto, using(crate::proofs::TableJsonLemmas::loaded_text))]
pub(crate) fn loaded_text(
    alloc: Global,
    place: &Text,
    metadata: &TableMetadata,
    token: Option<&TokenRow>,
) -> Result<Bytes, OutOfMemory>
    ensures { IfOk result (λ text. text ≡ compact_text
        (spec.loaded_json place.now metadata.now (option_copied token.entry))) }
{
    let text = opened_config(alloc, token)?;
    let rest = rest_of(alloc, place, token)?;
    with_metadata(alloc, text, true, metadata, rest)
}

/// The text of an answer that begins with what a client is to speak to storage with.
#[tactic(auto, using(crate::proofs::TableJsonLemmas::front_whole))]
fn opened_config(alloc: Global, token: Option<&TokenRow>) -> Result<Vec<u8>, OutOfMemory>
    ensures { IfOk result (λ text. text.items ≡ opened_text (spec.loaded_front (option_copied token.entry))) }
{
    let config = with(alloc, none(alloc), "config", config_of(alloc, token)?)?;
    open_object(alloc, Vec::new(alloc), config)
}

/// The members of an answer that stand behind the metadata of a table.
fn rest_of(alloc: Global, place: &Text, token: Option<&TokenRow>) -> Result<Members, OutOfMemory>
    ensures { IfOk result (λ rest. members_view rest.entries
        ≡ spec.loaded_back place.now (option_copied token.entry)) }
{
    let credentials = credentials_of(alloc, token)?;
    let rest = with_text(alloc, none(alloc), "metadata-location", place.as_str())?;
    with(alloc, rest, "storage-credentials", credentials)
}

/// The text that shows a table after a commit to it, with its metadata, which is at this place.
#[tactic(auto, using(crate::proofs::TableJsonLemmas::committed_text))]
pub(crate) fn committed_text(
    alloc: Global,
    place: &Text,
    metadata: &TableMetadata,
) -> Result<Bytes, OutOfMemory>
    ensures { IfOk result (λ text. text ≡ compact_text (spec.committed_json place.now metadata.now)) }
{
    let rest = with_text(alloc, none(alloc), "metadata-location", place.as_str())?;
    let text = open_object(alloc, Vec::new(alloc), none(alloc))?;
    with_metadata(alloc, text, false, metadata, rest)
}

/// The text, a member with a metadata, and the last members, which have no floats. `later` says whether another member
/// stands before it.
#[tactic(auto, using(crate::proofs::TableJsonLemmas::metadata_text))]
fn with_metadata(
    alloc: Global,
    text: Vec<u8>,
    later: bool,
    metadata: &TableMetadata,
    rest: Members,
) -> Result<Bytes, OutOfMemory>
    requires { members_have_float (members_view rest.entries) ≡ false }
    ensures { IfOk result (λ all. all ≡ text.items
        ++ spec.metadata_text later metadata.now (members_view rest.entries)) }
{
    let text = name_member(text, later, "metadata")?;
    let text = write_table(alloc, text, metadata)?;
    Ok(Bytes::from(close_object(alloc, text, rest)?))
}

/// A storage token with the location that it opens.
#[tactic(auto, using(crate::proofs::TableJsonLemmas::credentials_whole))]
pub(crate) fn credentials_json(alloc: Global, token: &TokenRow) -> Result<Value, OutOfMemory>
    ensures json { IfOk result (λ json. view json ≡ spec.credentials_json token.now) }
    ensures whole { IfOk result (λ json. has_float (view json) ≡ false) }
{
    let credentials = credentials_of(alloc, Some(token))?;
    Ok(json!(in alloc; {"storage-credentials": credentials})?)
}

/// What a client is to speak to storage with: nothing, where no token was issued.
fn config_of(alloc: Global, token: Option<&TokenRow>) -> Result<Value, OutOfMemory>
    ensures { IfOk result (λ json. view json ≡ spec.config_of (option_copied token.entry)) }
{
    match token {
        Some(row) => token_config(alloc, row),
        None => Ok(json!(in alloc; {})?),
    }
}

/// The text of a storage token, and when it expires, in milliseconds.
fn token_config(alloc: Global, row: &TokenRow) -> Result<Value, OutOfMemory>
    ensures { IfOk result (λ json. view json ≡ spec.token_config row.now) }
{
    let expires = row.expires.to_string(alloc)?;
    let token = written_token(alloc, row.serial, row.word_a, row.word_b)?;
    Ok(token_object(alloc, expires.as_str(), token.as_str())?)
}

/// The object of a token's parts.
fn token_object(alloc: Global, expires: &str, token: &str) -> Result<Value, AllocError>
    ensures { IfOk result (λ json. view json ≡ spec.token_object expires.now token.now) }
{
    json!(in alloc; {"lake.expires-at-ms": expires, "lake.token": token})
}

/// The storage tokens that an answer gives with the locations that they open: none, where none was issued.
fn credentials_of(alloc: Global, token: Option<&TokenRow>) -> Result<Value, OutOfMemory>
    ensures { IfOk result (λ json. view json ≡ spec.credentials_of (option_copied token.entry)) }
{
    match token {
        Some(row) => {
            let credential = row.to_json(alloc)?;
            Ok(json!(in alloc; [credential])?)
        }
        None => Ok(json!(in alloc; [])?),
    }
}

impl ToJson for TokenRow {
    ghost json = { spec.credential_json };

    fn to_json(&self, alloc: Global) -> Result<Value, OutOfMemory> {
        let config = token_config(alloc, self)?;
        let prefix = self.location.text(alloc)?;
        let prefix = prefix.as_str();
        Ok(json!(in alloc; {"config": config, "prefix": prefix})?)
    }
}

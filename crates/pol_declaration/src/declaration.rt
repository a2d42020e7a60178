//! Reading a declaration.
ghost use Rattle.std.specs.Prelude.{◌≡◌, Ok, Err, MatchResult, length, nat_le};
ghost use Rattle.std.specs.Str.{is_utf8};
ghost use Rattle.toml.specs.View.{view};
ghost use Rattle.pol_declaration.specs.Declaration as spec;
ghost use Rattle.pol_declaration.specs.Reading.{Gives, GivesBy, must};

use crate::fault::{DeclarationRefused, Fault};
use crate::form::{Form, field, listed, table};
use crate::keys;
use crate::tables::{NewCatalog, NewCatalogRole, NewGrant, NewPrincipal, NewPrincipalRole};
use pol_types::{Listed, Text};
use std::alloc::Global;
use std::str;
use toml::Value;

/// What a catalogue is to be set up with: the secret of the principal `root`, and what is to be there beside it, in the
/// order of the text.
#[derive(Drop)]
pub struct Declaration {
    pub root_secret: Text,
    pub principal_roles: Listed<NewPrincipalRole>,
    pub principals: Listed<NewPrincipal>,
    pub catalogs: Listed<NewCatalog>,
    pub catalog_roles: Listed<NewCatalogRole>,
    pub grants: Listed<NewGrant>,
}

#[tactic(auto, unfolding(crate::specs::Declaration::declaration))]
impl Form for Declaration {
    ghost shape = { spec.declaration };

    fn read(alloc: Global, value: &Value) -> Result<Self, DeclarationRefused> {
        let keys = [
            keys::ROOT_SECRET,
            keys::PRINCIPAL_ROLE,
            keys::PRINCIPAL,
            keys::CATALOG,
            keys::CATALOG_ROLE,
            keys::GRANT,
        ];
        table(alloc, value, &keys)?;
        let root_secret = field(alloc, value, keys::ROOT_SECRET)?;
        let principal_roles = listed(alloc, value, keys::PRINCIPAL_ROLE)?;
        let principals = listed(alloc, value, keys::PRINCIPAL)?;
        let catalogs = listed(alloc, value, keys::CATALOG)?;
        let catalog_roles = listed(alloc, value, keys::CATALOG_ROLE)?;
        let grants = listed(alloc, value, keys::GRANT)?;
        Ok(Declaration {
            root_secret,
            principal_roles,
            principals,
            catalogs,
            catalog_roles,
            grants,
        })
    }
}

/// Reads the text of a declaration. It is TOML of at most 1,048,576 bytes in UTF-8, a table with the keys
///
/// - `root-secret`, a string;
/// - `principal-role`, tables with the key `name`;
/// - `principal`, tables with the keys `name`, `client-id`, `secret` and `roles`, all but the first optional;
/// - `catalog`, tables with the keys `name`, `base` and `allowed`, the last optional;
/// - `catalog-role`, tables with the keys `catalog`, `name` and `principal-roles`, the last optional;
/// - `grant`, tables with the keys `catalog`, `catalog-role` and `privilege`.
///
/// All but `root-secret` are arrays of tables, each of which may be absent. No table has another key. `roles` and
/// `principal-roles` are arrays of names, and `allowed` is one of strings. A privilege may be granted on a catalogue.
///
/// An error is the first fault, or want of memory, for which no clause names a cause. The text is judged as a whole
/// first, then the keys of the top table, and then what stands under each of them, in the order above. Within a table
/// too the first key in byte order that isn't listed comes before any other fault, and then each key in that order.
#[tactic(auto, unfolding(crate::specs::Declaration::declared))]
pub fn read_declaration(alloc: Global, text: &[u8]) -> Result<Declaration, DeclarationRefused>
    ensures { Gives result (spec.declared text.now) }
{
    let value = document(alloc, text)?;
    Declaration::read(alloc, &value)
}

/// The value that a text is.
#[tactic(auto, unfolding(crate::specs::Declaration::document))]
fn document(alloc: Global, text: &[u8]) -> Result<Value, DeclarationRefused>
    ensures { GivesBy view result (spec.document text.now) }
{
    short(text)?;
    let text = utf8(text)?;
    parsed(alloc, text)
}

/// The text must not be too long.
fn short(text: &[u8]) -> Result<(), DeclarationRefused>
    ensures { Gives result (must Fault.TooLong (nat_le (length text.now) 1048576)) }
{
    if text.len() <= MAX_LENGTH {
        Ok(())
    } else {
        Err(DeclarationRefused::BadDeclaration(Fault::TooLong))
    }
}

/// The text must be UTF-8.
fn utf8(text: &[u8]) -> Result<&str, DeclarationRefused>
    ensures { MatchResult result
        (λ utf8. (utf8.now ≡ text.now) × (must Fault.NotUtf8 (is_utf8 text.now) ≡ Ok tt))
        (λ refused. (refused ≡ DeclarationRefused.BadDeclaration Fault.NotUtf8) × (must Fault.NotUtf8 (is_utf8 text.now) ≡ Err Fault.NotUtf8)) }
{
    match str::from_utf8(text) {
        Ok(utf8) => Ok(utf8),
        Err(_) => Err(DeclarationRefused::BadDeclaration(Fault::NotUtf8)),
    }
}

/// The value that a text in UTF-8 is.
fn parsed(alloc: Global, text: &str) -> Result<Value, DeclarationRefused>
    ensures { GivesBy view result (spec.data_of text.now) }
{
    match toml::table_from_str(alloc, text) {
        Ok(table) => Ok(Value::Table(table)),
        Err(error) => {
            if error.is_memory() {
                return Err(DeclarationRefused::OutOfMemory);
            }
            Err(DeclarationRefused::BadDeclaration(Fault::NotToml))
        }
    }
}

/// The most bytes of a text.
const MAX_LENGTH: usize = 1_048_576;

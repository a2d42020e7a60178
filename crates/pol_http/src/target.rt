//! A request target that hasn't ended yet.
ghost use Rattle.std.specs.Prelude.{◌≡◌, ℕ, List, ◌++◌, IfSome, IfNone};
ghost use Rattle.std.specs.Bool.{OnTrue, OnFalse};
ghost use Rattle.httparse.specs.Grammar.{AllPass, NeverHasRequest, MayBecomeRequest};
ghost use Rattle.pol_http.specs.Reading.{CanHaveRequest};
ghost use Rattle.pol_http.specs.Text.{is_no_space, IsAfterFirstSpace, IsAfterOnlySpace, IsBeyondRepair, CanBecomeText};

use std::str;

/// Whether the bytes end in a target that no further bytes make UTF-8.
pub(crate) fn ends_in_bad_target(bytes: &[u8]) -> bool
    requires { MayBecomeRequest bytes.now }
    ensures bad { OnTrue result (NeverHasRequest bytes.now) }
    ensures good { OnFalse result (CanHaveRequest bytes.now) }
{
    match open_target(bytes) {
        Some(target) => is_beyond_repair(target),
        None => false,
    }
}

/// What follows the one space that the bytes have. Behind a second space the target has ended.
fn open_target(bytes: &[u8]) -> Option<&[u8]>
    ensures found { IfSome result (λ target. IsAfterOnlySpace bytes.now target.now) }
    ensures none { IfNone result ((target : List ℕ) → ¬ (IsAfterOnlySpace bytes.now target)) }
{
    let target = after_space(bytes)?;
    match after_space(target) {
        Some(_) => None,
        None => Some(target),
    }
}

/// What follows the first space.
fn after_space(bytes: &[u8]) -> Option<&[u8]>
    ensures found { IfSome result (λ rest. IsAfterFirstSpace bytes.now rest.now) }
    ensures none { IfNone result (AllPass is_no_space bytes.now) }
{
    let space = bytes.iter().position(|byte| *byte == b' ')?;
    Some(&bytes[space + 1..])
}

/// Whether no bytes can follow that make the text UTF-8.
fn is_beyond_repair(text: &[u8]) -> bool
    ensures beyond { OnTrue result (IsBeyondRepair text.now) }
    ensures repairable { OnFalse result (CanBecomeText text.now) }
{
    match str::from_utf8(text) {
        Ok(_) => false,
        Err(fault) => fault.error_len().is_some(),
    }
}

//! All that `init` does before it calls a disk.
ghost use Rattle.std.specs.Prelude.{◌≡◌, ◌≤◌, ◌∷◌, ◌^◌, [], All, IfErr, IfOk, OnOk, length};
ghost use Rattle.pol_journal.specs.Format.{area_of};
ghost use Rattle.pol_setup.specs.Setup.{commands, words_needed};
ghost use Rattle.pol_state.specs.Rows.{fresh_state};
ghost use Rattle.pol_state.specs.Sound.{IsSound};
ghost use Rattle.pol_init.specs.FirstRecord.{IsFormWhereValid, body_of};
ghost use Rattle.pol_init.specs.Prepared as spec;
ghost use Rattle.pol_init.specs.Reading.{TakesSome};
ghost use Rattle.pol_init.specs.SetUp.{AllPass, IsSetupRefused, state_set_up};

use crate::drawing::{Undrawn, draw_words};
use crate::output::output_of;
use crate::reading::{Unread, read_text};
use crate::record::first_record;
use crate::setup::{SetupRefused, set_up_state};
use pol_commands::{Command, Refusal};
use pol_declaration::{Declaration, DeclarationRefused, Fault, read_declaration};
use pol_setup::{Setup, set_up, words_needed};
use pol_types::{Bytes, OutOfMemory};
use pol_wire::{Clock, Draw, Source};
use std::alloc::Global;

/// What `init` has before it calls a disk.
#[derive(Drop)]
pub struct Prepared {
    /// What follows the header of the catalogue's journal.
    pub first: Bytes,
    /// What is written once the journals are made.
    pub output: Bytes,
}

/// Why `init` has nothing to make journals of.
#[derive(Drop)]
pub enum NotPrepared {
    /// The source failed.
    ReadFault,
    /// The text is no declaration.
    BadDeclaration(Fault),
    /// The draw failed.
    DrawFault,
    /// The command at this index, counted from 0, is refused, and none before it is.
    Refused { index: u64, refusal: Refusal },
    OutOfMemory,
}

impl From<Unread> for NotPrepared {
    ghost use Rattle.pol_init.specs.Prepared.{unread};
    ghost use Rattle.std.specs.Prelude.{◌≡◌};

    ghost from_gives = { λ why refused. refused ≡ unread why };

    fn from(why: Unread) -> Self {
        match why {
            Unread::ReadFault => NotPrepared::ReadFault,
            Unread::OutOfMemory => NotPrepared::OutOfMemory,
        }
    }
}

impl From<DeclarationRefused> for NotPrepared {
    ghost use Rattle.pol_init.specs.Prepared.{undeclared};
    ghost use Rattle.std.specs.Prelude.{◌≡◌};

    ghost from_gives = { λ why refused. refused ≡ undeclared why };

    fn from(why: DeclarationRefused) -> Self {
        match why {
            DeclarationRefused::BadDeclaration(fault) => NotPrepared::BadDeclaration(fault),
            DeclarationRefused::OutOfMemory => NotPrepared::OutOfMemory,
        }
    }
}

impl From<Undrawn> for NotPrepared {
    ghost use Rattle.pol_init.specs.Prepared.{undrawn};
    ghost use Rattle.std.specs.Prelude.{◌≡◌};

    ghost from_gives = { λ why refused. refused ≡ undrawn why };

    fn from(why: Undrawn) -> Self {
        match why {
            Undrawn::DrawFault => NotPrepared::DrawFault,
            Undrawn::OutOfMemory => NotPrepared::OutOfMemory,
        }
    }
}

impl From<SetupRefused> for NotPrepared {
    ghost use Rattle.pol_init.specs.Prepared.{unset};
    ghost use Rattle.std.specs.Prelude.{◌≡◌};

    ghost from_gives = { λ why refused. refused ≡ unset why };

    fn from(why: SetupRefused) -> Self {
        match why {
            SetupRefused::Refused { index, refusal } => NotPrepared::Refused { index, refusal },
            SetupRefused::OutOfMemory => NotPrepared::OutOfMemory,
        }
    }
}

/// Takes a declaration from the source, to its end or to byte 1,048,577. Then it reads the clock, draws the words of
/// the secrets that are to be drawn, does the declaration's commands from the fresh state on, and makes the first
/// record of the catalogue and the output.
pub fn prepare<S: Source, C: Clock, W: Draw>(
    alloc: Global,
    source: &mut S,
    clock: &mut C,
    draw: &mut W,
) -> Result<Prepared, NotPrepared>
    ensures prepared { IfOk result (spec.Prepares
        (spec.inputs_of S.left S.faults C.moments W.words W.faults source.old clock.old draw.old)
        (spec.inputs_of S.left S.faults C.moments W.words W.faults source.new clock.new draw.new)) }
    ensures refused { IfErr result (spec.IsNotPrepared
        (spec.inputs_of S.left S.faults C.moments W.words W.faults source.old clock.old draw.old)
        (spec.inputs_of S.left S.faults C.moments W.words W.faults source.new clock.new draw.new)) }
    // Bytes, a moment and words may have been taken, whatever the answer.
    ensures moved { spec.Moves
        (spec.inputs_of S.left S.faults C.moments W.words W.faults source.old clock.old draw.old)
        (spec.inputs_of S.left S.faults C.moments W.words W.faults source.new clock.new draw.new) }
{
    let declaration = read_declared(alloc, source)?;
    let moment = clock.now();
    made_drawn(alloc, draw, declaration, moment)
}

/// Takes a declaration from the source.
fn read_declared<S: Source>(alloc: Global, source: &mut S) -> Result<Declaration, NotPrepared>
    ensures declares { IfOk result (spec.Declares (S.left source.old) (S.left source.new)) }
    ensures refused { IfErr result (spec.IsUndeclared (S.left source.old) (S.left source.new)
        (S.faults source.old) (S.faults source.new)) }
    ensures taken { TakesSome (S.left source.old) (S.left source.new) }
{
    let text = read_text(alloc, source)?;
    let declared = read_declaration(alloc, text.as_slice());
    drop(text);
    match declared {
        Ok(declaration) => Ok(declaration),
        Err(why) => Err(NotPrepared::from(why)),
    }
}

/// Draws the words of a declaration, and makes all of it.
fn made_drawn<W: Draw>(
    alloc: Global,
    draw: &mut W,
    declaration: Declaration,
    moment: u64,
) -> Result<Prepared, NotPrepared>
    requires { moment ≤ 2 ^ 62 }
    ensures made { IfOk result (spec.MakesDrawn (W.words draw.old) (W.words draw.new) declaration moment) }
    ensures refused { IfErr result (spec.IsUnmade (W.words draw.old) (W.words draw.new)
        (W.faults draw.old) (W.faults draw.new) declaration moment) }
    ensures drawn { spec.DrawsSome (W.words draw.old) (W.words draw.new) }
{
    match draw_words(alloc, draw, words_needed(&declaration)) {
        Ok(words) => {
            let made = made_ready(alloc, declaration, moment, words.as_slice());
            drop(words);
            made
        }
        Err(why) => {
            drop(declaration);
            Err(NotPrepared::from(why))
        }
    }
}

/// Does the commands of a declaration, and makes the first record and the output.
fn made_ready(
    alloc: Global,
    declaration: Declaration,
    moment: u64,
    words: &[u64],
) -> Result<Prepared, NotPrepared>
    requires moment { moment ≤ 2 ^ 62 }
    requires words { words_needed declaration ≤ length words.now }
    ensures ready { IfOk result (spec.IsReady declaration moment words.now) }
    ensures refused { IfErr result (spec.IsUnset declaration.root_secret (commands declaration moment words.now)) }
{
    let Ok(secret) = declaration.root_secret.clone() else {
        drop(declaration);
        return Err(NotPrepared::OutOfMemory);
    };
    let Ok(setup) = set_up(alloc, declaration, moment, words) else {
        drop(secret);
        return Err(NotPrepared::OutOfMemory);
    };
    let made = made_of(alloc, secret.as_str(), &setup);
    drop(secret);
    drop(setup);
    made
}

/// Does these commands, and makes the first record and the output.
fn made_of(alloc: Global, secret: &str, setup: &Setup) -> Result<Prepared, NotPrepared>
    requires { All (λ command. command.moment ≤ 2 ^ 62) setup.now.commands }
    ensures made { IfOk result (spec.IsMadeOf secret.now setup.now) }
    ensures refused { IfErr result (spec.IsUnset secret.now setup.now.commands) }
{
    let first = first_of(alloc, secret, setup.commands.as_slice())?;
    let Ok(output) = output_of(alloc, &setup.lines, setup.commands.len() as u64) else {
        drop(first);
        return Err(NotPrepared::OutOfMemory);
    };
    Ok(Prepared {
        first: Bytes::from(first),
        output: Bytes::from(output),
    })
}

/// Does these commands, and makes the first record.
fn first_of(alloc: Global, secret: &str, commands: &[Command]) -> Result<Vec<u8>, SetupRefused>
    requires { All (λ command. command.moment ≤ 2 ^ 62) commands.now }
    ensures passed { OnOk result (AllPass (fresh_state secret.now) commands.now) }
    ensures sound { OnOk result (IsSound (state_set_up secret.now commands.now)) }
    ensures bytes { IfOk result (λ first. first.items
        ≡ area_of (body_of (state_set_up secret.now commands.now) ∷ [])) }
    ensures form { OnOk result (IsFormWhereValid (state_set_up secret.now commands.now)) }
    ensures refused { IfErr result (IsSetupRefused (fresh_state secret.now) commands.now) }
{
    let state = set_up_state(alloc, secret, commands)?;
    let first = first_record(alloc, &state);
    drop(state);
    match first {
        Ok(first) => Ok(first),
        Err(OutOfMemory) => Err(SetupRefused::OutOfMemory),
    }
}

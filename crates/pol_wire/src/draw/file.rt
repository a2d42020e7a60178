ghost use Rattle.std.specs.Prelude.{◌≡◌, ℕ, List, IfOk, IsSome, OnOk, length};
ghost use Rattle.std.specs.Int.{w64, from_le_bytes};
ghost use Rattle.std.specs.Io.KnownBytes.{Consumes};
ghost use Rattle.pol_wire.specs.Faults.{CountsFaults};

use crate::faults::Faults;
use crate::{Draw, Failed};
use std::fs::File;
use std::io;
use std::io::Read;
use std::marker::Model;
use std::rt::Files;

// Where the system gives random bytes.
const RANDOM_BYTES: &str = "/dev/urandom";

/// A draw of the system's random numbers: eight bytes of the file `/dev/urandom` a word, low byte
/// first. The file is opened at the first call. An opening that fails, and an end of the file
/// before eight bytes, are faults.
#[derive(Drop)]
pub struct FileDraw<R: Files> {
    runtime: R,
    file: Option<R::File>,
    faults: Faults,
}

impl<R: Files> Model for FileDraw<R> {
    ghost use Rattle.std.specs.Prelude.{ℕ, ◌≤◌, ◌-◌, ◌^◌};

    ghost Value = { ℕ };

    ghost view = { λ d. d.faults };

    ghost invariant = { λ d. d.faults ≤ 2 ^ 64 - 1 };
}

impl<R: Files> FileDraw<R> {
    /// A draw from the file of `runtime`, which isn't opened yet.
    pub fn new(runtime: R) -> Self
        ensures { result ≡ 0 }
    {
        FileDraw {
            runtime,
            file: None,
            faults: Faults::none(),
        }
    }
}

impl<R: Files> Draw for FileDraw<R> {
    // A draw's value is its count of faults.
    ghost faults = { λ d. d };

    fn word(&mut self) -> Result<u64, Failed>
        ensures count { CountsFaults self.old self.new result }
    {
        match read_word(&self.runtime, &mut self.file) {
            Ok(word) => Ok(word),
            Err(_) => Err(self.faults.fail()),
        }
    }
}

// Reads the next word of the file, which is opened where it isn't open yet.
fn read_word<R: Files>(runtime: &R, file: &mut Option<R::File>) -> io::Result<u64>
    ensures stays_open { OnOk result (IsSome file.new) }
    ensures never_closes { IsSome file.old → IsSome file.new }
{
    let mut opened = match file.take() {
        Some(opened) => opened,
        None => File::open(runtime, RANDOM_BYTES)?,
    };
    let word = word_of(&mut opened);
    *file = Some(opened);
    word
}

// Reads eight bytes as a word, low byte first.
fn word_of<R: Read>(reader: &mut R) -> io::Result<u64>
    ensures { IfOk result (λ word. (bytes : List ℕ)
        × (length bytes ≡ 8)
        × (word ≡ from_le_bytes w64 bytes)
        × Consumes (R.remaining reader.old) (R.remaining reader.new) bytes) }
{
    let mut bytes = [0; 8];
    reader.read_exact(&mut bytes)?;
    Ok(u64::from_le_bytes(bytes))
}

ghost use Rattle.std.specs.Prelude.{◌≡◌, ◌<◌, ◌≤◌, IfOk, take, length};
ghost use Rattle.std.specs.Io.{WritesAtMost};
ghost use Rattle.std.specs.Io.KnownBytes.{Appends};
ghost use Rattle.pol_wire.specs.Faults.{CountsFaults};

use crate::faults::Faults;
use crate::{Failed, Sink};
use std::io;
use std::io::Write;
use std::marker::Model;

/// A writer of the standard library as a sink. Each call writes once and flushes, so what it took
/// has reached the reader when it returns. A writer that takes no byte of a piece that isn't empty
/// has failed, and so has one whose flush fails: then it may have written what isn't told, so the
/// sink never tells its bytes.
#[derive(Drop)]
pub struct StdSink<W> {
    writer: W,
    faults: Faults,
}

impl<W> Model for StdSink<W> {
    ghost use Rattle.std.specs.Prelude.{◌≤◌, ◌-◌, ◌^◌};
    ghost use Rattle.pol_wire.specs.Counted.{Counted};

    ghost Value = { Counted W };

    ghost view = { λ s. record { inner = s.writer; faults = s.faults } };

    ghost invariant = { λ s. s.faults ≤ 2 ^ 64 - 1 };
}

impl<W> StdSink<W> {
    /// A sink over `writer`, without faults.
    pub fn new(writer: W) -> Self
        ensures { result ≡ record { inner = writer; faults = 0 } }
    {
        StdSink {
            writer,
            faults: Faults::none(),
        }
    }
}

impl<W: Write> Sink for StdSink<W> {
    ghost faults = { λ s. s.faults };

    fn give(&mut self, piece: &[u8]) -> Result<usize, Failed>
        ensures bound { WritesAtMost result piece.now }
        ensures progress { IfOk result (λ count. 0 < length piece.now → 0 < count) }
        ensures count { CountsFaults self.old.faults self.new.faults result }

        ensures written { IfOk result (λ count.
            Appends (W.contents self.old.inner) (W.contents self.new.inner) (take count piece.now)) }
    {
        match write_through(&mut self.writer, piece) {
            Ok(count) if count > 0 || piece.is_empty() => Ok(count),
            _ => Err(self.faults.fail()),
        }
    }
}

// Writes once, and flushes.
fn write_through<W: Write>(writer: &mut W, piece: &[u8]) -> io::Result<usize>
    ensures bound { WritesAtMost result piece.now }
    ensures written { IfOk result (λ count.
        Appends (W.contents writer.old) (W.contents writer.new) (take count piece.now)) }
{
    let count = writer.write(piece)?;
    writer.flush()?;
    Ok(count)
}

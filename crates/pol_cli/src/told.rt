//! What is told of a run when the program ends, and how a text is given.
ghost use Rattle.std.specs.Prelude.{◌≡◌, ◌≢◌, ◌⊎◌, IfOk, OnErr, OnOk, string_bytes};
ghost use Rattle.std.specs.Io.KnownBytes.{Appends};
ghost use Rattle.std.specs.Process.{exit_status};
ghost use Rattle.pol_wire.specs.Faults.{Rises};
ghost use Rattle.pol_cli.specs.Told as spec;

use crate::reason::Reason;
use crate::report::Report;
use pol_types::OutOfMemory;
use pol_wire::{Failed, Sink};
use std::alloc::Global;
use std::process::ExitCode;

/// Tells on standard error why a run failed, and gives the status that the program ends with.
///
/// Where memory is wanting for the line, or standard error fails, the status alone tells the rest.
pub fn end<K: Sink>(alloc: Global, errors: &mut K, report: &Report) -> ExitCode
    // The whole line, or its front where standard error failed, or none where memory was wanting.
    ensures line { spec.GivesText (K.given errors.old) (K.given errors.new) (K.faults errors.old) (K.faults errors.new)
        (spec.line_of report.now.reason)
        ⊎ ((errors.new ≡ errors.old) × (report.now.reason ≢ Reason.Done)) }
    ensures status { exit_status result ≡ report.now.status }
{
    tell(alloc, errors, &report.reason);
    ExitCode::from(report.status)
}

/// Tells a reason.
fn tell<K: Sink>(alloc: Global, errors: &mut K, reason: &Reason)
    ensures { spec.GivesText (K.given errors.old) (K.given errors.new) (K.faults errors.old) (K.faults errors.new)
        (spec.line_of reason.now)
        ⊎ ((errors.new ≡ errors.old) × (reason.now ≢ Reason.Done)) }
{
    let Ok(line) = line_of(alloc, reason) else {
        return;
    };
    let _given = give_all(errors, line.as_bytes());
    drop(line);
}

/// The line that tells a reason. It takes no memory where the run did what its words ask for.
fn line_of(alloc: Global, reason: &Reason) -> Result<String, OutOfMemory>
    ensures line { IfOk result (λ line. string_bytes line ≡ spec.line_of reason.now) }
    ensures none { OnErr result (reason.now ≢ Reason.Done) }
{
    match reason {
        Reason::Done => Ok(String::new(alloc)),
        failed => failed_line(alloc, failed),
    }
}

/// The line that tells why a run failed.
fn failed_line(alloc: Global, reason: &Reason) -> Result<String, OutOfMemory>
    ensures { IfOk result (λ line. string_bytes line ≡ spec.failed_line reason.now) }
{
    let text = reason.text(alloc)?;
    let line = format!(in alloc; "polaris: {text}\n");
    drop(text);
    Ok(line?)
}

/// Gives all of a text, or its front where the sink fails.
pub(crate) fn give_all<K: Sink>(sink: &mut K, text: &[u8]) -> Result<(), Failed>
    ensures given { spec.GivesText (K.given sink.old) (K.given sink.new) (K.faults sink.old) (K.faults sink.new)
        text.now }
    ensures all { OnOk result (Appends (K.given sink.old) (K.given sink.new) text.now) }
    ensures same { OnOk result (K.faults sink.new ≡ K.faults sink.old) }
    ensures failed { OnErr result (Rises (K.faults sink.old) (K.faults sink.new)) }
{
    let mut count = 0;
    while count < text.len() {
        count += sink.give(&text[count..])?;
    }
    Ok(())
}

//! Why a run ended as it did.
ghost use Rattle.std.specs.Prelude.{◌≡◌, IfOk, string_bytes};
ghost use Rattle.pol_cli.specs.Reasons as spec;
ghost use Rattle.pol_cli.specs.Told as told;
ghost use Rattle.pol_cli.specs.Told.{reason_text, store_name};

use pol_answers::message_of;
use pol_commands::Refusal;
use pol_declaration::Fault;
use pol_init::{NotMade, NotPrepared};
use pol_journal::JournalRefused;
use pol_server::Ending;
use std::alloc::{AllocError, Global};

/// Why a run ended as it did.
#[derive(Drop)]
pub enum Reason {
    /// It did what its words ask for.
    Done,
    /// The source of its link failed.
    ReadFault,
    /// The sink of its link failed.
    WriteFault,
    /// The words are no command line.
    Usage,
    /// The disk of the objects, or else that of the catalogue, has no journal of its kind.
    NotAJournal { objects: bool },
    /// That disk's journal has no fit record behind the gate at this place.
    BadRecord { objects: bool, at: u64 },
    /// That disk has bytes.
    JournalThere { objects: bool },
    /// That disk failed while its journal was opened or made.
    DiskFault { objects: bool },
    /// Memory was wanting outside a request.
    NoMemory,
    /// The text is no declaration.
    BadDeclaration { fault: Fault },
    /// The declaration's command at this index, counted from 0, is refused, and none before it is.
    Refused { index: u64, refusal: Refusal },
    /// The input of its link ended inside a message.
    InputCut,
    /// The draw failed.
    DrawFault,
    /// 2^40 bytes were taken from its link.
    Spent,
}

impl Reason {
    /// The exit status of a run that ended so.
    pub fn status(&self) -> u8
        ensures { result ≡ spec.status_of self.now }
    {
        match self {
            Reason::Done => 0,
            Reason::ReadFault | Reason::WriteFault => 1,
            Reason::Usage => 2,
            Reason::NotAJournal { .. } | Reason::BadRecord { .. } | Reason::JournalThere { .. } =>
                3,
            Reason::DiskFault { .. } => 4,
            Reason::NoMemory => 5,
            Reason::BadDeclaration { .. } | Reason::Refused { .. } => 6,
            Reason::InputCut => 7,
            Reason::DrawFault => 8,
            Reason::Spent => 9,
        }
    }
}

impl Reason {
    /// The reason in words. A refusal is told by its message.
    pub fn text(&self, alloc: Global) -> Result<String, AllocError>
        ensures { IfOk result (λ text. string_bytes text ≡ reason_text self.now) }
    {
        match self {
            Reason::Done => format!(in alloc; "done"),
            Reason::ReadFault => format!(in alloc; "the input can't be read"),
            Reason::WriteFault => format!(in alloc; "the output can't be written"),
            Reason::Usage => format!(in alloc; "the words are no command line"),
            Reason::NotAJournal { objects } => format!(in alloc;
                "the {} file is no journal",
                store(*objects)
            ),
            Reason::BadRecord { objects, at } => format!(in alloc;
                "the {} file has a bad record at {at}",
                store(*objects)
            ),
            Reason::JournalThere { objects } => format!(in alloc;
                "the {} file isn't empty",
                store(*objects)
            ),
            Reason::DiskFault { objects } => format!(in alloc;
                "the {} file failed",
                store(*objects)
            ),
            Reason::NoMemory => format!(in alloc; "memory is wanting"),
            Reason::BadDeclaration { fault } => format!(in alloc; "the declaration: {fault}"),
            Reason::Refused { index, refusal } => refused_text(alloc, *index, refusal),
            Reason::InputCut => format!(in alloc; "the input ended inside a message"),
            Reason::DrawFault => format!(in alloc; "no random word can be drawn"),
            Reason::Spent => format!(in alloc; "2^40 bytes were taken"),
        }
    }
}

/// The text of a command that is refused.
fn refused_text(alloc: Global, index: u64, refusal: &Refusal) -> Result<String, AllocError>
    ensures { IfOk result (λ text. string_bytes text ≡ told.refused_text index refusal.now) }
{
    let message = message_of(alloc, refusal)?;
    let text = format!(in alloc; "the declaration's command {index} is refused: {message}");
    drop(message);
    text
}

/// Whose file it is: of which store.
fn store(objects: bool) -> &'static str
    ensures { result.now ≡ store_name objects }
{
    if objects { "objects'" } else { "catalogue's" }
}

/// The reason of a run whose link ended so.
pub(crate) fn reason_of(ending: Ending) -> Reason
    ensures { result ≡ spec.reason_of ending }
{
    match ending {
        Ending::Ended | Ending::Closed => Reason::Done,
        Ending::Cut => Reason::InputCut,
        Ending::ReadFault => Reason::ReadFault,
        Ending::WriteFault => Reason::WriteFault,
        Ending::Spent => Reason::Spent,
        Ending::NoMemory => Reason::NoMemory,
    }
}

/// The reason of a run that had nothing to make journals of.
pub(crate) fn reason_not_prepared(why: NotPrepared) -> Reason
    ensures { result ≡ spec.reason_not_prepared why }
{
    match why {
        NotPrepared::ReadFault => Reason::ReadFault,
        NotPrepared::BadDeclaration(fault) => Reason::BadDeclaration { fault },
        NotPrepared::DrawFault => Reason::DrawFault,
        NotPrepared::Refused { index, refusal } => Reason::Refused { index, refusal },
        NotPrepared::OutOfMemory => Reason::NoMemory,
    }
}

/// The reason of a run whose journals weren't made.
pub(crate) fn reason_not_made(why: NotMade) -> Reason
    ensures { result ≡ spec.reason_not_made why }
{
    match why {
        NotMade::JournalThere { objects } => Reason::JournalThere { objects },
        NotMade::DiskFault { objects } => Reason::DiskFault { objects },
    }
}

/// The reason of a run whose journal of the objects, or else of the catalogue, wasn't opened.
pub(crate) fn reason_not_opened(objects: bool, why: JournalRefused) -> Reason
    ensures { result ≡ spec.reason_not_opened objects why }
{
    match why {
        JournalRefused::NotAJournal => Reason::NotAJournal { objects },
        JournalRefused::BadRecord { at } => Reason::BadRecord { objects, at },
        JournalRefused::JournalThere => Reason::JournalThere { objects },
        JournalRefused::DiskFault | JournalRefused::Unknown | JournalRefused::JournalFull { .. } =>
            { Reason::DiskFault { objects } }
        JournalRefused::OutOfMemory => Reason::NoMemory,
    }
}

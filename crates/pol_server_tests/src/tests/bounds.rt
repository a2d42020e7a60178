//! A run whose charges are at their bound, and a state without a serial left.
ghost use Rattle.std.specs.Prelude.{◌≡◌, ◌≤◌, ◌^◌, IfOk, ⊤};
ghost use Rattle.pol_state.specs.Sound.{IsSound};

use pol_disk::{Disk, HollowDisk};
use pol_kept::{Kept, Render, Stepped};
use pol_machine::{
    Action, Answer, Caller, Change, Command, Quantity, Refusal, Reply, State, Words4, decide,
};
use pol_types::{Listed, OutOfMemory, Text};
use std::alloc::{AllocError, Global};
use std::test::Fail;

/// The bound of the charges of a run.
const RUN_BOUND: u64 = 1 << 30;

/// A command that opens a session for root by this secret, at moment 1,000 and with this charge; for one role where a
/// word is given.
fn opening(
    alloc: Global,
    secret: &str,
    scope: Option<&str>,
    charge: u64,
) -> Result<Command, AllocError>
    ensures { IfOk result (λ command. command.moment ≡ 1000) }
{
    let client_id = Text::from(String::from_str(alloc, "root")?);
    let secret = Text::from(String::from_str(alloc, secret)?);
    let mut scopes = Vec::new(alloc);
    if let Some(word) = scope {
        scopes.push(Text::from(String::from_str(alloc, word)?))?;
    }
    Ok(Command {
        caller: Caller::Nobody,
        moment: 1_000,
        words: Words4 {
            a: 1,
            b: 2,
            c: 3,
            d: 4,
        },
        charge,
        action: Action::OpenSession {
            client_id,
            secret,
            scopes: Listed::from(scopes),
        },
    })
}

/// Renders a reply as the serial of the session that it opens, if it opens one.
struct Serial;

impl Render for Serial {
    type Out = Option<u64>;

    ghost renders = { λ serial reply out. ⊤ };

    fn render(&self, _alloc: Global, reply: &Reply) -> Result<Option<u64>, OutOfMemory> {
        Ok(match reply {
            Reply::Answered(Answer::SessionOpened { serial, .. }) => Some(*serial),
            _ => None,
        })
    }
}

/// What came of a step: its place with what was rendered, or both numbers of a full run.
type Told = Result<(u64, Option<u64>), (u64, u64)>;

/// Opens a session for root with this charge, for the pass of this number.
fn step<D: Disk>(alloc: Global, kept: &mut Kept<D>, number: u64, charge: u64) -> Option<Told> {
    let command = opening(alloc, "s3cr3t", None, charge).ok()?;
    match kept.step(alloc, number, command, &Serial) {
        Stepped::Done { place, out } => Some(Ok((place, out))),
        Stepped::RunFull {
            charged,
            charge,
            ..
        } => Some(Err((charged, charge))),
        Stepped::JournalFull { .. }
        | Stepped::Unknown
        | Stepped::DiskFault
        | Stepped::OutOfMemory => None,
    }
}

/// How many entries a catalogue has that closes.
fn entries_of<D: Disk + Drop>(kept: Kept<D>) -> u64 {
    let closed = kept.close();
    let count = closed.history.len();
    drop(closed);
    count
}

#[test]
fn full_run_makes_no_entry(rt: HostRuntime) -> Result<(), Fail> {
    let alloc = rt.alloc();
    let Ok(mut kept) = Kept::fresh(alloc, HollowDisk::new(0), "s3cr3t") else {
        return Err(Fail::new("there is no catalogue"));
    };
    let told = [
        step(alloc, &mut kept, 0, RUN_BOUND),
        step(alloc, &mut kept, 1, 512),
        step(alloc, &mut kept, 2, 0),
    ];
    let entries = entries_of(kept);
    let full = Err((1_073_741_824, 512));
    assert_eq!(rt;
        told,
        [Some(Ok((0, Some(0)))), Some(full), Some(Ok((1, Some(1))))]
    );
    assert_eq!(rt; entries, 2);
    Ok(())
}

/// A fresh state, but for its next serial and the charges of its run.
fn raised(alloc: Global, serial: u64, charged: u64) -> Result<State, OutOfMemory>
    requires serial { serial ≤ 2 ^ 62 }
    requires charged { charged ≤ 2 ^ 30 }
    ensures { IfOk result (λ state. IsSound state.rows) }
{
    let changes = vec![in alloc; Change::NextSerial(serial)]?;
    let mut state = State::fresh(alloc, "s3cr3t")?;
    state.apply(changes, 0, charged);
    Ok(state)
}

/// Whether a state gives a command this reply, and changes nothing.
fn gives(alloc: Global, state: &State, command: &Command, reply: &Reply) -> Option<bool>
    requires sound { IsSound state.now.rows }
    requires moment { command.now.moment ≤ 2 ^ 62 }
{
    let decision = decide(alloc, state, command).ok()?;
    let same = &decision.reply == reply && decision.changes.is_empty();
    drop(decision);
    Some(same)
}

/// A secret of root, a scope and a charge.
type Opened<'a> = (&'a str, Option<&'a str>, u64);

/// The same of a command that opens a session by these.
fn gives_opened(alloc: Global, state: &State, opened: Opened<'_>, reply: &Reply) -> Option<bool>
    requires { IsSound state.now.rows }
{
    let (secret, scope, charge) = opened;
    let command = opening(alloc, secret, scope, charge).ok()?;
    let given = gives(alloc, state, &command, reply);
    drop(command);
    given
}

/// Whether it refuses such a command so.
fn refuses(alloc: Global, state: &State, opened: Opened<'_>, why: Refusal) -> bool
    requires { IsSound state.now.rows }
{
    let reply = Reply::Refused(why);
    let given = gives_opened(alloc, state, opened, &reply);
    drop(reply);
    given == Some(true)
}

/// Whether a state whose run is full and that has no serial left refuses in order: each cause is told before the
/// ones below it.
fn refuses_in_order(alloc: Global, state: &State) -> bool
    requires { IsSound state.now.rows }
{
    let nobody = Some("nobody");
    refuses(
        alloc,
        state,
        ("s3cr3u", nobody, 512),
        Refusal::RunFull {
            charged: 1_073_741_824,
            charge: 512,
        },
    ) && refuses(alloc, state, ("s3cr3u", nobody, 0), Refusal::InvalidClient)
        && refuses(alloc, state, ("s3cr3t", nobody, 0), Refusal::InvalidScope)
        && refuses(
            alloc,
            state,
            ("s3cr3t", None, 0),
            Refusal::Limit {
                quantity: Quantity::NextSerial,
                bound: 4_611_686_018_427_387_904,
            },
        )
}

#[test]
fn refusals_come_in_their_order(rt: HostRuntime) -> Result<(), Fail> {
    let state = raised(rt.alloc(), 1 << 62, RUN_BOUND)?;
    let refused = refuses_in_order(rt.alloc(), &state);
    drop(state);
    assert!(rt; refused);
    let printed = Quantity::NextSerial.to_string(rt.alloc())?;
    assert_eq!(rt; printed.as_str(), "next_serial");
    Ok(())
}

//! The state that commands set up.
ghost use Rattle.std.specs.Prelude.{◌≡◌, ◌≤◌, ◌^◌, All, IfErr, IfOk, IsErrOf, OnErr, OnOk};
ghost use Rattle.pol_commands.specs.declared.reply.Answer.{Answer};
ghost use Rattle.pol_commands.specs.declared.reply.Reply.TheVariants.{Answered, Refused};
ghost use Rattle.pol_machine.specs.Machine.{next_state, reply_of};
ghost use Rattle.pol_state.specs.Changes.{changes_between};
ghost use Rattle.pol_state.specs.Rows.{fresh_state};
ghost use Rattle.pol_state.specs.Sound.{IsSound};
ghost use Rattle.pol_init.specs.SetUp as spec;

use pol_commands::{Command, Refusal, Reply};
use pol_content::Change;
use pol_machine::{Decision, decide};
use pol_rules::rules::Undone;
use pol_state::State;
use pol_types::OutOfMemory;
use std::alloc::Global;

/// Why a state isn't set up.
#[derive(Drop)]
pub enum SetupRefused {
    /// The command at this index, counted from 0, is refused, and none before it is.
    Refused { index: u64, refusal: Refusal },
    OutOfMemory,
}

/// The state to which these commands lead from the fresh state of this root secret, each in the state that those before
/// it have led to. The first that is refused ends it.
pub fn set_up_state(
    alloc: Global,
    root_secret: &str,
    commands: &[Command],
) -> Result<State, SetupRefused>
    requires { All (λ command. command.moment ≤ 2 ^ 62) commands.now }
    ensures rows { IfOk result (λ state. state.rows ≡ spec.state_after (fresh_state root_secret.now) commands.now) }
    ensures sound { IfOk result (λ state. IsSound state.rows) }
    ensures passed { OnOk result (spec.AllPass (fresh_state root_secret.now) commands.now) }
    ensures refused { IfErr result (spec.IsSetupRefused (fresh_state root_secret.now) commands.now) }
{
    let Ok(mut state) = State::fresh(alloc, root_secret) else {
        return Err(SetupRefused::OutOfMemory);
    };
    match pass_all(alloc, &mut state, commands) {
        Ok(()) => Ok(state),
        Err(refused) => {
            drop(state);
            Err(refused)
        }
    }
}

/// Does the commands one after the other, up to the first that is refused.
fn pass_all(alloc: Global, state: &mut State, commands: &[Command]) -> Result<(), SetupRefused>
    requires sound { IsSound state.old.rows }
    requires moments { All (λ command. command.moment ≤ 2 ^ 62) commands.now }
    ensures rows { OnOk result (state.new.rows ≡ spec.state_after state.old.rows commands.now) }
    ensures sound { IsSound state.new.rows }
    ensures passed { OnOk result (spec.AllPass state.old.rows commands.now) }
    ensures refused { IfErr result (spec.IsSetupRefused state.old.rows commands.now) }
{
    for (index, command) in commands.iter().enumerate() {
        if let Err(undone) = pass(alloc, state, command) {
            return Err(refused_at(index, undone));
        }
    }
    Ok(())
}

/// Why no state is set up, where the command at this index wasn't done.
fn refused_at(index: usize, undone: Undone) -> SetupRefused
    ensures { result ≡ spec.refused_at index undone }
{
    match undone {
        Undone::Refused(refusal) => SetupRefused::Refused {
            index: index as u64,
            refusal,
        },
        Undone::OutOfMemory => SetupRefused::OutOfMemory,
    }
}

/// Decides a command, and makes its changes where it isn't refused.
fn pass(alloc: Global, state: &mut State, command: &Command) -> Result<(), Undone>
    requires sound { IsSound state.old.rows }
    requires moment { command.now.moment ≤ 2 ^ 62 }
    ensures passed { OnOk result (spec.IsPassed state.old.rows command.now) }
    ensures rows { OnOk result (state.new.rows ≡ next_state state.old.rows command.now) }
    ensures sound { IsSound state.new.rows }
    ensures refused { IfErr result (spec.IsUndone state.old.rows command.now) }
{
    let Ok(decision) = decide(alloc, state, command) else {
        return Err(Undone::OutOfMemory);
    };
    let Decision { reply, changes } = decision;
    let changes = Vec::from(changes);
    match reply {
        Reply::Answered(answer) => {
            drop(answer);
            make(state, command, changes)
        }
        Reply::Refused(why) => {
            drop(changes);
            Err(Undone::Refused(why))
        }
    }
}

/// Makes the changes of a command that isn't refused.
fn make(state: &mut State, command: &Command, changes: Vec<Change>) -> Result<(), Undone>
    requires sound { IsSound state.old.rows }
    requires moment { command.now.moment ≤ 2 ^ 62 }
    requires passed { spec.IsPassed state.old.rows command.now }
    requires changes { changes.items ≡ changes_between state.old.rows (next_state state.old.rows command.now) }
    ensures rows { OnOk result (state.new.rows ≡ next_state state.old.rows command.now) }
    ensures sound { IsSound state.new.rows }
    ensures unallocated { IfErr result (λ undone. undone ≡ Undone.OutOfMemory) }
{
    let time = state.time().max(command.moment);
    let Ok(()) = state.reserve(changes.as_slice()) else {
        drop(changes);
        return Err(Undone::OutOfMemory);
    };
    state.apply(changes, time, command.charge);
    Ok(())
}

//! Asking for leave to use objects.
ghost use Rattle.std.specs.Prelude.{◌≡◌, ◌↔◌, ◌≤◌, ◌^◌, ℕ, List, IfOk, IsTrue};
ghost use Rattle.pol_commands.specs.declared.command.Action.TheVariants.{Access};
ghost use Rattle.pol_shared.specs.Accessed.{AccessesIn, IsAccess, RendersUnlessAllowed, access_allowed};
ghost use Rattle.pol_shared.specs.Held.{HoldsImages};

use crate::{Accessed, Permit, Render, Shared, Stepped};
use pol_commands::{Action, Answer, Command, Reply};
use pol_disk::Disk;
use pol_locations::Location;
use pol_tokens::Act;
use pol_types::OutOfMemory;
use std::alloc::Global;

/// Renders a reply as another rendering does, unless it allows an access.
#[derive(Drop)]
struct UnlessAllowed<'a, R> {
    render: &'a R,
}

impl<'a, R: Render> Render for UnlessAllowed<'a, R> {
    type Out = Option<R::Out>;

    ghost renders = { λ unless reply out. RendersUnlessAllowed (R.renders unless.render.now) reply out };

    fn render(&self, alloc: Global, reply: &Reply) -> Result<Option<R::Out>, OutOfMemory> {
        if is_allowed(reply) {
            return Ok(None);
        }
        Ok(Some(self.render.render(alloc, reply)?))
    }
}

/// Whether a reply allows an access.
fn is_allowed(reply: &Reply) -> bool
    ensures { IsTrue result ↔ (reply.now ≡ access_allowed) }
{
    matches!(reply, Reply::Answered(Answer::AccessAllowed))
}

impl<D: Disk> Shared<D> {
    /// Asks what a storage token opens. Where it opens the path for the act, leave is given by a permit that names the
    /// place of this access, and the reply isn't rendered. Any other answer is as that of `step`. Nothing has changed
    /// where memory is wanting. An access changes no row, so nothing is written for it.
    pub fn access<R: Render>(
        &mut self,
        alloc: Global,
        command: Command,
        render: &R,
    ) -> Accessed<R::Out>
        requires moment { command.moment ≤ 2 ^ 62 }
        requires access { IsAccess command.action }
        ensures accesses { AccessesIn (R.renders render.now) self.old.seen self.new.seen command result }
        ensures untouched { self.new.journal ≡ self.old.journal }
        ensures images { (opening : List (List ℕ))
            → HoldsImages D.seen D.may_leave D.clock D.left_since D.fault_count opening self.old
            → HoldsImages D.seen D.may_leave D.clock D.left_since D.fault_count opening self.new }
        ensures opening { self.new.journal.opening ≡ self.old.journal.opening }
        ensures kept { D.fault_count self.old.journal.disk ≤ D.fault_count self.new.journal.disk }
    {
        let Ok((path, act)) = asked(&command) else {
            drop(command);
            return Accessed::Stepped(Stepped::OutOfMemory);
        };
        match self.step(alloc, command, &UnlessAllowed { render }) {
            Stepped::Done { place, out: None } => Accessed::Allowed {
                permit: Permit::new(place, path, act),
            },
            Stepped::Done {
                place,
                out: Some(out),
            } => Accessed::Stepped(Stepped::Done { place, out }),
            Stepped::RunFull {
                charged,
                charge,
                out: Some(out),
            } => Accessed::Stepped(Stepped::RunFull {
                charged,
                charge,
                out,
            }),
            Stepped::RunFull { out: None, .. } => unreachable!(),
            Stepped::JournalFull { .. } => unreachable!(),
            Stepped::Unknown => unreachable!(),
            Stepped::DiskFault => unreachable!(),
            Stepped::OutOfMemory => Accessed::Stepped(Stepped::OutOfMemory),
        }
    }
}

/// The path and the act that an access asks for.
fn asked(command: &Command) -> Result<(Location, Act), OutOfMemory>
    requires { IsAccess command.now.action }
    ensures { IfOk result (λ asked. command.now.action ≡ Access asked.0 asked.1) }
{
    let Action::Access { path, act } = &command.action else {
        unreachable!()
    };
    Ok((path.clone()?, *act))
}

ghost use Rattle.std.specs.Prelude.{IfOk};
ghost use Rattle.pol_commands.specs.declared.reply.Reply.{Reply};

use pol_machine::Reply;
use pol_types::OutOfMemory;
use std::alloc::Global;

/// What makes something of a reply before its command is done, such as the text of an answer, so that no want of
/// memory follows a change.
pub trait Render {
    type Out: Drop;

    // What the rendering of a reply is.
    ghost renders: { Self → Reply → Self.Out → Type 0 };

    /// Renders a reply.
    fn render(&self, alloc: Global, reply: &Reply) -> Result<Self::Out, OutOfMemory>
        ensures { IfOk result (λ out. renders self.now reply.now out) };
}

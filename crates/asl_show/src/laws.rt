//! Laws of the texts, as functions that do nothing: what each ensures is the law.
ghost use Rattle.std.specs.Prelude.{◌≡◌, ◌↔◌, ℕ, [], Some};
ghost use Rattle.asl_code.specs.declared.image.Image.{Image};
ghost use Rattle.asl_code.specs.Verified.{IsVerified};
ghost use Rattle.asl_lock_forest.specs.Holding.{Request};
ghost use Rattle.asl_machine.specs.declared.reply.Reply.{Reply};
ghost use Rattle.asl_machine.specs.State.{State};
ghost use Rattle.asl_machine.specs.Asked.{request_at};
ghost use Rattle.asl_machine.specs.Run.{IsReached};
ghost use Rattle.asl_machine.specs.Step.{Step};
ghost use Rattle.asl_show.specs.Nodes.{clash_lines, node_lines};

use asl_machine::{
    held_nodes_are_there, reached_holdings_are_lawful, requests_are_granted, runs_reach,
};

/// In each state that a verified program reaches, a thread that asks for something has no line of a clash exactly where its
/// next step is granted.
pub fn clashes_are_blocks()
    ensures { (image : Image) (count : ℕ) (s new : State) (t : ℕ) (request : Request) (reply : Reply) → IsVerified image → IsReached image count s
        → request_at image s t ≡ Some request → Step image s t reply new
        → ((node_lines image.classes s (clash_lines s t request) ≡ []) ↔ (reply ≡ Reply.Ran)) }
{
    requests_are_granted();
    held_nodes_are_there();
    reached_holdings_are_lawful();
    runs_reach();
}

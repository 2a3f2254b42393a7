//! Laws of what threads ask for, as functions that do nothing: what each ensures is the law.
ghost use Rattle.std.specs.Prelude.{◌≡◌, ◌≢◌, ◌↔◌, ℕ, Some};
ghost use Rattle.asl_code.specs.declared.image.Image.{Image};
ghost use Rattle.asl_code.specs.Verified.{IsVerified};
ghost use Rattle.asl_mode_lanes.specs.declared.mode.Mode.TheVariants.{NL};
ghost use Rattle.asl_lock_forest.specs.declared.node.Node.{Node};
ghost use Rattle.asl_lock_forest.specs.Holding.{Request, CanGrant, asked};
ghost use Rattle.asl_lock_forest.specs.Request.{IsRefusedRequest};
ghost use Rattle.asl_machine.specs.declared.reply.Reply.{Reply};
ghost use Rattle.asl_machine.specs.State.{State};
ghost use Rattle.asl_machine.specs.Asked.{request_at};
ghost use Rattle.asl_machine.specs.Nodes.{IsNode};
ghost use Rattle.asl_machine.specs.Run.{IsReached};
ghost use Rattle.asl_machine.specs.Step.{Step};

/// The next step of a thread that asks for something is granted exactly where nobody is in its way, and blocked exactly where
/// somebody is. In each state that a verified program reaches the nodes that are asked for are there.
pub fn requests_are_granted()
    ensures granted { (image : Image) (s new : State) (t : ℕ) (request : Request) (reply : Reply) → request_at image s t ≡ Some request
        → Step image s t reply new → (reply ≡ Reply.Ran) ↔ CanGrant s.holding t request }
    ensures blocked { (image : Image) (s new : State) (t : ℕ) (request : Request) (reply : Reply) → request_at image s t ≡ Some request
        → Step image s t reply new → (reply ≡ Reply.Blocked) ↔ IsRefusedRequest s.holding t request }
    ensures there { (image : Image) (count : ℕ) (s : State) (t : ℕ) (request : Request) (node : Node) → IsVerified image
        → IsReached image count s → request_at image s t ≡ Some request → asked request node ≢ NL
        → IsNode image.classes s.objects node }
{}

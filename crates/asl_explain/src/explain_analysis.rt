//! What is known of a tree: its lowering, its classes, the classes that its functions store to, and what its regions need.
ghost use Rattle.std.specs.Prelude.{◌≡◌, ◌≤◌, IfOk, IfErr};
ghost use Rattle.asl_syntax.specs.AstView.{tree_of};
ghost use Rattle.asl_lower.specs.Lowered.{IsLowering};
ghost use Rattle.asl_points_to.specs.Classes.{AreClasses};
ghost use Rattle.asl_emitter.specs.Refused.{IsAccepted, IsRefusedInference};
ghost use Rattle.asl_explain.specs.Analysed.{IsAnalysed};

use asl_backward_flow::{Flow, needed};
use asl_emitter::InferFault;
use asl_lock_expr::{LinkContext, Writes, writes};
use asl_lower::{Lowering, lower};
use asl_points_to::{Classes, classes};
use asl_syntax::Ast;
use std::alloc::Global;

/// The lowering of a tree, with its classes and its flow.
#[derive(Drop)]
pub struct ExplainAnalysis {
    pub lowering: Lowering,
    pub classes: Classes,
    pub writes: Writes,
    pub flow: Flow,
    /// The most operations that a path keeps, at most eight.
    pub k_limit: u32,
}

/// What is known of a tree, with paths of at most `k` operations.
pub fn analyse(alloc: Global, ast: &Ast<'_>, k: u32) -> Result<ExplainAnalysis, InferFault>
    requires { k ≤ 8 }
    ensures lowering { IfOk result (λ a. IsLowering (tree_of ast.now) a.lowering) }
    ensures classes { IfOk result (λ a. AreClasses a.lowering a.classes) }
    ensures few { IfOk result (λ a. a.classes.count ≤ 1024) }
    ensures analysed { IfOk result IsAnalysed }
    ensures k_limit { IfOk result (λ a. a.k_limit ≡ k) }
    ensures accepted { IfOk result (λ _. IsAccepted (tree_of ast.now) k) }
    ensures refused { IfErr result (IsRefusedInference (tree_of ast.now) k) }
{
    let lowering = lower(alloc, ast)?;
    let classes = classes(alloc, &lowering)?;
    let flow = needed(alloc, &lowering, &classes, k)?;
    let writes = writes(alloc, &lowering, &classes)?;
    Ok(ExplainAnalysis {
        lowering,
        classes,
        writes,
        flow,
        k_limit: k,
    })
}

impl ExplainAnalysis {
    ghost use Rattle.std.specs.Prelude.{◌≡◌};
    ghost use Rattle.asl_lock_expr.specs.Links.{view};
    ghost use Rattle.asl_lock_expr.specs.LinksView.{seen};
    ghost use Rattle.asl_lock_expr.specs.Stores.{stores};

    /// What links of a function are read against.
    pub fn view(&self, function: u16) -> LinkContext<'_>
        ensures { seen result ≡ view self.now.classes (stores self.now.writes) self.now.k_limit function }
    {
        LinkContext {
            classes: &self.classes,
            writes: &self.writes,
            k_limit: self.k_limit as usize,
            function,
        }
    }
}

//! Where expressions begin, and what is read of a tree without a walk.
ghost use Rattle.std.specs.Prelude.{◌≡◌, ℕ, List};
ghost use Rattle.jc_typed.specs.declared.nodes.Node.{Node};
ghost use Rattle.jc_exprs_spec.specs.Typing.{aimed, operator_of, postfix_op};
ghost use Rattle.jc_exprs_forms.specs.Forms.{starts};
ghost use Rattle.jc_exprs_starts.specs.Wanted.{WantedBelow, wanted_in};
ghost use Rattle.jc_exprs_targets.specs.Targets.{TargetBelow, has_target};
ghost use Rattle.jc_exprs_worlds.specs.Scenes.{world_of};

use jc_exprs_targets::TargetAt;
use jc_exprs_worlds::{Scene, at};
use jc_rules::Place;
use jc_tree::{AssignOp, BinaryOp, Expr, PostfixOp};
use jc_types::Op;

/// Where an expression begins.
#[tactic(auto, using(jc_exprs_forms::proofs::ByForms::by_start))]
pub fn start_of(scene: &Scene, e: &Expr) -> Place
    ensures { result ≡ starts (world_of scene.now) e.now }
{
    match e {
        Expr::Assign { target, .. } => start_of(scene, target.get()),
        Expr::Conditional { test, .. } => start_of(scene, test.get()),
        Expr::Chain { first, .. } => start_of(scene, first.get()),
        Expr::Prefix { first, .. } => at(scene, first.at),
        Expr::Cast { at: n, .. } => at(scene, *n),
        Expr::Postfix { of, .. } => start_of(scene, of.get()),
        Expr::Field { of, .. } => start_of(scene, of.get()),
        Expr::Call { of, .. } => start_of(scene, of.get()),
        Expr::Index { of, .. } => start_of(scene, of.get()),
        Expr::InnerNew { of, .. } => start_of(scene, of.get()),
        Expr::Literal { at: n, .. } => at(scene, *n),
        Expr::This { at: n } => at(scene, *n),
        Expr::SuperField { at: n, .. } => at(scene, *n),
        Expr::SuperCall { at: n, .. } => at(scene, *n),
        Expr::Paren { at: n, .. } => at(scene, *n),
        Expr::Name(name) => at(scene, name.at),
        Expr::Invoke { name, .. } => at(scene, name.at),
        Expr::New { at: n, .. } => at(scene, *n),
        Expr::ClassLiteral { .. } => at(scene, 0),
        Expr::VoidLiteral { at: n } => at(scene, *n),
        Expr::OuterThis { first, .. } => at(scene, first.at),
    }
}

/// The operator of a compound assignment.
pub fn operator_of(op: AssignOp) -> Option<BinaryOp>
    ensures { result ≡ operator_of op }
{
    match op {
        AssignOp::Plain => None,
        AssignOp::Plus => Some(BinaryOp::Plus),
        AssignOp::Minus => Some(BinaryOp::Minus),
        AssignOp::Times => Some(BinaryOp::Times),
        AssignOp::Divide => Some(BinaryOp::Divide),
        AssignOp::Remainder => Some(BinaryOp::Remainder),
        AssignOp::And => Some(BinaryOp::And),
        AssignOp::Or => Some(BinaryOp::Or),
        AssignOp::Xor => Some(BinaryOp::Xor),
        AssignOp::ShiftLeft => Some(BinaryOp::ShiftLeft),
        AssignOp::ShiftRight => Some(BinaryOp::ShiftRight),
        AssignOp::ShiftRightZero => Some(BinaryOp::ShiftRightZero),
    }
}

/// What an operator behind a variable does.
pub fn postfix_op(op: PostfixOp) -> Op
    ensures { result ≡ postfix_op op }
{
    match op {
        PostfixOp::Increment => Op::Increment,
        PostfixOp::Decrement => Op::Decrement,
    }
}

/// The type, in the arena, to which a value is assigned.
pub fn aimed(variable: Option<TargetAt>) -> Option<u32>
    ensures value { (ns : List Node) → wanted_in ns result ≡ aimed (has_target ns variable) }
    ensures below { (n : ℕ) → TargetBelow n variable → WantedBelow n result }
{
    match variable {
        None => None,
        Some(variable) => Some(variable.ty),
    }
}

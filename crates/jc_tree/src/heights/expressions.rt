//! Heights of expressions, creations and initialisers.
ghost use Rattle.std.specs.Prelude.{◌≡◌, map};
ghost use Rattle.jc_tree.specs.Heights.{array_height, capped, creation_height, effect_height, expr_height, in_some, init_height, most, operand_height, skip_height, skip_part_height};

use super::types::{args_height, base_height, class_height, type_height};
use crate::{ArrayInit, Creation, Expr, Init, Operand, Skip, SkipPart};

#[cycle(skips_heights)]
#[tactic(auto, using(crate::proofs::Opened::skips))]
pub fn skip_part_height(node: &SkipPart) -> u32
    ensures { result ≡ capped (skip_part_height node.now) }
{
    match node {
        SkipPart::Inner(it) => skip_height(it),
        SkipPart::Token(_) => 0,
    }
}

#[cycle(skips_heights)]
#[tactic(auto, using(crate::proofs::Opened::skips))]
pub fn skip_parts_height(nodes: &[SkipPart]) -> u32
    ensures { result ≡ capped (most (map skip_part_height nodes.now)) }
{
    let mut most = 0;
    for node in nodes {
        most = most.max(skip_part_height(node));
    }
    most
}

#[cycle(skips_heights)]
#[tactic(auto, using(crate::proofs::Opened::skips))]
pub fn skip_height(node: &Skip) -> u32
    ensures { result ≡ capped (skip_height node.now) }
{
    skip_parts_height(node.parts.slice()).saturating_add(1)
}

pub fn skips_height(nodes: &[Skip]) -> u32
    ensures { result ≡ capped (most (map skip_height nodes.now)) }
{
    let mut most = 0;
    for node in nodes {
        most = most.max(skip_height(node));
    }
    most
}

#[cycle(expressions_heights)]
#[tactic(auto, using(crate::proofs::Opened::expressions))]
pub fn expr_height(node: &Expr) -> u32
    ensures { result ≡ capped (expr_height node.now) }
{
    match node {
        Expr::Assign { target, value, .. } => expr_height(target.get())
            .max(expr_height(value.get()))
            .saturating_add(1),
        Expr::Conditional {
            test,
            then,
            otherwise,
        } => expr_height(test.get())
            .max(expr_height(then.get()))
            .max(expr_height(otherwise.get()))
            .saturating_add(1),
        Expr::Chain { first, rest } => expr_height(first.get())
            .max(operands_height(rest.slice()))
            .saturating_add(1),
        Expr::Prefix { operand, .. } => expr_height(operand.get()).saturating_add(1),
        Expr::Cast { ty, operand, .. } => type_height(ty.get())
            .max(expr_height(operand.get()))
            .saturating_add(1),
        Expr::Postfix { of, .. } => expr_height(of.get()).saturating_add(1),
        Expr::Field { of, .. } => expr_height(of.get()).saturating_add(1),
        Expr::Call {
            of,
            type_args,
            actuals,
            ..
        } => expr_height(of.get())
            .max(args_height(type_args.get().slice()))
            .max(exprs_height(actuals.get().slice()))
            .saturating_add(1),
        Expr::Index { of, index } => expr_height(of.get())
            .max(expr_height(index.get()))
            .saturating_add(1),
        Expr::InnerNew { of, creation } => expr_height(of.get())
            .max(creation_height(creation.get()))
            .saturating_add(1),
        Expr::Literal { .. } => 1,
        Expr::This { .. } => 1,
        Expr::SuperField { .. } => 1,
        Expr::SuperCall {
            type_args,
            actuals,
            ..
        } => args_height(type_args.get().slice())
            .max(exprs_height(actuals.get().slice()))
            .saturating_add(1),
        Expr::Paren { inner, .. } => expr_height(inner.get()).saturating_add(1),
        Expr::Name(_) => 1,
        Expr::Invoke { actuals, .. } => exprs_height(actuals.get().slice()).saturating_add(1),
        Expr::New { creation, .. } => creation_height(creation.get()).saturating_add(1),
        Expr::ClassLiteral { ty } => type_height(ty.get()).saturating_add(1),
        Expr::VoidLiteral { .. } => 1,
        Expr::OuterThis { .. } => 1,
    }
}

#[cycle(expressions_heights)]
#[tactic(auto, using(crate::proofs::Opened::expressions))]
pub fn exprs_height(nodes: &[Expr]) -> u32
    ensures { result ≡ capped (most (map expr_height nodes.now)) }
{
    let mut most = 0;
    for node in nodes {
        most = most.max(expr_height(node));
    }
    most
}

#[tactic(auto, using(crate::proofs::Opened::expressions))]
pub fn effect_height(node: &Expr) -> u32
    ensures { result ≡ capped (effect_height node.now) }
{
    match node {
        Expr::Assign { target, value, .. } => expr_height(target.get()).max(expr_height(
            value.get(),
        )),
        Expr::Prefix { operand, .. } => expr_height(operand.get()),
        _ => expr_height(node),
    }
}

pub fn effects_height(nodes: &[Expr]) -> u32
    ensures { result ≡ capped (most (map effect_height nodes.now)) }
{
    let mut most = 0;
    for node in nodes {
        most = most.max(effect_height(node));
    }
    most
}

pub fn some_expr_height(node: &Option<Expr>) -> u32
    ensures { result ≡ capped (in_some expr_height node.now) }
{
    match node {
        Some(node) => expr_height(node),
        None => 0,
    }
}

#[cycle(expressions_heights)]
#[tactic(auto, using(crate::proofs::Opened::expressions))]
pub fn operand_height(node: &Operand) -> u32
    ensures { result ≡ capped (operand_height node.now) }
{
    match node {
        Operand::Binary { right, .. } => expr_height(right),
        Operand::InstanceOf { ty } => type_height(ty.get()),
    }
}

#[cycle(expressions_heights)]
#[tactic(auto, using(crate::proofs::Opened::expressions))]
pub fn operands_height(nodes: &[Operand]) -> u32
    ensures { result ≡ capped (most (map operand_height nodes.now)) }
{
    let mut most = 0;
    for node in nodes {
        most = most.max(operand_height(node));
    }
    most
}

#[cycle(expressions_heights)]
#[tactic(auto, using(crate::proofs::Opened::expressions))]
pub fn creation_height(node: &Creation) -> u32
    ensures { result ≡ capped (creation_height node.now) }
{
    match node {
        Creation::Object {
            class,
            actuals,
            body,
            ..
        } => class_height(class)
            .max(exprs_height(actuals.slice()))
            .max(skips_height(body.slice())),
        Creation::Sized {
            element,
            first,
            more,
            ..
        } => base_height(element)
            .max(expr_height(first.get()))
            .max(exprs_height(more.slice())),
        Creation::Initialised { element, init, .. } => base_height(element).max(array_height(init)),
    }
}

#[cycle(expressions_heights)]
#[tactic(auto, using(crate::proofs::Opened::expressions))]
pub fn array_height(node: &ArrayInit) -> u32
    ensures { result ≡ capped (array_height node.now) }
{
    inits_height(node.inits.slice()).saturating_add(1)
}

#[cycle(expressions_heights)]
#[tactic(auto, using(crate::proofs::Opened::expressions))]
pub fn init_height(node: &Init) -> u32
    ensures { result ≡ capped (init_height node.now) }
{
    match node {
        Init::Value(it) => expr_height(it),
        Init::Nested(it) => array_height(it),
    }
}

#[cycle(expressions_heights)]
#[tactic(auto, using(crate::proofs::Opened::expressions))]
pub fn inits_height(nodes: &[Init]) -> u32
    ensures { result ≡ capped (most (map init_height nodes.now)) }
{
    let mut most = 0;
    for node in nodes {
        most = most.max(init_height(node));
    }
    most
}

pub fn some_init_height(node: &Option<Init>) -> u32
    ensures { result ≡ capped (in_some init_height node.now) }
{
    match node {
        Some(node) => init_height(node),
        None => 0,
    }
}

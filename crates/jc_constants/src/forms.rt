//! Expressions by their forms.
ghost use Rattle.std.specs.Prelude.{◌≡◌, ◌∷◌, ◌++◌, [], Some, map, IfOk};
ghost use Rattle.jc_declares.specs.Constants.{formed_expr, as_expr, literal_constant, binary_operator, conditional, chained, prefixed, cast_formed, all_parts, constant_of};
ghost use Rattle.jc_looking.specs.Members.{known_in};
ghost use Rattle.jc_looking.specs.Scenes.{IsScene};
ghost use Rattle.jc_written.specs.At.{reading_at};
ghost use Rattle.jc_constants.specs.Forms.{formed_operand};

use crate::casts::cast_target;
use crate::literals::literal_constant;
use crate::names::name_expr;
use crate::operators::{binary_operator, prefix_operators};
use jc_looking::Scene;
use jc_rules::{Boxed, Items, WantOfMemory};
use jc_tree::{BinaryOp, Expr, Init, Literal, Operand};
use jc_types::{ConstantExpr, ConstantPart, ConstantType, Op};
use jc_written::Reading;
use std::alloc::Global;

fn boxed(alloc: Global, expr: ConstantExpr) -> Result<Option<Boxed<ConstantExpr>>, WantOfMemory>
    ensures { IfOk result (λ it. it ≡ Some expr) }
{
    Ok(Some(Boxed::new(alloc, expr)?))
}

fn literal(alloc: Global, value: &Literal) -> Result<Option<Boxed<ConstantExpr>>, WantOfMemory>
    ensures { IfOk result (λ it. it ≡ as_expr (literal_constant value.now)) }
{
    match literal_constant(alloc, value)? {
        Some(constant) => boxed(alloc, ConstantExpr::Literal(constant)),
        None => Ok(None),
    }
}

/// A conditional, where each of its parts has the forms of a constant expression.
fn conditional(
    alloc: Global,
    test: Option<Boxed<ConstantExpr>>,
    then: Option<Boxed<ConstantExpr>>,
    other: Option<Boxed<ConstantExpr>>,
) -> Result<Option<Boxed<ConstantExpr>>, WantOfMemory>
    ensures { IfOk result (λ it. it ≡ conditional test then other) }
{
    let (Some(test), Some(then), Some(other)) = (test, then, other) else {
        return Ok(None);
    };
    boxed(alloc, ConstantExpr::Conditional { test, then, other })
}

fn chained(
    alloc: Global,
    first: Option<Boxed<ConstantExpr>>,
    rest: Option<Items<ConstantPart>>,
) -> Result<Option<Boxed<ConstantExpr>>, WantOfMemory>
    ensures { IfOk result (λ it. it ≡ chained first rest) }
{
    let (Some(first), Some(rest)) = (first, rest) else {
        return Ok(None);
    };
    boxed(alloc, ConstantExpr::Chain { first, rest })
}

fn prefixed(
    alloc: Global,
    ops: Option<Items<Op>>,
    operand: Option<Boxed<ConstantExpr>>,
) -> Result<Option<Boxed<ConstantExpr>>, WantOfMemory>
    ensures { IfOk result (λ it. it ≡ prefixed ops operand) }
{
    let (Some(ops), Some(of)) = (ops, operand) else {
        return Ok(None);
    };
    boxed(alloc, ConstantExpr::Prefix { ops, of })
}

fn cast_formed(
    alloc: Global,
    to: Option<ConstantType>,
    operand: Option<Boxed<ConstantExpr>>,
) -> Result<Option<Boxed<ConstantExpr>>, WantOfMemory>
    ensures { IfOk result (λ it. it ≡ cast_formed to operand) }
{
    let (Some(to), Some(of)) = (to, operand) else {
        return Ok(None);
    };
    boxed(alloc, ConstantExpr::Cast { to, of })
}

fn part_with(op: BinaryOp, operand: Boxed<ConstantExpr>) -> ConstantPart
    ensures { result ≡ record { op = binary_operator op; operand = operand } }
{
    ConstantPart {
        op: binary_operator(op),
        operand: operand.into_inner(),
    }
}

/// An operator of a chain with what stands on its right.
#[cycle(forms)]
#[tactic(auto, using(crate::proofs::FormsByParts::operands))]
fn part(
    alloc: Global,
    scene: &Scene,
    reading: Reading,
    file: u64,
    operand: &Operand,
) -> Result<Option<ConstantPart>, WantOfMemory>
    requires { IsScene scene.now.declared.heads.now scene.now.declared.index.now scene.now.imports.now }
    ensures { let H = scene.now.declared.heads.now in let K = known_in scene.now.known.now in IfOk result (λ it. it ≡ (formed_operand H K file (reading_at H K reading) operand.now).part) }
{
    match operand {
        Operand::Binary { op, right } => {
            match constant_expr(alloc, scene, reading, file, right)? {
                Some(right) => Ok(Some(part_with(*op, right))),
                None => Ok(None),
            }
        }
        Operand::InstanceOf { .. } => Ok(None),
    }
}

#[cycle(forms)]
#[tactic(auto, using(crate::proofs::Behind::behinds))]
fn parts(
    alloc: Global,
    scene: &Scene,
    reading: Reading,
    file: u64,
    operands: &[Operand],
) -> Result<Option<Items<ConstantPart>>, WantOfMemory>
    requires { IsScene scene.now.declared.heads.now scene.now.declared.index.now scene.now.imports.now }
    ensures { let H = scene.now.declared.heads.now in let K = known_in scene.now.known.now in IfOk result (λ it. it ≡ all_parts (map (formed_operand H K file (reading_at H K reading)) operands.now)) }
{
    let mut list = Items::new(alloc);
    for operand in operands {
        match part(alloc, scene, reading, file, operand)? {
            Some(part) => list.push(part)?,
            None => return Ok(None),
        }
    }
    Ok(Some(list))
}

/// An expression as a constant one, if it has the forms of one.
#[cycle(forms)]
#[tactic(auto, using(crate::proofs::FormsByParts::expressions))]
fn constant_expr(
    alloc: Global,
    scene: &Scene,
    reading: Reading,
    file: u64,
    tree: &Expr,
) -> Result<Option<Boxed<ConstantExpr>>, WantOfMemory>
    requires { IsScene scene.now.declared.heads.now scene.now.declared.index.now scene.now.imports.now }
    ensures { let H = scene.now.declared.heads.now in let K = known_in scene.now.known.now in IfOk result (λ it. it ≡ (formed_expr H K file (reading_at H K reading) tree.now).constant) }
{
    match tree {
        Expr::Conditional {
            test,
            then,
            otherwise,
        } => {
            let test = constant_expr(alloc, scene, reading, file, test.get())?;
            let then = constant_expr(alloc, scene, reading, file, then.get())?;
            let other = constant_expr(alloc, scene, reading, file, otherwise.get())?;
            conditional(alloc, test, then, other)
        }
        Expr::Chain { first, rest } => {
            let first = constant_expr(alloc, scene, reading, file, first.get())?;
            let rest = parts(alloc, scene, reading, file, rest.slice())?;
            chained(alloc, first, rest)
        }
        Expr::Prefix {
            first,
            more,
            operand,
        } => {
            let ops = prefix_operators(alloc, *first, more.get().slice())?;
            let operand = constant_expr(alloc, scene, reading, file, operand.get())?;
            prefixed(alloc, ops, operand)
        }
        Expr::Cast { ty, operand, .. } => {
            let to = cast_target(alloc, scene, reading, file, ty.get())?;
            let operand = constant_expr(alloc, scene, reading, file, operand.get())?;
            cast_formed(alloc, to, operand)
        }
        Expr::Literal { value, .. } => literal(alloc, value),
        Expr::Paren { inner, .. } => constant_expr(alloc, scene, reading, file, inner.get()),
        Expr::Field { .. } => name_expr(alloc, file, tree),
        Expr::Name(_) => name_expr(alloc, file, tree),
        Expr::Assign { .. }
        | Expr::Postfix { .. }
        | Expr::Call { .. }
        | Expr::Index { .. }
        | Expr::InnerNew { .. }
        | Expr::This { .. }
        | Expr::SuperField { .. }
        | Expr::SuperCall { .. }
        | Expr::Invoke { .. }
        | Expr::New { .. }
        | Expr::ClassLiteral { .. }
        | Expr::VoidLiteral { .. }
        | Expr::OuterThis { .. } => Ok(None),
    }
}

/// The constant form of an initialiser in a file, if it has one.
#[tactic(auto, using(crate::proofs::FormsByParts::initialisers))]
pub fn constant_of(
    alloc: Global,
    scene: &Scene,
    reading: Reading,
    file: u64,
    init: &Option<Init>,
) -> Result<Option<Boxed<ConstantExpr>>, WantOfMemory>
    requires { IsScene scene.now.declared.heads.now scene.now.declared.index.now scene.now.imports.now }
    ensures { let H = scene.now.declared.heads.now in let K = known_in scene.now.known.now in IfOk result (λ it. it ≡ constant_of H K file (reading_at H K reading) init.now) }
{
    match init {
        None => Ok(None),
        Some(Init::Value(value)) => constant_expr(alloc, scene, reading, file, value),
        Some(Init::Nested(_)) => Ok(None),
    }
}

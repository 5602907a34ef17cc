//! The values of constant expressions (JLS 15.28).
ghost use Rattle.std.specs.Prelude.{◌≡◌, IfOk, map};
ghost use Rattle.jc_exprs_parts_spec.specs.Constants.{chained, constant_named, valued};
ghost use Rattle.jc_exprs_worlds.specs.Scenes.{IsWorldly, world_of};
ghost use Rattle.jc_exprs_known_fields.specs.Rounds.{right_of};

use crate::naming::constant_named;
use crate::operators::{cast_of, conditional, joined, prefixes};
use jc_exprs_constants::copy_constant;
use jc_exprs_worlds::Scene;
use jc_rules::WantOfMemory;
use jc_types::{Constant, ConstantExpr, ConstantPart};
use std::alloc::Global;

// The further operands of a chain.
#[cycle(values)]
fn chained(
    alloc: Global,
    scene: &Scene,
    first: Option<Constant>,
    parts: &[ConstantPart],
) -> Result<Option<Constant>, WantOfMemory>
    requires { IsWorldly scene.now }
    ensures { IfOk result (λ c. c ≡ chained first (map (right_of (constant_named (world_of scene.now))) parts.now)) }
{
    let mut value = first;
    for part in parts {
        let right = valued(alloc, scene, &part.operand)?;
        value = joined(alloc, part.op, value, right)?;
    }
    Ok(value)
}

/// The value of a constant expression, where the fields that it names have one.
#[cycle(values)]
#[tactic(auto, using(crate::proofs::ValuesByParts::parts))]
pub fn valued(
    alloc: Global,
    scene: &Scene,
    expr: &ConstantExpr,
) -> Result<Option<Constant>, WantOfMemory>
    requires { IsWorldly scene.now }
    ensures { IfOk result (λ c. c ≡ valued (constant_named (world_of scene.now)) expr.now) }
{
    match expr {
        ConstantExpr::Literal(constant) => Ok(Some(copy_constant(alloc, constant)?)),
        ConstantExpr::Name { parts, .. } => constant_named(alloc, scene, parts.slice()),
        ConstantExpr::Cast { to, of } => {
            let value = valued(alloc, scene, of.get())?;
            Ok(cast_of(*to, value))
        }
        ConstantExpr::Prefix { ops, of } => {
            let value = valued(alloc, scene, of.get())?;
            Ok(prefixes(ops.slice(), value))
        }
        ConstantExpr::Chain { first, rest } => {
            let value = valued(alloc, scene, first.get())?;
            chained(alloc, scene, value, rest.slice())
        }
        ConstantExpr::Conditional { test, then, other } => {
            let test = valued(alloc, scene, test.get())?;
            let then = valued(alloc, scene, then.get())?;
            let other = valued(alloc, scene, other.get())?;
            conditional(alloc, test, then, other)
        }
    }
}

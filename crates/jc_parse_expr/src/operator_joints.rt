//! What is built of a first value that was read and of what was read behind it.
ghost use Rattle.jc_parse_expr.specs.Nodes.{binary_node, cast_node, chain_node, prefix_node};
ghost use Rattle.jc_parse_expr.specs.After.{After, AllThree, Alone, Both, Built, Chosen, Joined, LeftAlone, assign_right, pair_of};
ghost use Rattle.std.specs.Prelude.{◌≡◌, Ok, IfOk};

use crate::measured::Measured;
use crate::operator_nodes::{
    assign_node, binary_node, cast_node, chain_node, conditional_node, prefix_node,
};
use jc_reading::{Found, Halt, without};
use jc_rules::{Items, WantOfMemory};
use jc_tree::{AssignOp, BinaryOp, Expr, Operand, PrefixOp, TypeTree};
use std::alloc::Global;

/// A value with nothing behind it.
pub fn alone<'a>(first: Found<'a, Measured<Expr>>, left: usize) -> Found<'a, Measured<Expr>>
    ensures { Alone first.entry left (Ok result) }
{
    Found {
        value: first.value,
        rest: first.rest,
        left: first.left.min(left),
    }
}

/// An assignment, or its target alone.
pub fn with_value<'a>(
    alloc: Global,
    target: Found<'a, Measured<Expr>>,
    more: Result<Found<'a, (AssignOp, Measured<Expr>)>, Halt>,
) -> Result<Found<'a, Measured<Expr>>, Halt>
    ensures { After assign_right target.entry more.entry result }
{
    match more {
        Ok(more) => assigning(alloc, target, more),
        Err(Halt::Stopped(left)) => Ok(alone(target, left)),
        Err(Halt::WantOfMemory) => Err(without(target, Halt::WantOfMemory)),
    }
}

/// An assignment.
fn assigning<'a>(
    alloc: Global,
    target: Found<'a, Measured<Expr>>,
    more: Found<'a, (AssignOp, Measured<Expr>)>,
) -> Result<Found<'a, Measured<Expr>>, Halt>
    ensures { Built assign_right target.entry more.entry result }
{
    let left = target.left.min(more.left);
    let rest = more.rest;
    let (op, value) = more.value;
    match assign_node(alloc, target.value, op, value) {
        Ok(value) => Ok(Found { value, rest, left }),
        Err(WantOfMemory) => Err(Halt::WantOfMemory),
    }
}

/// An assignment operator with the value behind it.
pub fn with_right<'a>(
    op: Found<'a, AssignOp>,
    more: Result<Found<'a, Measured<Expr>>, Halt>,
) -> Result<Found<'a, (AssignOp, Measured<Expr>)>, Halt>
    ensures { Joined pair_of op.entry more.entry result }
{
    match more {
        Ok(more) => Ok(Found {
            value: (op.value, more.value),
            rest: more.rest,
            left: op.left.min(more.left),
        }),
        Err(Halt::Stopped(left)) => Err(Halt::Stopped(op.left.min(left))),
        Err(Halt::WantOfMemory) => Err(Halt::WantOfMemory),
    }
}

/// A conditional, or its test alone.
pub fn with_branches<'a>(
    alloc: Global,
    test: Found<'a, Measured<Expr>>,
    then: Found<'a, Measured<Expr>>,
    otherwise: Result<Found<'a, Measured<Expr>>, Halt>,
) -> Result<Found<'a, Measured<Expr>>, Halt>
    ensures { Chosen test.entry then.entry otherwise.entry result }
{
    match otherwise {
        Ok(otherwise) => choosing(alloc, test, then, otherwise),
        Err(halt) => left_alone(test, reach_of(then), halt),
    }
}

/// A conditional.
fn choosing<'a>(
    alloc: Global,
    test: Found<'a, Measured<Expr>>,
    then: Found<'a, Measured<Expr>>,
    otherwise: Found<'a, Measured<Expr>>,
) -> Result<Found<'a, Measured<Expr>>, Halt>
    ensures { AllThree test.entry then.entry otherwise.entry result }
{
    let left = test.left.min(then.left.min(otherwise.left));
    let rest = otherwise.rest;
    match conditional_node(alloc, test.value, then.value, otherwise.value) {
        Ok(value) => Ok(Found { value, rest, left }),
        Err(WantOfMemory) => Err(Halt::WantOfMemory),
    }
}

/// A test with no second branch behind what was read of the first.
fn left_alone<'a>(
    test: Found<'a, Measured<Expr>>,
    reach: usize,
    halt: Halt,
) -> Result<Found<'a, Measured<Expr>>, Halt>
    ensures { LeftAlone test.entry reach halt result }
{
    match halt {
        Halt::Stopped(left) => Ok(alone(test, reach.min(left))),
        Halt::WantOfMemory => Err(without(test, Halt::WantOfMemory)),
    }
}

/// How far a value was read that is left out.
fn reach_of<T: Drop>(found: Found<'_, T>) -> usize
    ensures { result ≡ found.entry.left }
{
    found.left
}

/// A first operand with the operators behind it.
pub fn with_operands<'a>(
    alloc: Global,
    first: Found<'a, Measured<Expr>>,
    more: Found<'a, Measured<Items<Operand>>>,
) -> Result<Found<'a, Measured<Expr>>, WantOfMemory>
    ensures { IfOk result (λ r. Both chain_node first.entry more.entry r) }
{
    let left = first.left.min(more.left);
    let rest = more.rest;
    match chain_node(alloc, first.value, more.value) {
        Ok(value) => Ok(Found { value, rest, left }),
        Err(fault) => Err(fault),
    }
}

/// An operator with its operand.
pub fn with_operand<'a>(
    op: Found<'a, BinaryOp>,
    more: Result<Found<'a, Measured<Expr>>, Halt>,
) -> Result<Found<'a, Measured<Operand>>, Halt>
    ensures { Joined binary_node op.entry more.entry result }
{
    match more {
        Ok(more) => Ok(Found {
            value: binary_node(op.value, more.value),
            rest: more.rest,
            left: op.left.min(more.left),
        }),
        Err(Halt::Stopped(left)) => Err(Halt::Stopped(op.left.min(left))),
        Err(Halt::WantOfMemory) => Err(Halt::WantOfMemory),
    }
}

/// Prefix operators with their operand.
pub fn with_prefixes<'a>(
    alloc: Global,
    first: PrefixOp,
    ops: Found<'a, Items<PrefixOp>>,
    more: Result<Found<'a, Measured<Expr>>, Halt>,
) -> Result<Found<'a, Measured<Expr>>, Halt>
    ensures { Joined (prefix_node first) ops.entry more.entry result }
{
    match more {
        Ok(more) => prefixing(alloc, first, ops, more),
        Err(Halt::Stopped(left)) => {
            let left = ops.left.min(left);
            Err(without(ops, Halt::Stopped(left)))
        }
        Err(Halt::WantOfMemory) => Err(without(ops, Halt::WantOfMemory)),
    }
}

/// An operand behind prefix operators.
fn prefixing<'a>(
    alloc: Global,
    first: PrefixOp,
    ops: Found<'a, Items<PrefixOp>>,
    more: Found<'a, Measured<Expr>>,
) -> Result<Found<'a, Measured<Expr>>, Halt>
    ensures { Built (prefix_node first) ops.entry more.entry result }
{
    let left = ops.left.min(more.left);
    let rest = more.rest;
    match prefix_node(alloc, first, ops.value, more.value) {
        Ok(value) => Ok(Found { value, rest, left }),
        Err(WantOfMemory) => Err(Halt::WantOfMemory),
    }
}

/// A cast with its operand.
pub fn with_type<'a>(
    alloc: Global,
    at: u32,
    ty: Found<'a, TypeTree>,
    more: Result<Found<'a, Measured<Expr>>, Halt>,
) -> Result<Found<'a, Measured<Expr>>, Halt>
    ensures { Joined (cast_node at) ty.entry more.entry result }
{
    match more {
        Ok(more) => casting(alloc, at, ty, more),
        Err(Halt::Stopped(left)) => {
            let left = ty.left.min(left);
            Err(without(ty, Halt::Stopped(left)))
        }
        Err(Halt::WantOfMemory) => Err(without(ty, Halt::WantOfMemory)),
    }
}

/// An operand behind the type that it is cast to.
fn casting<'a>(
    alloc: Global,
    at: u32,
    ty: Found<'a, TypeTree>,
    more: Found<'a, Measured<Expr>>,
) -> Result<Found<'a, Measured<Expr>>, Halt>
    ensures { Built (cast_node at) ty.entry more.entry result }
{
    let left = ty.left.min(more.left);
    let rest = more.rest;
    match cast_node(alloc, at, ty.value, more.value) {
        Ok(value) => Ok(Found { value, rest, left }),
        Err(WantOfMemory) => Err(Halt::WantOfMemory),
    }
}

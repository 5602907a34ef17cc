//! Operators between values (JLS 15.17 to 15.22).
ghost use Rattle.jc_pending.specs.Frames.{Rest};
ghost use Rattle.jc_pending.specs.Leads.{Coherent, Leads};
ghost use Rattle.jc_pending.specs.Values.{join_value};
ghost use Rattle.jc_pending.specs.declared.expressions.JoinTodo.TheVariants as j;

use jc_acts::one_value;
use jc_numbers::operated;
use jc_pending::{
    CallTask, ClassTask, ExpressionTask, Given, JoinTodo, Next, NothingToValue, call, class,
    expression, join, operand, wait,
};
use jc_rules::Items;
use jc_running::Value;
use jc_typed::{Nodes, TypedProgram};
use jc_values::{Halt, Running, given};
use std::alloc::Global;

// The string of an operand as a string once more, so that no null is left (JLS 15.18.1).
fn text_again(
    alloc: Global,
    program: &TypedProgram,
    nodes: &Nodes,
    depth: u64,
    v: Value,
    run: &mut Running,
) -> Result<Next, Halt>
    ensures { (k : Rest) → Coherent k → Leads program.now nodes.now depth k result run.new (k.value (join_value program.now nodes.now depth j.TextAgain v run.old.units run.old.state)) }
{
    let args = one_value(alloc, v)?;
    Ok(Next::Then(
        wait!(
            NothingToValue,
            NothingToValue::Call {
                method: program.known.printing.of_object,
                args,
                types: Items::new(alloc),
            }
        ),
        class!(ClassTask::Ready {
            class: program.known.string
        }),
    ))
}

/// What follows a value between the operands of an operator (JLS 15.7.3, 15.18.1).
#[tactic(auto, using(jc_pending::proofs::Halting::of_value))]
pub fn join_value(
    alloc: Global,
    program: &TypedProgram,
    nodes: &Nodes,
    depth: u64,
    todo: JoinTodo,
    v: Value,
    run: &mut Running,
) -> Result<Next, Halt>
    ensures { (k : Rest) → Coherent k → Leads program.now nodes.now depth k result run.new (k.value (join_value program.now nodes.now depth todo v run.old.units run.old.state)) }
{
    match todo {
        JoinTodo::Link { joint, left, right } => Ok(Next::Then(
            join!(JoinTodo::Joining { joint, right }),
            expression!(ExpressionTask::Steps {
                steps: left,
                value: v
            }),
        )),
        JoinTodo::Joining { joint, right } => {
            Ok(Next::Begin(expression!(ExpressionTask::Joined {
                joint,
                left: v,
                right
            })))
        }
        JoinTodo::Operate { op, left } => Ok(Next::Give(Given::Value(given(
            alloc,
            program,
            run,
            operated(op, left, v),
        )?))),
        JoinTodo::TextAgain => text_again(alloc, program, nodes, depth, v, run),
        JoinTodo::ConcatRight { of, right } => Ok(Next::Then(
            join!(JoinTodo::ConcatText { of, left: v }),
            operand!(right),
        )),
        JoinTodo::ConcatText { of, left } => Ok(Next::Then(
            join!(JoinTodo::Concat { left }),
            expression!(ExpressionTask::Text { of, value: v }),
        )),
        JoinTodo::Concat { left } => Ok(Next::Begin(call!(CallTask::Direct {
            method: program.known.printing.concat,
            receiver: left,
            args: one_value(alloc, v)?,
            types: Items::new(alloc),
        }))),
    }
}

//! The forms of expressions, each with what it begins (JLS 15).
ghost use Rattle.jc_pending.specs.Frames.{Rest};
ghost use Rattle.jc_pending.specs.Leads.{Coherent, Leads};
ghost use Rattle.jc_pending.specs.Values.{expression_task};
ghost use Rattle.jc_pending.specs.declared.expressions.ExpressionTask.TheVariants as x;
ghost use Rattle.jc_typed.specs.declared.expressions.ExprForm.TheVariants as f;

use crate::listing::operands_back;
use jc_acts::{closed_type, forget, method_class, new_array};
use jc_layout::field_class;
use jc_meaning::Target;
use jc_pending::{
    ClassTask, ExpressionTask, Given, JoinTodo, Next, NothingToValue, TargetTask, TargetToValue,
    Task, Todo, UseTodo, ValueTask, ValuesToValue, class, expression, join, operand, operands,
    used, wait,
};
use jc_places::{expr_node, links_node, operand_node, steps_node};
use jc_rules::Place;
use jc_running::Value;
use jc_typed::{ExprForm, ExprNode, Joint, LinksNode, Nodes, OperandNode, StepsNode, TypedProgram};
use jc_values::{Halt, Running, get_element, get_field, local};
use std::alloc::Global;

// An array of as many elements as there are, which it gets one after the other (JLS 10.6, 15.12.4.2).
#[tactic(auto, using(jc_pending::proofs::Halting::of_value))]
fn array_of(
    alloc: Global,
    program: &TypedProgram,
    nodes: &Nodes,
    depth: u64,
    place: Place,
    ty: u32,
    elements: u32,
    run: &mut Running,
) -> Result<Next, Halt>
    ensures { (k : Rest) → Coherent k → Leads program.now nodes.now depth k result run.new (k.value (expression_task program.now nodes.now depth (x.Form place ty (f.ArrayOf elements)) run.old.units run.old.state)) }
{
    let elements = operands_back(alloc, nodes, elements)?;
    let closed = closed_type(alloc, nodes, ty, run)?;
    let array = new_array(alloc, program, &closed, elements.len() as u64, run)?;
    Ok(Next::Begin(Task::Value(ValueTask::FillWith {
        array,
        at: 0,
        elements,
    })))
}

// The forms that have no parts, or are lists of operands.
#[tactic(auto, using(jc_pending::proofs::Halting::of_value))]
fn variable(
    program: &TypedProgram,
    nodes: &Nodes,
    depth: u64,
    place: Place,
    ty: u32,
    n: u32,
    run: &mut Running,
) -> Result<Next, Halt>
    ensures { (k : Rest) → Coherent k → Leads program.now nodes.now depth k result run.new (k.value (expression_task program.now nodes.now depth (x.Form place ty (f.Local n)) run.old.units run.old.state)) }
{
    Ok(Next::Give(Given::Value(local(run, n as u64)?)))
}

// No value says anything of the captured variables of operands that aren't evaluated.
#[tactic(auto, using(jc_pending::proofs::Halting::of_value, jc_pending::proofs::Idles::idles))]
fn conjunction(
    alloc: Global,
    program: &TypedProgram,
    nodes: &Nodes,
    depth: u64,
    place: Place,
    ty: u32,
    at: u32,
    from: u64,
    up_to: u64,
    run: &mut Running,
) -> Result<Next, Halt>
    ensures { (k : Rest) → Coherent k → Leads program.now nodes.now depth k result run.new (k.value (expression_task program.now nodes.now depth (x.Form place ty (f.AllOf at from up_to)) run.old.units run.old.state)) }
{
    let operands = operands_back(alloc, nodes, at)?;
    forget(alloc, program, from, up_to.saturating_sub(from), run)?;
    Ok(Next::Begin(Task::Value(ValueTask::AllTrue { operands })))
}

#[tactic(auto, using(jc_pending::proofs::Halting::of_value, jc_pending::proofs::Idles::idles))]
fn disjunction(
    alloc: Global,
    program: &TypedProgram,
    nodes: &Nodes,
    depth: u64,
    place: Place,
    ty: u32,
    at: u32,
    from: u64,
    up_to: u64,
    run: &mut Running,
) -> Result<Next, Halt>
    ensures { (k : Rest) → Coherent k → Leads program.now nodes.now depth k result run.new (k.value (expression_task program.now nodes.now depth (x.Form place ty (f.AnyOf at from up_to)) run.old.units run.old.state)) }
{
    let operands = operands_back(alloc, nodes, at)?;
    forget(alloc, program, from, up_to.saturating_sub(from), run)?;
    Ok(Next::Begin(Task::Value(ValueTask::AnyTrue { operands })))
}

// What a form of expression begins with.
#[tactic(auto, using(jc_pending::proofs::Halting::of_value))]
fn form(
    alloc: Global,
    program: &TypedProgram,
    nodes: &Nodes,
    depth: u64,
    place: Place,
    ty: u32,
    form: ExprForm,
    run: &mut Running,
) -> Result<Next, Halt>
    ensures { (k : Rest) → Coherent k → Leads program.now nodes.now depth k result run.new (k.value (expression_task program.now nodes.now depth (x.Form place ty form) run.old.units run.old.state)) }
{
    match form {
        ExprForm::Constant { before, value, .. } => Ok(Next::Then(
            wait!(ValuesToValue, ValuesToValue::Constant { value }),
            operands!(before),
        )),
        ExprForm::Null => Ok(Next::Give(Given::Value(Value::Null))),
        ExprForm::Local { local: n } => variable(program, nodes, depth, place, ty, n, run),
        ExprForm::This => variable(program, nodes, depth, place, ty, 0, run),
        ExprForm::StaticField { before, field, .. } => Ok(Next::Then(
            wait!(ValuesToValue, ValuesToValue::Static { field }),
            operands!(before),
        )),
        ExprForm::Field { of, field } => {
            Ok(Next::Then(used!(UseTodo::Field { field }), operand!(of)))
        }
        ExprForm::Element { array, index } => {
            Ok(Next::Then(used!(UseTodo::Index { index }), operand!(array)))
        }
        ExprForm::Length { array } => Ok(Next::Then(used!(UseTodo::Length), operand!(array))),
        ExprForm::Prefix { ops, of } => {
            Ok(Next::Then(used!(UseTodo::Prefix { ops }), operand!(of)))
        }
        ExprForm::Chain { first, links } => {
            Ok(Next::Begin(expression!(ExpressionTask::Chain { first, links })))
        }
        ExprForm::AllOf {
            operands,
            from,
            up_to,
        } => conjunction(
            alloc, program, nodes, depth, place, ty, operands, from, up_to, run,
        ),
        ExprForm::AnyOf {
            operands,
            from,
            up_to,
        } => disjunction(
            alloc, program, nodes, depth, place, ty, operands, from, up_to, run,
        ),
        ExprForm::InstanceOf { of, to } => {
            Ok(Next::Then(used!(UseTodo::InstanceOf { to }), operand!(of)))
        }
        ExprForm::Conditional {
            test,
            then,
            other,
            from,
            up_to,
        } => Ok(Next::Then(
            used!(UseTodo::Branches {
                then,
                other,
                from,
                up_to
            }),
            operand!(test),
        )),
        ExprForm::Assign {
            variable,
            value,
            store,
        } => Ok(Next::Then(
            wait!(TargetToValue, TargetToValue::Assign { value, store }),
            Task::Target(TargetTask::Variable { at: variable }),
        )),
        ExprForm::Compound {
            variable,
            joint,
            left,
            right,
            into,
        } => Ok(Next::Then(
            wait!(
                TargetToValue,
                TargetToValue::Compound {
                    place,
                    ty,
                    joint,
                    left,
                    right,
                    into
                }
            ),
            Task::Target(TargetTask::Variable { at: variable }),
        )),
        ExprForm::Change {
            variable,
            op,
            from,
            into,
            is_prefix,
        } => Ok(Next::Then(
            wait!(
                TargetToValue,
                TargetToValue::Step {
                    place,
                    ty,
                    op,
                    from,
                    into,
                    is_prefix
                }
            ),
            Task::Target(TargetTask::Variable { at: variable }),
        )),
        ExprForm::Call {
            kind,
            receiver,
            method,
            type_args,
            args,
            ..
        } => Ok(Next::Then(
            wait!(
                ValuesToValue,
                ValuesToValue::Args {
                    kind,
                    method,
                    type_args,
                    args
                }
            ),
            operands!(receiver),
        )),
        ExprForm::New {
            constructor,
            args,
            ..
        } => Ok(Next::Then(
            wait!(
                NothingToValue,
                NothingToValue::Create {
                    ty,
                    method: constructor,
                    args
                }
            ),
            class!(ClassTask::Ready {
                class: method_class(program, constructor)
            }),
        )),
        ExprForm::NewArray { lengths } => Ok(Next::Then(
            wait!(ValuesToValue, ValuesToValue::NewArray { ty }),
            operands!(lengths),
        )),
        ExprForm::ArrayOf { elements } => {
            array_of(alloc, program, nodes, depth, place, ty, elements, run)
        }
        ExprForm::Cast { of, steps, .. } => Ok(Next::Then(
            used!(UseTodo::Steps { steps }),
            operand!(of),
        )),
    }
}

// An expression as a node, which spends a unit as it is entered.
fn enter(
    program: &TypedProgram,
    nodes: &Nodes,
    depth: u64,
    at: u32,
    run: &mut Running,
) -> Result<Next, Halt>
    ensures { (k : Rest) → Coherent k → Leads program.now nodes.now depth k result run.new (k.value (expression_task program.now nodes.now depth (x.Expr at) run.old.units run.old.state)) }
{
    if depth == 0 {
        return Err(Halt::Going);
    }
    if run.units == 0 {
        return Err(Halt::Going);
    }
    run.units -= 1;
    Ok(Next::Deeper(Todo::LeaveValue, expression!(ExpressionTask::Act { at })))
}

// What an expression does: its form, and then what is done with its value.
fn act(
    program: &TypedProgram,
    nodes: &Nodes,
    depth: u64,
    at: u32,
    run: &mut Running,
) -> Result<Next, Halt>
    ensures { (k : Rest) → Coherent k → Leads program.now nodes.now depth k result run.new (k.value (expression_task program.now nodes.now depth (x.Act at) run.old.units run.old.state)) }
{
    match expr_node(nodes, at) {
        ExprNode::Missing => Err(Halt::Wrong),
        ExprNode::Expr {
            place,
            ty,
            captures,
            form,
        } => Ok(Next::Then(
            used!(UseTodo::Noted {
                place,
                ty,
                captures,
                form
            }),
            expression!(ExpressionTask::Form { place, ty, form }),
        )),
    }
}

fn value_of(
    program: &TypedProgram,
    nodes: &Nodes,
    depth: u64,
    at: u32,
    run: &mut Running,
) -> Result<Next, Halt>
    ensures { (k : Rest) → Coherent k → Leads program.now nodes.now depth k result run.new (k.value (expression_task program.now nodes.now depth (x.Operand at) run.old.units run.old.state)) }
{
    match operand_node(nodes, at) {
        OperandNode::Missing => Err(Halt::Wrong),
        OperandNode::Operand { of, steps, .. } => Ok(Next::Then(
            used!(UseTodo::Steps { steps }),
            expression!(ExpressionTask::Expr { at: of }),
        )),
    }
}

// One step after the other (JLS 5.1, 5.5).
fn steps(
    program: &TypedProgram,
    nodes: &Nodes,
    depth: u64,
    at: u32,
    value: Value,
    run: &mut Running,
) -> Result<Next, Halt>
    ensures { (k : Rest) → Coherent k → Leads program.now nodes.now depth k result run.new (k.value (expression_task program.now nodes.now depth (x.Steps at value) run.old.units run.old.state)) }
{
    match steps_node(nodes, at) {
        StepsNode::Empty => Ok(Next::Give(Given::Value(value))),
        StepsNode::More { before, last } => Ok(Next::Then(
            used!(UseTodo::Step { step: last }),
            expression!(ExpressionTask::Steps {
                steps: before,
                value
            }),
        )),
    }
}

// A chain of operators groups to the left (JLS 15.7.3).
fn chain(
    program: &TypedProgram,
    nodes: &Nodes,
    depth: u64,
    first: u32,
    links: u32,
    run: &mut Running,
) -> Result<Next, Halt>
    ensures { (k : Rest) → Coherent k → Leads program.now nodes.now depth k result run.new (k.value (expression_task program.now nodes.now depth (x.Chain first links) run.old.units run.old.state)) }
{
    match links_node(nodes, links) {
        LinksNode::Empty => Ok(Next::Begin(operand!(first))),
        LinksNode::More {
            before,
            joint,
            left,
            right,
        } => Ok(Next::Then(
            join!(JoinTodo::Link { joint, left, right }),
            expression!(ExpressionTask::Chain {
                first,
                links: before
            }),
        )),
    }
}

// One operator, whose left value is there.
fn joined(
    program: &TypedProgram,
    nodes: &Nodes,
    depth: u64,
    joint: Joint,
    value: Value,
    right: u32,
    run: &mut Running,
) -> Result<Next, Halt>
    ensures { (k : Rest) → Coherent k → Leads program.now nodes.now depth k result run.new (k.value (expression_task program.now nodes.now depth (x.Joined joint value right) run.old.units run.old.state)) }
{
    match joint {
        Joint::Operator(op) => Ok(Next::Then(
            join!(JoinTodo::Operate { op, left: value }),
            operand!(right),
        )),
        Joint::Concat {
            left: left_as,
            right: right_as,
        } => Ok(Next::Then(
            join!(JoinTodo::ConcatRight {
                of: right_as,
                right
            }),
            expression!(ExpressionTask::Text { of: left_as, value }),
        )),
    }
}

// The value of a variable.
#[tactic(auto, using(jc_pending::proofs::Halting::of_value))]
fn read(
    alloc: Global,
    program: &TypedProgram,
    nodes: &Nodes,
    depth: u64,
    target: Target,
    run: &mut Running,
) -> Result<Next, Halt>
    ensures { (k : Rest) → Coherent k → Leads program.now nodes.now depth k result run.new (k.value (expression_task program.now nodes.now depth (x.Read target) run.old.units run.old.state)) }
{
    match target {
        Target::ToLocal(n) => Ok(Next::Give(Given::Value(local(run, n as u64)?))),
        Target::ToStatic(field) => Ok(Next::Begin(expression!(ExpressionTask::Static { field }))),
        Target::ToField(of, field) => Ok(Next::Give(Given::Value(get_field(
            alloc, program, run, field, of,
        )?))),
        Target::ToElement(array, index) => Ok(Next::Give(Given::Value(get_element(
            alloc, program, run, array, index,
        )?))),
    }
}

/// What the computation of an expression begins with.
pub fn expression_task(
    alloc: Global,
    program: &TypedProgram,
    nodes: &Nodes,
    depth: u64,
    task: ExpressionTask,
    run: &mut Running,
) -> Result<Next, Halt>
    ensures { (k : Rest) → Coherent k → Leads program.now nodes.now depth k result run.new (k.value (expression_task program.now nodes.now depth task run.old.units run.old.state)) }
{
    match task {
        ExpressionTask::Expr { at } => enter(program, nodes, depth, at, run),
        ExpressionTask::Act { at } => act(program, nodes, depth, at, run),
        ExpressionTask::Form {
            place,
            ty,
            form: of,
        } => { form(alloc, program, nodes, depth, place, ty, of, run) }
        ExpressionTask::Operand { at } => value_of(program, nodes, depth, at, run),
        ExpressionTask::Steps { steps: at, value } => {
            steps(program, nodes, depth, at, value, run)
        }
        ExpressionTask::Chain { first, links } => chain(program, nodes, depth, first, links, run),
        ExpressionTask::Joined { joint, left, right } => {
            joined(program, nodes, depth, joint, left, right, run)
        }
        ExpressionTask::Text { of, value } => Ok(Next::Then(
            wait!(NothingToValue, NothingToValue::Text { of, value }),
            class!(ClassTask::Ready {
                class: program.known.string
            }),
        )),
        ExpressionTask::Read { target } => read(alloc, program, nodes, depth, target, run),
        ExpressionTask::Static { field } => Ok(Next::Then(
            wait!(NothingToValue, NothingToValue::Static { field }),
            class!(ClassTask::Ready {
                class: field_class(&program.table, field)
            }),
        )),
        ExpressionTask::Test { test } => Ok(Next::Then(
            wait!(ValuesToValue, ValuesToValue::Test),
            operands!(test),
        )),
    }
}

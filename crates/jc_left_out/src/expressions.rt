//! Left-out forms of expressions.
ghost use Rattle.std.specs.Prelude.{◌≡◌};
ghost use Rattle.jc_left_out.specs.LeftOut.{in_each, in_some_of, least_of, left_out_of_array, left_out_of_creation, left_out_of_expr, left_out_of_init, left_out_of_operand};

use crate::least::earlier;
use jc_tree::{
    ArrayInit, Creation, Expr, Init, Operand, first_offset_of_class, first_offset_of_expr,
    first_offset_of_type,
};

#[cycle(expressions_left_out)]
#[tactic(auto, using(crate::proofs::LeftOutRules::expressions))]
pub fn in_expr(node: &Expr) -> Option<u32>
    ensures { result ≡ least_of (left_out_of_expr node.now) }
{
    match node {
        Expr::Assign { target, value, .. } => earlier(in_expr(target.get()), in_expr(value.get())),
        Expr::Conditional {
            test,
            then,
            otherwise,
        } => earlier(
            in_expr(test.get()),
            earlier(in_expr(then.get()), in_expr(otherwise.get())),
        ),
        Expr::Chain { first, rest } => earlier(in_expr(first.get()), in_operands(rest.slice())),
        Expr::Prefix { operand, .. } => in_expr(operand.get()),
        Expr::Cast { operand, .. } => in_expr(operand.get()),
        Expr::Postfix { of, .. } => in_expr(of.get()),
        Expr::Field { of, .. } => in_expr(of.get()),
        Expr::Call { of, actuals, .. } => {
            earlier(in_expr(of.get()), in_exprs(actuals.get().slice()))
        }
        Expr::Index { of, index } => earlier(in_expr(of.get()), in_expr(index.get())),
        Expr::InnerNew { of, creation } => earlier(
            Some(first_offset_of_expr(of.get())),
            earlier(in_expr(of.get()), in_creation(creation.get())),
        ),
        Expr::Literal { .. } => None,
        Expr::This { .. } => None,
        Expr::SuperField { .. } => None,
        Expr::SuperCall { actuals, .. } => in_exprs(actuals.get().slice()),
        Expr::Paren { inner, .. } => in_expr(inner.get()),
        Expr::Name(_) => None,
        Expr::Invoke { actuals, .. } => in_exprs(actuals.get().slice()),
        Expr::New { creation, .. } => in_creation(creation.get()),
        Expr::ClassLiteral { ty } => Some(first_offset_of_type(ty.get())),
        Expr::VoidLiteral { at } => Some(*at),
        Expr::OuterThis { first, .. } => Some(first.at),
    }
}

#[cycle(expressions_left_out)]
#[tactic(auto, using(crate::proofs::LeftOutRules::expressions))]
pub fn in_exprs(nodes: &[Expr]) -> Option<u32>
    ensures { result ≡ least_of (in_each left_out_of_expr nodes.now) }
{
    let mut first = None;
    for node in nodes {
        first = earlier(first, in_expr(node));
    }
    first
}

#[cycle(expressions_left_out)]
#[tactic(auto, using(crate::proofs::LeftOutRules::expressions))]
pub fn in_operand(node: &Operand) -> Option<u32>
    ensures { result ≡ least_of (left_out_of_operand node.now) }
{
    match node {
        Operand::Binary { right, .. } => in_expr(right),
        Operand::InstanceOf { .. } => None,
    }
}

#[cycle(expressions_left_out)]
#[tactic(auto, using(crate::proofs::LeftOutRules::expressions))]
pub fn in_operands(nodes: &[Operand]) -> Option<u32>
    ensures { result ≡ least_of (in_each left_out_of_operand nodes.now) }
{
    let mut first = None;
    for node in nodes {
        first = earlier(first, in_operand(node));
    }
    first
}

#[cycle(expressions_left_out)]
#[tactic(auto, using(crate::proofs::LeftOutRules::expressions))]
pub fn in_creation(node: &Creation) -> Option<u32>
    ensures { result ≡ least_of (left_out_of_creation node.now) }
{
    match node {
        Creation::Object {
            class,
            actuals,
            body,
            ..
        } => match body.slice().first() {
            None => in_exprs(actuals.slice()),
            Some(_) => earlier(
                Some(first_offset_of_class(class)),
                in_exprs(actuals.slice()),
            ),
        },
        Creation::Sized { first, more, .. } => {
            earlier(in_expr(first.get()), in_exprs(more.slice()))
        }
        Creation::Initialised { init, .. } => in_array(init),
    }
}

#[cycle(expressions_left_out)]
#[tactic(auto, using(crate::proofs::LeftOutRules::expressions))]
pub fn in_array(node: &ArrayInit) -> Option<u32>
    ensures { result ≡ least_of (left_out_of_array node.now) }
{
    in_inits(node.inits.slice())
}

#[cycle(expressions_left_out)]
#[tactic(auto, using(crate::proofs::LeftOutRules::expressions))]
pub fn in_init(node: &Init) -> Option<u32>
    ensures { result ≡ least_of (left_out_of_init node.now) }
{
    match node {
        Init::Value(it) => in_expr(it),
        Init::Nested(it) => in_array(it),
    }
}

#[cycle(expressions_left_out)]
#[tactic(auto, using(crate::proofs::LeftOutRules::expressions))]
pub fn in_inits(nodes: &[Init]) -> Option<u32>
    ensures { result ≡ least_of (in_each left_out_of_init nodes.now) }
{
    let mut first = None;
    for node in nodes {
        first = earlier(first, in_init(node));
    }
    first
}

pub fn in_some_expr(node: &Option<Expr>) -> Option<u32>
    ensures { result ≡ least_of (in_some_of left_out_of_expr node.now) }
{
    match node {
        Some(node) => in_expr(node),
        None => None,
    }
}

pub fn in_some_init(node: &Option<Init>) -> Option<u32>
    ensures { result ≡ least_of (in_some_of left_out_of_init node.now) }
{
    match node {
        Some(node) => in_init(node),
        None => None,
    }
}

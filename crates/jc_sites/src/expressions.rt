//! The types that expressions write.
ghost use Rattle.std.specs.Prelude.{◌≡◌, ◌++◌, [], ◌∷◌, OnOk};
ghost use Rattle.jc_declares.specs.Sites.{BodyPart, uses_in_each, use_of_arg, uses_of_expr, uses_of_init, uses_of_creation, uses_of_operand, uses_of_array, uses_of_var};
ghost use Rattle.jc_sites.specs.Joining.{placed};
ghost use Rattle.jc_sites.specs.Seen.{part_seen};

use crate::parts::{BodyPart, Spot};
use crate::places::UseSite;
use jc_rules::{Items, WantOfMemory};
use jc_tree::{ArrayInit, Creation, Expr, Init, Operand, TypeArg, Var};

/// Adds a part of a body at its place.
pub fn push_part<'a>(
    uses: &mut Items<UseSite<'a>>,
    spot: Spot,
    part: BodyPart<'a>,
) -> Result<(), WantOfMemory>
    ensures { OnOk result (uses.new ≡ uses.old ++ placed spot (part_seen part.entry ∷ [])) }
{
    uses.push(UseSite {
        class: spot.class,
        scope: spot.scope,
        is_static: spot.is_static,
        part,
    })
}

#[tactic(auto, using(crate::proofs::UsesByParts::args))]
fn push_arg<'a>(
    uses: &mut Items<UseSite<'a>>,
    spot: Spot,
    arg: &'a TypeArg,
) -> Result<(), WantOfMemory>
    ensures { OnOk result (uses.new ≡ uses.old ++ placed spot (use_of_arg arg.now)) }
{
    match arg {
        TypeArg::Exact(ty) => push_part(uses, spot, BodyPart::Type(ty)),
        TypeArg::Any { .. } => Ok(()),
        TypeArg::Extends { bound, .. } => push_part(uses, spot, BodyPart::Type(bound)),
        TypeArg::Super { bound, .. } => push_part(uses, spot, BodyPart::Type(bound)),
    }
}

#[tactic(auto, using(crate::proofs::Placed::placing))]
fn push_args<'a>(
    uses: &mut Items<UseSite<'a>>,
    spot: Spot,
    args: &'a [TypeArg],
) -> Result<(), WantOfMemory>
    ensures { OnOk result (uses.new ≡ uses.old ++ placed spot (uses_in_each use_of_arg args.now)) }
{
    for arg in args {
        push_arg(uses, spot, arg)?;
    }
    Ok(())
}

#[cycle(expression_uses)]
#[tactic(auto, using(crate::proofs::UsesByParts::expressions, crate::proofs::Placed::placing))]
fn push_creation<'a>(
    uses: &mut Items<UseSite<'a>>,
    spot: Spot,
    node: &'a Creation,
) -> Result<(), WantOfMemory>
    ensures { OnOk result (uses.new ≡ uses.old ++ placed spot (uses_of_creation node.now)) }
{
    match node {
        Creation::Object {
            class,
            diamond: true,
            actuals,
            ..
        } => {
            push_part(uses, spot, BodyPart::Diamond(class))?;
            push_exprs(uses, spot, actuals.slice())
        }
        Creation::Object {
            class,
            diamond: false,
            actuals,
            ..
        } => {
            push_part(uses, spot, BodyPart::ClassType(class))?;
            push_exprs(uses, spot, actuals.slice())
        }
        Creation::Sized {
            element,
            first,
            more,
            ..
        } => {
            push_part(uses, spot, BodyPart::Element(element))?;
            push_expr(uses, spot, first.get())?;
            push_exprs(uses, spot, more.slice())
        }
        Creation::Initialised { element, init, .. } => {
            push_part(uses, spot, BodyPart::Element(element))?;
            push_array(uses, spot, init)
        }
    }
}

/// The types that an expression writes.
#[cycle(expression_uses)]
#[tactic(auto, using(crate::proofs::UsesByParts::expressions, crate::proofs::Placed::placing))]
pub fn push_expr<'a>(
    uses: &mut Items<UseSite<'a>>,
    spot: Spot,
    node: &'a Expr,
) -> Result<(), WantOfMemory>
    ensures { OnOk result (uses.new ≡ uses.old ++ placed spot (uses_of_expr node.now)) }
{
    match node {
        Expr::Assign { target, value, .. } => {
            push_expr(uses, spot, target.get())?;
            push_expr(uses, spot, value.get())
        }
        Expr::Conditional {
            test,
            then,
            otherwise,
        } => {
            push_expr(uses, spot, test.get())?;
            push_expr(uses, spot, then.get())?;
            push_expr(uses, spot, otherwise.get())
        }
        Expr::Chain { first, rest } => {
            push_expr(uses, spot, first.get())?;
            push_operands(uses, spot, rest.slice())
        }
        Expr::Prefix { operand, .. } => push_expr(uses, spot, operand.get()),
        Expr::Cast { ty, operand, .. } => {
            push_part(uses, spot, BodyPart::Type(ty.get()))?;
            push_expr(uses, spot, operand.get())
        }
        Expr::Postfix { of, .. } => push_expr(uses, spot, of.get()),
        Expr::Field { of, .. } => push_expr(uses, spot, of.get()),
        Expr::Call {
            of,
            type_args,
            actuals,
            ..
        } => {
            push_expr(uses, spot, of.get())?;
            push_args(uses, spot, type_args.get().slice())?;
            push_exprs(uses, spot, actuals.get().slice())
        }
        Expr::Index { of, index } => {
            push_expr(uses, spot, of.get())?;
            push_expr(uses, spot, index.get())
        }
        Expr::InnerNew { of, creation } => {
            push_expr(uses, spot, of.get())?;
            push_creation(uses, spot, creation.get())
        }
        Expr::SuperCall {
            type_args,
            actuals,
            ..
        } => {
            push_args(uses, spot, type_args.get().slice())?;
            push_exprs(uses, spot, actuals.get().slice())
        }
        Expr::Paren { inner, .. } => push_expr(uses, spot, inner.get()),
        Expr::Invoke { actuals, .. } => push_exprs(uses, spot, actuals.get().slice()),
        Expr::New { creation, .. } => push_creation(uses, spot, creation.get()),
        Expr::Literal { .. } => Ok(()),
        Expr::This { .. } => Ok(()),
        Expr::SuperField { .. } => Ok(()),
        Expr::Name(_) => Ok(()),
        Expr::ClassLiteral { .. } => Ok(()),
        Expr::VoidLiteral { .. } => Ok(()),
        Expr::OuterThis { .. } => Ok(()),
    }
}

/// The types that expressions write.
#[cycle(expression_uses)]
#[tactic(auto, using(crate::proofs::UsesByParts::expressions, crate::proofs::Placed::placing))]
pub fn push_exprs<'a>(
    uses: &mut Items<UseSite<'a>>,
    spot: Spot,
    nodes: &'a [Expr],
) -> Result<(), WantOfMemory>
    ensures { OnOk result (uses.new ≡ uses.old ++ placed spot (uses_in_each uses_of_expr nodes.now)) }
{
    for node in nodes {
        push_expr(uses, spot, node)?;
    }
    Ok(())
}

#[cycle(expression_uses)]
#[tactic(auto, using(crate::proofs::UsesByParts::expressions, crate::proofs::Placed::placing))]
fn push_operands<'a>(
    uses: &mut Items<UseSite<'a>>,
    spot: Spot,
    nodes: &'a [Operand],
) -> Result<(), WantOfMemory>
    ensures { OnOk result (uses.new ≡ uses.old ++ placed spot (uses_in_each uses_of_operand nodes.now)) }
{
    for node in nodes {
        push_operand(uses, spot, node)?;
    }
    Ok(())
}

#[cycle(expression_uses)]
#[tactic(auto, using(crate::proofs::UsesByParts::expressions, crate::proofs::Placed::placing))]
fn push_operand<'a>(
    uses: &mut Items<UseSite<'a>>,
    spot: Spot,
    node: &'a Operand,
) -> Result<(), WantOfMemory>
    ensures { OnOk result (uses.new ≡ uses.old ++ placed spot (uses_of_operand node.now)) }
{
    match node {
        Operand::Binary { right, .. } => push_expr(uses, spot, right),
        Operand::InstanceOf { ty } => push_part(uses, spot, BodyPart::Type(ty.get())),
    }
}

#[cycle(expression_uses)]
#[tactic(auto, using(crate::proofs::UsesByParts::expressions, crate::proofs::Placed::placing))]
fn push_array<'a>(
    uses: &mut Items<UseSite<'a>>,
    spot: Spot,
    node: &'a ArrayInit,
) -> Result<(), WantOfMemory>
    ensures { OnOk result (uses.new ≡ uses.old ++ placed spot (uses_of_array node.now)) }
{
    push_inits(uses, spot, node.inits.slice())
}

#[cycle(expression_uses)]
#[tactic(auto, using(crate::proofs::UsesByParts::expressions, crate::proofs::Placed::placing))]
fn push_inits<'a>(
    uses: &mut Items<UseSite<'a>>,
    spot: Spot,
    nodes: &'a [Init],
) -> Result<(), WantOfMemory>
    ensures { OnOk result (uses.new ≡ uses.old ++ placed spot (uses_in_each uses_of_init nodes.now)) }
{
    for node in nodes {
        push_init(uses, spot, node)?;
    }
    Ok(())
}

#[cycle(expression_uses)]
#[tactic(auto, using(crate::proofs::UsesByParts::expressions, crate::proofs::Placed::placing))]
fn push_init<'a>(
    uses: &mut Items<UseSite<'a>>,
    spot: Spot,
    node: &'a Init,
) -> Result<(), WantOfMemory>
    ensures { OnOk result (uses.new ≡ uses.old ++ placed spot (uses_of_init node.now)) }
{
    match node {
        Init::Value(it) => push_expr(uses, spot, it),
        Init::Nested(it) => push_array(uses, spot, it),
    }
}

/// The types that the initialiser of a variable writes.
pub fn push_var<'a>(
    uses: &mut Items<UseSite<'a>>,
    spot: Spot,
    var: &'a Var,
) -> Result<(), WantOfMemory>
    ensures { OnOk result (uses.new ≡ uses.old ++ placed spot (uses_of_var var.now)) }
{
    match &var.init {
        Some(init) => push_init(uses, spot, init),
        None => Ok(()),
    }
}

/// The types that the initialisers of variables write.
#[tactic(auto, using(crate::proofs::Placed::placing))]
pub fn push_vars<'a>(
    uses: &mut Items<UseSite<'a>>,
    spot: Spot,
    vars: &'a [Var],
) -> Result<(), WantOfMemory>
    ensures { OnOk result (uses.new ≡ uses.old ++ placed spot (uses_in_each uses_of_var vars.now)) }
{
    for var in vars {
        push_var(uses, spot, var)?;
    }
    Ok(())
}

//! The items of what stands in statements.
ghost use Rattle.std.specs.Prelude.{◌≡◌, ◌++◌, ◌∷◌, [], map, OnOk};
ghost use Rattle.jc_stmts_spec.specs.Plans.{Fault, asks, ask_if, filled, flat, of_var, of_locals, of_init, jump_items, label_items, default_items, return_items};
ghost use Rattle.jc_stmts_plan.specs.Seen.{item_seen, want_seen, returns_seen, rule_of};

use crate::items::{Broken, Item, PlanItem, Want};
use crate::jumps::{Jumps, Returns};
use jc_heads::says;
use jc_rules::{Items, WantOfMemory};
use jc_tree::{Expr, ForInit, Ident, Init, LocalVars, ModifierWord, TypeTree, Var};

/// Adds an item.
pub fn push<'a>(plan: &mut Items<PlanItem<'a>>, item: Item<'a>) -> Result<(), WantOfMemory>
    ensures { OnOk result (plan.new ≡ plan.old ++ item_seen item.entry ∷ []) }
{
    plan.push(PlanItem { item })
}

/// Each of some expressions.
#[tactic(auto, using(crate::proofs::Joining::joining))]
pub fn push_asks<'a>(
    plan: &mut Items<PlanItem<'a>>,
    want: Want,
    exprs: &'a [Expr],
) -> Result<(), WantOfMemory>
    ensures { OnOk result (plan.new ≡ plan.old ++ asks (want_seen want) exprs.now) }
{
    for expr in exprs {
        push(plan, Item::Ask { expr, want })?;
    }
    Ok(())
}

/// An expression that may be left out.
pub fn push_ask_if<'a>(
    plan: &mut Items<PlanItem<'a>>,
    want: Want,
    expr: &'a Option<Expr>,
) -> Result<(), WantOfMemory>
    ensures { OnOk result (plan.new ≡ plan.old ++ ask_if (want_seen want) expr.now) }
{
    match expr {
        None => Ok(()),
        Some(expr) => push(plan, Item::Ask { expr, want }),
    }
}

fn push_filled<'a>(
    plan: &mut Items<PlanItem<'a>>,
    init: &'a Option<Init>,
) -> Result<(), WantOfMemory>
    ensures { OnOk result (plan.new ≡ plan.old ++ filled init.now) }
{
    match init {
        None => Ok(()),
        Some(init) => push(plan, Item::Fill(init)),
    }
}

#[tactic(auto, using(crate::proofs::Joining::joining))]
fn push_var<'a>(
    plan: &mut Items<PlanItem<'a>>,
    is_final: bool,
    ty: &'a TypeTree,
    var: &'a Var,
) -> Result<(), WantOfMemory>
    ensures { OnOk result (plan.new ≡ plan.old ++ of_var is_final ty.now var.now) }
{
    let name = &var.name;
    let dims = var.dims;
    push(
        plan,
        Item::Declare {
            name,
            ty,
            dims,
            is_final,
        },
    )?;
    push_filled(plan, &var.init)
}

#[tactic(auto, using(crate::proofs::Joining::joining))]
fn push_vars<'a>(
    plan: &mut Items<PlanItem<'a>>,
    is_final: bool,
    ty: &'a TypeTree,
    vars: &'a [Var],
) -> Result<(), WantOfMemory>
    ensures { OnOk result (plan.new ≡ plan.old ++ flat (map (of_var is_final ty.now) vars.now)) }
{
    for var in vars {
        push_var(plan, is_final, ty, var)?;
    }
    Ok(())
}

/// Variables that are declared together.
#[tactic(auto, using(crate::proofs::Joining::joining))]
pub fn push_locals<'a>(
    plan: &mut Items<PlanItem<'a>>,
    vars: &'a LocalVars,
) -> Result<(), WantOfMemory>
    ensures { OnOk result (plan.new ≡ plan.old ++ of_locals vars.now) }
{
    let is_final = says(ModifierWord::Final, vars.modifiers.slice());
    push_var(plan, is_final, &vars.ty, &vars.first)?;
    push_vars(plan, is_final, &vars.ty, vars.more.slice())
}

/// What a basic `for` begins with.
pub fn push_init<'a>(plan: &mut Items<PlanItem<'a>>, init: &'a ForInit) -> Result<(), WantOfMemory>
    ensures { OnOk result (plan.new ≡ plan.old ++ of_init init.now) }
{
    match init {
        ForInit::Local(vars) => push_locals(plan, vars),
        ForInit::Effects(exprs) => push_asks(plan, Want::Effect, exprs.slice()),
    }
}

fn push_fault<'a>(
    plan: &mut Items<PlanItem<'a>>,
    broken: Broken,
    at: u32,
) -> Result<(), WantOfMemory>
    ensures { OnOk result (plan.new ≡ plan.old ++ Fault (rule_of broken) at ∷ []) }
{
    push(plan, Item::Fault { broken, at })
}

/// A jump to a target, or to none.
pub fn push_jump<'a>(
    plan: &mut Items<PlanItem<'a>>,
    at: u32,
    target: Option<u32>,
) -> Result<(), WantOfMemory>
    ensures { OnOk result (plan.new ≡ plan.old ++ jump_items at target) }
{
    match target {
        Some(_) => Ok(()),
        None => push_fault(plan, Broken::Jump, at),
    }
}

/// A label, which may stand in a statement that has it too.
pub fn push_label<'a>(
    plan: &mut Items<PlanItem<'a>>,
    jumps: &Jumps<'a>,
    label: &Ident,
) -> Result<(), WantOfMemory>
    ensures { OnOk result (plan.new ≡ plan.old ++ label_items label.now jumps.now) }
{
    match jumps.labelled(label) {
        None => Ok(()),
        Some(_) => push_fault(plan, Broken::Jump, label.at),
    }
}

/// A second `default` of a `switch`.
pub fn push_default<'a>(
    plan: &mut Items<PlanItem<'a>>,
    at: u32,
    had: bool,
) -> Result<(), WantOfMemory>
    ensures { OnOk result (plan.new ≡ plan.old ++ default_items at had) }
{
    if had {
        push_fault(plan, Broken::Default, at)
    } else {
        Ok(())
    }
}

/// A `return`, by what it may give.
#[tactic(auto, using(crate::proofs::Joining::joining))]
pub fn push_return<'a>(
    plan: &mut Items<PlanItem<'a>>,
    at: u32,
    returns: Returns,
    value: &'a Option<Expr>,
) -> Result<(), WantOfMemory>
    ensures { OnOk result (plan.new ≡ plan.old ++ return_items at (returns_seen returns) value.now) }
{
    match (returns, value) {
        (Returns::NoValue, None) => Ok(()),
        (Returns::AValue, Some(expr)) => push(
            plan,
            Item::Ask {
                expr,
                want: Want::Result,
            },
        ),
        (_, Some(expr)) => {
            push_fault(plan, Broken::Return, at)?;
            push(
                plan,
                Item::Ask {
                    expr,
                    want: Want::Nowhere,
                },
            )
        }
        (_, None) => push_fault(plan, Broken::Return, at),
    }
}

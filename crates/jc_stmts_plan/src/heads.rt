//! The items of the heads of statements and of their parts.
ghost use Rattle.std.specs.Prelude.{◌≡◌, ◌++◌, OnOk};
ghost use Rattle.jc_stmts_spec.specs.Plans.{head_items, is_default};
ghost use Rattle.jc_stmts_plan.specs.Flat.{for_begun};

use crate::items::{Item, PlanItem, Want};
use crate::parts::{push, push_ask_if, push_asks, push_default, push_init};
use jc_heads::says;
use jc_rules::{Items, WantOfMemory};
use jc_tree::{ClauseHead, ForHead, ModifierWord};

/// Whether a part of a `switch` has the label `default`.
pub fn is_default(head: &ClauseHead) -> bool
    ensures { result ≡ is_default head.now }
{
    matches!(head, ClauseHead::Default)
}

/// What stands at the head of a part, where it is told whether a `default` stood before it. A parameter of several types is final (JLS 14.20).
#[tactic(auto, using(crate::proofs::Joining::joining))]
pub fn push_head<'a>(
    plan: &mut Items<PlanItem<'a>>,
    at: u32,
    had: bool,
    head: &'a ClauseHead,
) -> Result<(), WantOfMemory>
    ensures { OnOk result (plan.new ≡ plan.old ++ head_items at had head.now) }
{
    match head {
        ClauseHead::If(expr) => push(
            plan,
            Item::Ask {
                expr,
                want: Want::Truth,
            },
        ),
        ClauseHead::Case(expr) => push(plan, Item::Label { at, expr }),
        ClauseHead::Default => push_default(plan, at, had),
        ClauseHead::Catch {
            modifiers,
            first,
            more,
            name,
        } => {
            let is_final = says(ModifierWord::Final, modifiers.slice()) || !more.is_empty();
            let more = more.slice();
            push(plan, Item::Caught { at, first, more })?;
            push(plan, Item::Parameter { name, is_final })
        }
        ClauseHead::Finally => Ok(()),
    }
}

/// What stands in the head of a `for`, before its body.
#[tactic(auto, using(crate::proofs::Joining::joining))]
pub fn push_for<'a>(plan: &mut Items<PlanItem<'a>>, head: &'a ForHead) -> Result<(), WantOfMemory>
    ensures { OnOk result (plan.new ≡ plan.old ++ for_begun head.now) }
{
    match head {
        ForHead::Basic { init, test, update } => {
            push_init(plan, init)?;
            push_ask_if(plan, Want::Truth, test)?;
            push_asks(plan, Want::Effect, update.slice())
        }
        ForHead::Enhanced {
            modifiers,
            ty,
            name,
            dims,
            iterable,
        } => {
            let is_final = says(ModifierWord::Final, modifiers.slice());
            let dims = *dims;
            push(
                plan,
                Item::Each {
                    over: iterable,
                    ty,
                    dims,
                },
            )?;
            push(
                plan,
                Item::Declare {
                    name,
                    ty,
                    dims,
                    is_final,
                },
            )
        }
    }
}

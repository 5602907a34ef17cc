//! What a plan lists.
ghost use Rattle.std.specs.Prelude.{◌≡◌};
ghost use Rattle.jc_stmts_plan.specs.Seen.{rule_of};

use jc_rules::Rule;
use jc_tree::{ClassTree, Expr, Ident, Init, TypeTree};
use std::marker::Model;

/// What an expression is wanted for: its effect alone, a truth, the result of the method, a value that goes nowhere, the selector of a `switch`, or what is thrown by
/// the statement at an offset (JLS 14.8, 14.9, 14.11, 14.17, 14.18).
#[derive(Clone, Copy, Debug, PartialEq, Eq)]
pub enum Want {
    Effect,
    Truth,
    Result,
    Nowhere,
    Selector,
    Thrown { at: u32 },
}

/// What is broken whatever the types are: a jump without a target, or a label inside of a statement with the same label (615); a second `default` of a `switch`
/// (614); and a `return` that doesn't give what the method does (619).
#[derive(Clone, Copy, Debug, PartialEq, Eq)]
pub enum Broken {
    Jump,
    Default,
    Return,
}

impl Broken {
    /// The rule that is broken.
    pub fn rule(self) -> Rule
        ensures { result ≡ rule_of self }
    {
        match self {
            Broken::Jump => Rule::known(615),
            Broken::Default => Rule::known(614),
            Broken::Return => Rule::known(619),
        }
    }
}

/// An item of a plan. `Fill` is the initialiser of the local that was declared last; `Each` is what an enhanced `for` goes over, with the type of its variable;
/// `Caught` are the types of a catch clause and `Parameter` is its variable; `Fault` is a rule that is broken whatever the types are.
#[derive(Clone, Copy)]
pub enum Item<'a> {
    Enter,
    Leave,
    Declare {
        name: &'a Ident,
        ty: &'a TypeTree,
        dims: u32,
        is_final: bool,
    },
    Fill(&'a Init),
    Ask {
        expr: &'a Expr,
        want: Want,
    },
    Label {
        at: u32,
        expr: &'a Expr,
    },
    Each {
        over: &'a Expr,
        ty: &'a TypeTree,
        dims: u32,
    },
    Caught {
        at: u32,
        first: &'a ClassTree,
        more: &'a [ClassTree],
    },
    Parameter {
        name: &'a Ident,
        is_final: bool,
    },
    Fault {
        broken: Broken,
        at: u32,
    },
}

/// An item that contracts see as the definition has it, with the trees that it borrows.
#[derive(Drop)]
pub struct PlanItem<'a> {
    pub item: Item<'a>,
}

impl<'a> Model for PlanItem<'a> {
    ghost use Rattle.jc_stmts_spec.specs.Plans as plan;
    ghost use Rattle.jc_stmts_plan.specs.Seen.{item_seen};
    ghost use Rattle.jc_tree.specs.contracts.name.Ident as ident;
    ghost use Rattle.jc_tree.specs.contracts.expression.Expr as expr;
    ghost use Rattle.jc_tree.specs.contracts.expression.Init as init;
    ghost use Rattle.jc_tree.specs.contracts.types.TypeTree as type_tree;
    ghost use Rattle.jc_tree.specs.contracts.types.ClassTree as class_tree;
    ghost use Rattle.std.specs.Coded.{codes};

    ghost Value = { plan.Item };

    ghost coded = { Prim.hlevel (codes, ident.the_row.coded, expr.the_row.coded, init.the_row.coded, type_tree.the_row.coded, class_tree.the_row.coded) };

    ghost view = { λ p. item_seen p.item };
}

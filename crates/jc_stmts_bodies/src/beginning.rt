//! How the block of a constructor begins (JLS 8.8.7).
ghost use Rattle.std.specs.Prelude.{◌≡◌};
ghost use Rattle.jc_tree.specs.declared.statement.Stmt.{out-Stmt};
ghost use Rattle.jc_stmts_spec.specs.Bodies.{begins_at, begins_of, calls_this, has_super, implied_if, or_implied, rest_of};
ghost use Rattle.jc_stmts_bodies.specs.Seen.{begins_seen, has_begins};

use crate::body::Begins;
use jc_tree::Stmt;
use jc_types::{ClassId, Table, class_supers};

#[tactic(auto, using(crate::proofs::Parts::stmts))]
fn begins_at<'a>(node: &'a Stmt) -> Option<Begins<'a>>
    ensures { has_begins result ≡ begins_at (out-Stmt node.now) }
{
    match node {
        Stmt::ThisCall { at, actuals } => Some(Begins::WithThis {
            at: *at,
            actuals: actuals.slice(),
        }),
        Stmt::SuperCall { at, actuals } => Some(Begins::WithSuper {
            at: *at,
            actuals: actuals.slice(),
        }),
        Stmt::Local(_) => None,
        Stmt::Declared(_) => None,
        Stmt::Block { .. } => None,
        Stmt::Empty { .. } => None,
        Stmt::Effect(_) => None,
        Stmt::Labeled { .. } => None,
        Stmt::If { .. } => None,
        Stmt::While { .. } => None,
        Stmt::Do { .. } => None,
        Stmt::For { .. } => None,
        Stmt::Switch { .. } => None,
        Stmt::Return { .. } => None,
        Stmt::Break { .. } => None,
        Stmt::Continue { .. } => None,
        Stmt::Throw { .. } => None,
        Stmt::Try { .. } => None,
    }
}

/// The call of another constructor that a block begins with, if it writes one.
pub fn begins_of<'a>(items: &'a [Stmt]) -> Option<Begins<'a>>
    ensures { has_begins result ≡ begins_of items.now }
{
    match items {
        [first, ..] => begins_at(first),
        [] => None,
    }
}

/// The statements of a block behind the call that it begins with.
pub fn rest_of<'a>(begins: &Option<Begins>, items: &'a [Stmt]) -> &'a [Stmt]
    ensures { result.now ≡ rest_of (has_begins begins.now) items.now }
{
    match (begins, items) {
        (Some(_), [_, more @ ..]) => more,
        _ => items,
    }
}

/// Whether a block calls another constructor of its class.
pub fn calls_this(begins: &Option<Begins>) -> bool
    ensures { result ≡ calls_this (has_begins begins.now) }
{
    match begins {
        Some(Begins::WithThis { .. }) => true,
        Some(Begins::WithSuper { .. }) => false,
        Some(Begins::WithImplied) => false,
        Some(Begins::WithNone) => false,
        None => false,
    }
}

fn has_super(table: &Table, class: ClassId) -> bool
    ensures { result ≡ has_super table.now class }
{
    match class_supers(table, class) {
        [] => false,
        [_, ..] => true,
    }
}

/// What a constructor begins with that writes no call of another one.
pub fn implied<'a>(table: &Table, class: ClassId) -> Begins<'a>
    ensures { begins_seen result ≡ implied_if (has_super table.now class) }
{
    if has_super(table, class) {
        Begins::WithImplied
    } else {
        Begins::WithNone
    }
}

/// The call that is written, or else the implied one.
pub fn or_implied<'a>(table: &Table, class: ClassId, begins: Option<Begins<'a>>) -> Begins<'a>
    ensures { begins_seen result ≡ or_implied table.now class (has_begins begins.entry) }
{
    match begins {
        Some(begins) => begins,
        None => implied(table, class),
    }
}

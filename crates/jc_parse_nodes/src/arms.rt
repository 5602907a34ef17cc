//! The arms of an `if`, and lists of clauses (JLS 14.9, 14.20).
ghost use Rattle.std.specs.Prelude.{◌≡◌, ◌++◌, ◌∷◌, [], IfErr, IfOk};
ghost use Rattle.jc_grammar.specs.Units.{stmt_shape};
ghost use Rattle.jc_reading.specs.declared.reading.Halt.TheVariants as halt_of;
ghost use Rattle.jc_reading.specs.Giving.{Gives};
ghost use Rattle.jc_reading.specs.Reading.{Read, becoming, noting, perhaps_from};
ghost use Rattle.jc_tree.specs.declared.statement.Clause.{Clause};
ghost use Rattle.jc_tree.specs.declared.statement.Stmt.{Stmt};
ghost use Rattle.jc_tree.specs.declared.statement.Stmt.TheVariants as stmt_of;
ghost use Rattle.jc_unit_laws.specs.UnitReading.{arm_open, or_none};
ghost use Rattle.jc_parse_nodes.specs.Nodes.{alone_open, first_open};
ghost use Rattle.jc_parse_nodes.specs.declared.pieces.Branch.TheVariants as branch_is;

use crate::pieces::Branch;
use jc_lexer::Token;
use jc_reading::{Found, Halt, pushed, without};
use jc_rules::{Items, WantOfMemory};
use jc_tree::{Clause, ClauseHead, Stmt};
use std::alloc::Global;

/// Whether an `else` would belong to an `if` with at most this statement behind its last `else`.
#[cycle(ends)]
fn last_takes_else(otherwise: &[Stmt]) -> bool
    ensures { result ≡ alone_open otherwise.now }
{
    match otherwise {
        [last, more @ ..] => {
            if more.is_empty() {
                takes_else(last)
            } else {
                false
            }
        }
        _ => true,
    }
}

/// Whether an `else` behind a statement would be its own.
#[cycle(ends)]
#[tactic(auto, using(crate::proofs::Opens::open_ends))]
pub fn takes_else(stmt: &Stmt) -> bool
    ensures { result ≡ (stmt_shape stmt.now).open_end }
{
    match stmt {
        Stmt::Labeled { body, .. } => takes_else(body.get()),
        Stmt::While { body, .. } => takes_else(body.get()),
        Stmt::For { body, .. } => takes_else(body.get()),
        Stmt::If { otherwise, .. } => last_takes_else(otherwise.slice()),
        Stmt::Local(_) => false,
        Stmt::Declared(_) => false,
        Stmt::Block { .. } => false,
        Stmt::Empty { .. } => false,
        Stmt::Effect(_) => false,
        Stmt::Do { .. } => false,
        Stmt::Switch { .. } => false,
        Stmt::Return { .. } => false,
        Stmt::Break { .. } => false,
        Stmt::Continue { .. } => false,
        Stmt::Throw { .. } => false,
        Stmt::Try { .. } => false,
        Stmt::ThisCall { .. } => false,
        Stmt::SuperCall { .. } => false,
    }
}

/// Whether an `else` behind the first statement would be its own.
fn first_takes_else(items: &[Stmt]) -> bool
    ensures { result ≡ first_open items.now }
{
    match items {
        [first, ..] => takes_else(first),
        _ => false,
    }
}

/// Whether an `else` behind an arm would be that of its body.
#[tactic(auto, using(crate::proofs::Opens::arm_opens))]
pub fn is_open(arm: &Clause) -> bool
    ensures { result ≡ arm_open arm.now }
{
    match &arm.head {
        ClauseHead::If(_) => first_takes_else(arm.items.slice()),
        ClauseHead::Case(_) => false,
        ClauseHead::Default => false,
        ClauseHead::Catch { .. } => false,
        ClauseHead::Finally => false,
    }
}

/// An arm behind an `else`.
pub fn arm_branch<'a>(read: Result<Found<'a, Clause>, Halt>) -> Result<Found<'a, Branch>, Halt>
    ensures { (m : Read Clause) → Gives read.entry m → Gives result (becoming branch_is.Arm m) }
{
    match read {
        Ok(arm) => Ok(Found {
            value: Branch::Arm(arm.value),
            rest: arm.rest,
            left: arm.left,
        }),
        Err(halt) => Err(halt),
    }
}

/// A last statement behind an `else`.
pub fn last_branch<'a>(read: Result<Found<'a, Stmt>, Halt>) -> Result<Found<'a, Branch>, Halt>
    ensures { (m : Read Stmt) → Gives read.entry m → Gives result (becoming branch_is.Last m) }
{
    match read {
        Ok(last) => Ok(Found {
            value: Branch::Last(last.value),
            rest: last.rest,
            left: last.left,
        }),
        Err(halt) => Err(halt),
    }
}

/// An `if` without a last `else`.
pub fn if_of<'a>(
    alloc: Global,
    arms: Items<Clause>,
    rest: &'a [Token],
    left: usize,
) -> Found<'a, Stmt>
    ensures { (result.value ≡ stmt_of.If arms []) × (result.rest.now ≡ rest.now) × (result.left ≡ left) }
{
    Found {
        value: Stmt::If {
            arms,
            otherwise: Items::new(alloc),
        },
        rest,
        left,
    }
}

/// An `if` with a last `else`.
pub fn if_else_of<'a>(
    alloc: Global,
    arms: Items<Clause>,
    last: Stmt,
    rest: &'a [Token],
    left: usize,
) -> Result<Found<'a, Stmt>, Halt>
    ensures ok { IfOk result (λ f. (f.value ≡ stmt_of.If arms (last ∷ [])) × (f.rest.now ≡ rest.now) × (f.left ≡ left)) }
    ensures err { IfErr result (λ e. e ≡ halt_of.WantOfMemory) }
{
    match pushed(Items::new(alloc), last) {
        Ok(otherwise) => Ok(Found {
            value: Stmt::If { arms, otherwise },
            rest,
            left,
        }),
        Err(WantOfMemory) => Err(without(arms, Halt::WantOfMemory)),
    }
}

/// Clauses, with a last one or none.
pub fn with_last<'a>(
    first: Found<'a, Items<Clause>>,
    last: Result<Found<'a, Clause>, Halt>,
) -> Result<Found<'a, Items<Clause>>, Halt>
    ensures { (m : Read Clause) → Gives last.entry m → Gives result (noting first.entry.left (becoming (λ o. first.entry.value ++ or_none o) (perhaps_from first.entry.rest.now m))) }
{
    match last {
        Ok(last) => Ok(Found {
            value: pushed(first.value, last.value)?,
            rest: last.rest,
            left: first.left.min(last.left),
        }),
        Err(Halt::Stopped(left)) => Ok(Found {
            value: first.value,
            rest: first.rest,
            left: first.left.min(left),
        }),
        Err(Halt::WantOfMemory) => Err(without(first, Halt::WantOfMemory)),
    }
}

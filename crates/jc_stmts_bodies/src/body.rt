//! What a body consists of.
use jc_rules::Items;
use jc_tree::{Expr, Init, Stmt};
use jc_types::{FieldId, MethodId};
use std::marker::Model;

/// The call of another constructor that a constructor begins with, by the offset of its word: written, or implied where none is written (JLS 8.8.7). There is none in
/// the class `Object`, which has no superclass, and in what is no constructor.
#[derive(Clone, Copy)]
pub enum Begins<'a> {
    WithThis { at: u32, actuals: &'a [Expr] },
    WithSuper { at: u32, actuals: &'a [Expr] },
    WithImplied,
    WithNone,
}

/// An initialiser of a field, or a block by the offset of its first token (JLS 8.3.2, 8.6, 8.7).
#[derive(Clone, Copy)]
pub enum InitialiserForm<'a> {
    OfField(FieldId, &'a Init),
    OfBlock { at: u32, items: &'a [Stmt] },
}

/// An initialiser that contracts see as the definition has it, with the trees that it borrows.
#[derive(Drop)]
pub struct Initialiser<'a> {
    pub form: InitialiserForm<'a>,
}

impl<'a> Model for Initialiser<'a> {
    ghost use Rattle.jc_stmts_spec.specs.Bodies as spec;
    ghost use Rattle.jc_stmts_bodies.specs.Seen.{initialiser_seen};
    ghost use Rattle.jc_tree.specs.contracts.expression.Init as init;
    ghost use Rattle.jc_tree.specs.contracts.statement.Stmt as stmt;
    ghost use Rattle.std.specs.Coded.{codes};

    ghost Value = { spec.Initialiser };

    ghost coded = { Prim.hlevel (codes, init.the_row.coded, stmt.the_row.coded) };

    ghost view = { λ i. initialiser_seen i.form };
}

/// A body: the call of another constructor, the initialisers behind it, and the statements that are left of the block.
#[derive(Drop)]
pub struct MethodBody<'a> {
    pub method: MethodId,
    pub begins: Begins<'a>,
    pub initialisers: Items<Initialiser<'a>>,
    pub rest: &'a [Stmt],
}

impl<'a> Model for MethodBody<'a> {
    ghost use Rattle.jc_stmts_spec.specs.Bodies as spec;
    ghost use Rattle.jc_stmts_bodies.specs.Seen.{begins_seen};
    ghost use Rattle.jc_tree.specs.contracts.expression.Expr as expr;
    ghost use Rattle.jc_tree.specs.contracts.expression.Init as init;
    ghost use Rattle.jc_tree.specs.contracts.statement.Stmt as stmt;
    ghost use Rattle.std.specs.Coded.{codes};

    ghost Value = { spec.MethodBody };

    ghost coded = { Prim.hlevel (codes, expr.the_row.coded, init.the_row.coded, stmt.the_row.coded) };

    ghost view = { λ b. record { method = b.method; begins = begins_seen b.begins; initialisers = b.initialisers; rest = b.rest.now } };
}

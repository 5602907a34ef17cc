//! Nodes of what was read: of a first part, and of what was read behind it.
ghost use Rattle.std.specs.Prelude.{◌≡◌, ℕ, List, Option, Some, None};
ghost use Rattle.jc_tree.specs.declared.expression.Expr.{Expr};
ghost use Rattle.jc_tree.specs.declared.name.Ident.{Ident};
ghost use Rattle.jc_tree.specs.declared.statement.Clause.{Clause};
ghost use Rattle.jc_tree.specs.declared.statement.ClauseHead.TheVariants as clause_head_of;
ghost use Rattle.jc_tree.specs.declared.statement.ForHead.{ForHead};
ghost use Rattle.jc_tree.specs.declared.statement.Member.{Member};
ghost use Rattle.jc_tree.specs.declared.statement.Resources.{Resources};
ghost use Rattle.jc_tree.specs.declared.statement.Stmt.{Stmt};
ghost use Rattle.jc_tree.specs.declared.statement.Stmt.TheVariants as stmt_of;
ghost use Rattle.jc_parse_nodes.specs.declared.trees.HeadTree.{HeadTree};
ghost use Rattle.jc_parse_nodes.specs.Joins.{Joined};
ghost use Rattle.jc_parse_nodes.specs.Nodes.{bare_local, clause_made, declaration_of, locals_of, tree_head};
ghost use Rattle.jc_tree.specs.declared.types.TypeTree.{TypeTree};
ghost use Rattle.jc_parse_nodes.specs.declared.trees.Vars.{Vars};
ghost use Rattle.jc_tree.specs.declared.statement.TopLevel.{TopLevel};
ghost use Rattle.jc_tree.specs.declared.statement.TopLevel.TheVariants as top_level_of;
ghost use Rattle.jc_parse_nodes.specs.declared.pieces.Typed.{Typed};
ghost use Rattle.jc_tree.specs.declared.statement.Member.TheVariants as member_of;
ghost use Rattle.jc_tree.specs.declared.statement.Modifier.{Modifier};
ghost use Rattle.jc_parse_nodes.specs.declared.pieces.Body.{Body};
ghost use Rattle.jc_parse_nodes.specs.declared.pieces.ForOpening.{ForOpening};
ghost use Rattle.jc_parse_nodes.specs.declared.pieces.Guarded.{Guarded};
ghost use Rattle.jc_parse_nodes.specs.declared.pieces.Opening.{Opening};
ghost use Rattle.jc_parse_nodes.specs.declared.pieces.Tested.{Tested};

use crate::joins::join;
use crate::pieces::{Body, ForOpening, Guarded, Opening, Tested, Typed};
use crate::trees::{HeadTree, Vars};
use jc_reading::{Found, Halt};
use jc_rules::{Boxed, Items};
use jc_tree::{
    Clause, ClauseHead, Declaration, DeclarationHead, Expr, ForHead, Ident, LocalVars, Member,
    Modifier, Resources, Stmt, TopLevel, TypeTree,
};
use std::alloc::Global;

/// A head with its modifiers.
fn head_of(modifiers: Items<Modifier>, rest: HeadTree) -> DeclarationHead
    ensures { result ≡ tree_head modifiers rest }
{
    match rest {
        HeadTree::Class {
            at,
            name,
            params,
            extends,
            implements,
        } => DeclarationHead::Class {
            modifiers,
            at,
            name,
            params,
            extends,
            implements,
        },
        HeadTree::Interface {
            at,
            name,
            params,
            extends,
        } => DeclarationHead::Interface {
            modifiers,
            at,
            name,
            params,
            extends,
        },
        HeadTree::Annotation { at, name } => DeclarationHead::Annotation {
            modifiers,
            at,
            name,
        },
    }
}

/// A declaration with its modifiers.
fn declaration_of(modifiers: Items<Modifier>, body: Body) -> Declaration
    ensures { result ≡ declaration_of modifiers body }
{
    Declaration {
        head: head_of(modifiers, body.head),
        members: body.members,
    }
}

/// A block of its place and its statements.
pub fn block_of<'a>(
    first: Found<'a, u32>,
    more: Result<Found<'a, Items<Stmt>>, Halt>,
) -> Result<Found<'a, Stmt>, Halt>
    ensures { Joined {C = Stmt} (λ (a : ℕ) (b : List Stmt). stmt_of.Block a b) first.entry more.entry result }
{
    join(first, more, |a, b| Stmt::Block { at: a, items: b })
}

/// A `while` of its test and its body.
pub fn while_of<'a>(
    first: Found<'a, Tested>,
    more: Result<Found<'a, Boxed<Stmt>>, Halt>,
) -> Result<Found<'a, Stmt>, Halt>
    ensures { Joined {C = Stmt} (λ (a : Tested) (b : Stmt). stmt_of.While a.at a.test b) first.entry more.entry result }
{
    join(
        first,
        more,
        |a, b| Stmt::While {
            at: a.at,
            test: a.test,
            body: b,
        },
    )
}

/// A `switch` of its selector and its groups.
pub fn switch_of<'a>(
    first: Found<'a, Tested>,
    more: Result<Found<'a, Items<Clause>>, Halt>,
) -> Result<Found<'a, Stmt>, Halt>
    ensures { Joined {C = Stmt} (λ (a : Tested) (b : List Clause). stmt_of.Switch a.at a.test b) first.entry more.entry result }
{
    join(
        first,
        more,
        |a, b| Stmt::Switch {
            at: a.at,
            selector: a.test,
            groups: b,
        },
    )
}

/// A `for` of what stands up to its body, and its body.
pub fn for_of<'a>(
    first: Found<'a, ForOpening>,
    more: Result<Found<'a, Boxed<Stmt>>, Halt>,
) -> Result<Found<'a, Stmt>, Halt>
    ensures { Joined {C = Stmt} (λ (a : ForOpening) (b : Stmt). stmt_of.For a.at a.head b) first.entry more.entry result }
{
    join(
        first,
        more,
        |a, b| Stmt::For {
            at: a.at,
            head: a.head,
            body: b,
        },
    )
}

/// A statement with its label.
pub fn labeled_of<'a>(
    first: Found<'a, Ident>,
    more: Result<Found<'a, Boxed<Stmt>>, Halt>,
) -> Result<Found<'a, Stmt>, Halt>
    ensures { Joined {C = Stmt} (λ (a : Ident) (b : Stmt). stmt_of.Labeled a b) first.entry more.entry result }
{
    join(first, more, |a, b| Stmt::Labeled { label: a, body: b })
}

/// A `do` of its body and its test.
pub fn do_of<'a>(
    at: u32,
    first: Found<'a, Boxed<Stmt>>,
    more: Result<Found<'a, Expr>, Halt>,
) -> Result<Found<'a, Stmt>, Halt>
    ensures { Joined {C = Stmt} (λ (a : Stmt) (b : Expr). stmt_of.Do at a b) first.entry more.entry result }
{
    join(
        first,
        more,
        |a, b| Stmt::Do {
            at,
            body: a,
            test: b,
        },
    )
}

/// A part of a statement.
pub fn clause_of<'a>(
    first: Found<'a, Opening>,
    more: Result<Found<'a, Items<Stmt>>, Halt>,
) -> Result<Found<'a, Clause>, Halt>
    ensures { Joined {C = Clause} (λ (a : Opening) (b : List Stmt). clause_made (a, b)) first.entry more.entry result }
{
    join(
        first,
        more,
        |a, b| Clause {
            at: a.at,
            head: a.head,
            items: b,
        },
    )
}

/// An arm of an `if`.
pub fn arm_of<'a>(
    first: Found<'a, Tested>,
    more: Result<Found<'a, Items<Stmt>>, Halt>,
) -> Result<Found<'a, Clause>, Halt>
    ensures { Joined {C = Clause} (λ (a : Tested) (b : List Stmt). clause_made (record { at = a.at; head = clause_head_of.If a.test }, b)) first.entry more.entry result }
{
    join(
        first,
        more,
        |a, b| Clause {
            at: a.at,
            head: ClauseHead::If(a.test),
            items: b,
        },
    )
}

/// What a `try` guards, and its catches.
pub fn guarded_of<'a>(
    first: Found<'a, Items<Stmt>>,
    more: Result<Found<'a, Items<Clause>>, Halt>,
) -> Result<Found<'a, Guarded>, Halt>
    ensures { Joined {C = Guarded} (λ (a : List Stmt) (b : List Clause). record { items = a; clauses = b }) first.entry more.entry result }
{
    join(
        first,
        more,
        |a, b| Guarded {
            items: a,
            clauses: b,
        },
    )
}

/// A `try` without resources.
pub fn try_of<'a>(
    first: Found<'a, u32>,
    more: Result<Found<'a, Guarded>, Halt>,
) -> Result<Found<'a, Stmt>, Halt>
    ensures { Joined {C = Stmt} (λ (a : ℕ) (b : Guarded). stmt_of.Try a None b.items b.clauses) first.entry more.entry result }
{
    join(
        first,
        more,
        |a, b| Stmt::Try {
            at: a,
            resources: None,
            items: b.items,
            clauses: b.clauses,
        },
    )
}

/// A `try` with resources.
pub fn try_with_of<'a>(
    at: u32,
    first: Found<'a, Resources>,
    more: Result<Found<'a, Guarded>, Halt>,
) -> Result<Found<'a, Stmt>, Halt>
    ensures { Joined {C = Stmt} (λ (a : Resources) (b : Guarded). stmt_of.Try at (Some a) b.items b.clauses) first.entry more.entry result }
{
    join(
        first,
        more,
        |a, b| Stmt::Try {
            at,
            resources: Some(a),
            items: b.items,
            clauses: b.clauses,
        },
    )
}

/// A declaration behind its modifiers.
pub fn body_of<'a>(
    first: Found<'a, HeadTree>,
    more: Result<Found<'a, Items<Member>>, Halt>,
) -> Result<Found<'a, Body>, Halt>
    ensures { Joined {C = Body} (λ (a : HeadTree) (b : List Member). record { head = a; members = b }) first.entry more.entry result }
{
    join(
        first,
        more,
        |a, b| Body {
            head: a,
            members: b,
        },
    )
}

/// A `return`.
pub fn return_of<'a>(
    first: Found<'a, u32>,
    more: Result<Found<'a, Option<Expr>>, Halt>,
) -> Result<Found<'a, Stmt>, Halt>
    ensures { Joined {C = Stmt} (λ (a : ℕ) (b : Option Expr). stmt_of.Return a b) first.entry more.entry result }
{
    join(first, more, |a, b| Stmt::Return { at: a, value: b })
}

/// A `break`.
pub fn break_of<'a>(
    first: Found<'a, u32>,
    more: Result<Found<'a, Option<Ident>>, Halt>,
) -> Result<Found<'a, Stmt>, Halt>
    ensures { Joined {C = Stmt} (λ (a : ℕ) (b : Option Ident). stmt_of.Break a b) first.entry more.entry result }
{
    join(first, more, |a, b| Stmt::Break { at: a, label: b })
}

/// A `continue`.
pub fn continue_of<'a>(
    first: Found<'a, u32>,
    more: Result<Found<'a, Option<Ident>>, Halt>,
) -> Result<Found<'a, Stmt>, Halt>
    ensures { Joined {C = Stmt} (λ (a : ℕ) (b : Option Ident). stmt_of.Continue a b) first.entry more.entry result }
{
    join(first, more, |a, b| Stmt::Continue { at: a, label: b })
}

/// A `throw`.
pub fn throw_of<'a>(
    first: Found<'a, u32>,
    more: Result<Found<'a, Expr>, Halt>,
) -> Result<Found<'a, Stmt>, Halt>
    ensures { Joined {C = Stmt} (λ (a : ℕ) (b : Expr). stmt_of.Throw a b) first.entry more.entry result }
{
    join(first, more, |a, b| Stmt::Throw { at: a, value: b })
}

/// A `for` up to its body.
pub fn for_opening_of<'a>(
    first: Found<'a, u32>,
    more: Result<Found<'a, ForHead>, Halt>,
) -> Result<Found<'a, ForOpening>, Halt>
    ensures { Joined {C = ForOpening} (λ (a : ℕ) (b : ForHead). record { at = a; head = b }) first.entry more.entry result }
{
    join(first, more, |a, b| ForOpening { at: a, head: b })
}

/// A declaration of a type in a block.
pub fn declared_of<'a>(
    first: Found<'a, Items<Modifier>>,
    more: Result<Found<'a, Body>, Halt>,
) -> Result<Found<'a, Stmt>, Halt>
    ensures { Joined {C = Stmt} (λ (a : List Modifier) (b : Body). stmt_of.Declared (declaration_of a b)) first.entry more.entry result }
{
    join(first, more, |a, b| Stmt::Declared(declaration_of(a, b)))
}

/// A declaration of a type in another one.
pub fn nested_of<'a>(
    first: Found<'a, Items<Modifier>>,
    more: Result<Found<'a, Body>, Halt>,
) -> Result<Found<'a, Member>, Halt>
    ensures { Joined {C = Member} (λ (a : List Modifier) (b : Body). member_of.Nested (declaration_of a b)) first.entry more.entry result }
{
    join(first, more, |a, b| Member::Nested(declaration_of(a, b)))
}

/// Variables in a block.
pub fn local_of<'a>(
    first: Found<'a, Items<Modifier>>,
    more: Result<Found<'a, Typed>, Halt>,
) -> Result<Found<'a, Stmt>, Halt>
    ensures { Joined {C = Stmt} (λ (a : List Modifier) (b : Typed). stmt_of.Local (locals_of a b)) first.entry more.entry result }
{
    join(
        first,
        more,
        |a, b| Stmt::Local(LocalVars {
            modifiers: a,
            ty: b.ty,
            first: b.first,
            more: b.more,
        }),
    )
}

/// An initialiser.
pub fn initialiser_of<'a>(
    is_static: bool,
    first: Found<'a, u32>,
    more: Result<Found<'a, Items<Stmt>>, Halt>,
) -> Result<Found<'a, Member>, Halt>
    ensures { Joined {C = Member} (λ (a : ℕ) (b : List Stmt). member_of.Initialiser a is_static b) first.entry more.entry result }
{
    join(
        first,
        more,
        |a, b| Member::Initialiser {
            at: a,
            is_static,
            items: b,
        },
    )
}

/// A declaration of a file.
pub fn top_of<'a>(
    first: Found<'a, Items<Modifier>>,
    more: Result<Found<'a, Body>, Halt>,
) -> Result<Found<'a, TopLevel>, Halt>
    ensures { Joined {C = TopLevel} (λ (a : List Modifier) (b : Body). top_level_of.Declaration (declaration_of a b)) first.entry more.entry result }
{
    join(
        first,
        more,
        |a, b| TopLevel::Declaration(declaration_of(a, b)),
    )
}

/// Variables behind their type.
pub fn typed_of<'a>(
    first: Found<'a, TypeTree>,
    more: Result<Found<'a, Vars>, Halt>,
) -> Result<Found<'a, Typed>, Halt>
    ensures { Joined {C = Typed} (λ (a : TypeTree) (b : Vars). record { ty = a; first = b.first; more = b.more }) first.entry more.entry result }
{
    join(
        first,
        more,
        |a, b| Typed {
            ty: a,
            first: b.first,
            more: b.more,
        },
    )
}

/// Variables in a block, without modifiers.
pub fn bare_local_of<'a>(
    alloc: Global,
    first: Found<'a, TypeTree>,
    more: Result<Found<'a, Vars>, Halt>,
) -> Result<Found<'a, Stmt>, Halt>
    ensures { Joined {C = Stmt} (λ (a : TypeTree) (b : Vars). bare_local a b) first.entry more.entry result }
{
    join(
        first,
        more,
        |a, b| Stmt::Local(LocalVars {
            modifiers: Items::new(alloc),
            ty: a,
            first: b.first,
            more: b.more,
        }),
    )
}

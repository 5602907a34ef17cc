//! Nodes of members: of a first part, and of what was read behind it (JLS 8.3, 8.4, 8.8).
ghost use Rattle.std.specs.Prelude.{◌≡◌, ℕ, List, Option, Some, None};
ghost use Rattle.jc_parse_nodes.specs.Joins.{Joined};
ghost use Rattle.jc_tree.specs.declared.expression.Expr.{Expr};
ghost use Rattle.jc_tree.specs.declared.name.Ident.{Ident};
ghost use Rattle.jc_tree.specs.declared.statement.Member.{Member};
ghost use Rattle.jc_tree.specs.declared.statement.Member.TheVariants as member_of;
ghost use Rattle.jc_tree.specs.declared.statement.Modifier.{Modifier};
ghost use Rattle.jc_tree.specs.declared.statement.Stmt.{Stmt};
ghost use Rattle.jc_tree.specs.declared.statement.Stmt.TheVariants as stmt_of;
ghost use Rattle.jc_tree.specs.declared.types.TypeTree.{TypeTree};
ghost use Rattle.jc_parse_nodes.specs.declared.heads.CodeHead.{CodeHead};
ghost use Rattle.jc_parse_nodes.specs.declared.heads.FieldsTail.{FieldsTail};
ghost use Rattle.jc_parse_nodes.specs.declared.heads.MemberHead.{MemberHead};
ghost use Rattle.jc_parse_nodes.specs.declared.heads.Named.{Named};
ghost use Rattle.jc_parse_nodes.specs.declared.heads.NamedTail.{NamedTail};
ghost use Rattle.jc_parse_nodes.specs.declared.heads.NamedTail.TheVariants as tail_of;
ghost use Rattle.jc_parse_nodes.specs.declared.heads.Shape.{Shape};
ghost use Rattle.jc_parse_nodes.specs.declared.heads.Shape.TheVariants as shape_of;
ghost use Rattle.jc_parse_nodes.specs.declared.heads.Signature.{Signature};
ghost use Rattle.jc_tree.specs.declared.types.ClassTree.{ClassTree};
ghost use Rattle.jc_tree.specs.declared.statement.Formal.{Formal};
ghost use Rattle.jc_tree.specs.declared.expression.Init.{Init};
ghost use Rattle.jc_tree.specs.declared.statement.Var.{Var};
ghost use Rattle.jc_tree.specs.declared.statement.TypeParams.{TypeParams};
ghost use Rattle.jc_tree.specs.declared.statement.MethodHead.{MethodHead};
ghost use Rattle.jc_tree.specs.declared.statement.ResultType.TheVariants as result_of;
ghost use Rattle.jc_parse_nodes.specs.Nodes.{method_member, typed_shape, with_head, with_shape};

use crate::heads::{CodeHead, FieldsTail, MemberHead, Named, NamedTail, Shape, Signature};
use crate::joins::join;
use crate::pieces::Typed;
use jc_reading::{Found, Halt};
use jc_rules::Items;
use jc_tree::{
    ClassTree, Expr, Formal, Ident, Init, LocalVars, Member, MethodHead, Modifier, ResultType,
    Stmt, TypeParams, TypeTree, Var,
};

/// A method with the type of its result, or fields.
fn typed_shape(ty: TypeTree, tail: NamedTail) -> Shape
    ensures { result ≡ typed_shape (ty, tail) }
{
    match tail {
        NamedTail::Method(named) => Shape::Method {
            result: ResultType::Type(ty),
            named,
        },
        NamedTail::Fields { name, tail } => Shape::Fields(Typed {
            ty,
            first: Var {
                name,
                dims: tail.dims,
                init: tail.init,
            },
            more: tail.more,
        }),
    }
}

/// A member up to its body or its semicolon, with its modifiers and type parameters.
fn with_shape(modifiers: Items<Modifier>, params: Option<TypeParams>, shape: Shape) -> MemberHead
    ensures { result ≡ with_shape modifiers params shape }
{
    match shape {
        Shape::Method { result, named } => MemberHead::Method(MethodHead {
            modifiers,
            params,
            result: Some(result),
            name: named.name,
            formals: named.signature.formals,
            throws: named.signature.throws,
        }),
        Shape::Constructor(named) => MemberHead::Constructor(MethodHead {
            modifiers,
            params,
            result: None,
            name: named.name,
            formals: named.signature.formals,
            throws: named.signature.throws,
        }),
        Shape::Fields(typed) => MemberHead::Fields(LocalVars {
            modifiers,
            ty: typed.ty,
            first: typed.first,
            more: typed.more,
        }),
    }
}

/// A head with its modifiers.
fn with_head(modifiers: Items<Modifier>, head: CodeHead) -> MemberHead
    ensures { result ≡ with_head modifiers head }
{
    with_shape(modifiers, head.params, head.shape)
}

/// A method with its statements, or without any.
fn method_member(head: MethodHead, items: Option<Items<Stmt>>) -> Member
    ensures { result ≡ method_member head items }
{
    match items {
        Some(items) => Member::Method { head, items },
        None => Member::Bare { head },
    }
}

/// Formal parameters and what is thrown.
pub fn signature_of<'a>(
    first: Found<'a, Items<Formal>>,
    more: Result<Found<'a, Items<ClassTree>>, Halt>,
) -> Result<Found<'a, Signature>, Halt>
    ensures { Joined {C = Signature} (λ (a : List Formal) (b : List ClassTree). record { formals = a; throws = b }) first.entry more.entry result }
{
    join(
        first,
        more,
        |a, b| Signature {
            formals: a,
            throws: b,
        },
    )
}

/// A name with its signature.
pub fn named_of<'a>(
    first: Found<'a, Ident>,
    more: Result<Found<'a, Signature>, Halt>,
) -> Result<Found<'a, Named>, Halt>
    ensures { Joined {C = Named} (λ (a : Ident) (b : Signature). record { name = a; signature = b }) first.entry more.entry result }
{
    join(
        first,
        more,
        |a, b| Named {
            name: a,
            signature: b,
        },
    )
}

/// A method without a result.
pub fn void_of<'a>(
    first: Found<'a, u32>,
    more: Result<Found<'a, Named>, Halt>,
) -> Result<Found<'a, Shape>, Halt>
    ensures { Joined {C = Shape} (λ (a : ℕ) (b : Named). shape_of.Method (result_of.Void a) b) first.entry more.entry result }
{
    join(
        first,
        more,
        |a, b| Shape::Method {
            result: ResultType::Void { at: a },
            named: b,
        },
    )
}

/// A method with the type of its result.
pub fn method_of<'a>(
    first: Found<'a, TypeTree>,
    more: Result<Found<'a, Named>, Halt>,
) -> Result<Found<'a, Shape>, Halt>
    ensures { Joined {C = Shape} (λ (a : TypeTree) (b : Named). shape_of.Method (result_of.Type a) b) first.entry more.entry result }
{
    join(
        first,
        more,
        |a, b| Shape::Method {
            result: ResultType::Type(a),
            named: b,
        },
    )
}

/// A name and a signature behind a type.
pub fn method_tail_of<'a>(
    first: Found<'a, Ident>,
    more: Result<Found<'a, Signature>, Halt>,
) -> Result<Found<'a, NamedTail>, Halt>
    ensures { Joined {C = NamedTail} (λ (a : Ident) (b : Signature). tail_of.Method (record { name = a; signature = b })) first.entry more.entry result }
{
    join(
        first,
        more,
        |a, b| NamedTail::Method(Named {
            name: a,
            signature: b,
        }),
    )
}

/// A name and what stands behind that of a field.
pub fn fields_of<'a>(
    first: Found<'a, Ident>,
    more: Result<Found<'a, FieldsTail>, Halt>,
) -> Result<Found<'a, NamedTail>, Halt>
    ensures { Joined {C = NamedTail} (λ (a : Ident) (b : FieldsTail). tail_of.Fields a b) first.entry more.entry result }
{
    join(first, more, |a, b| NamedTail::Fields { name: a, tail: b })
}

/// What stands behind the name of a field.
pub fn parts_of<'a>(
    dims: u32,
    first: Found<'a, Option<Init>>,
    more: Result<Found<'a, Items<Var>>, Halt>,
) -> Result<Found<'a, FieldsTail>, Halt>
    ensures { Joined {C = FieldsTail} (λ (a : Option Init) (b : List Var). record { dims = dims; init = a; more = b }) first.entry more.entry result }
{
    join(
        first,
        more,
        |a, b| FieldsTail {
            dims,
            init: a,
            more: b,
        },
    )
}

/// A method with the type of its result, or fields.
pub fn typed_shape_of<'a>(
    first: Found<'a, TypeTree>,
    more: Result<Found<'a, NamedTail>, Halt>,
) -> Result<Found<'a, Shape>, Halt>
    ensures { Joined {C = Shape} (λ (a : TypeTree) (b : NamedTail). typed_shape (a, b)) first.entry more.entry result }
{
    join(first, more, |a, b| typed_shape(a, b))
}

/// A member behind its modifiers, with type parameters.
pub fn generic_of<'a>(
    first: Found<'a, TypeParams>,
    more: Result<Found<'a, Shape>, Halt>,
) -> Result<Found<'a, CodeHead>, Halt>
    ensures { Joined {C = CodeHead} (λ (a : TypeParams) (b : Shape). record { params = Some a; shape = b }) first.entry more.entry result }
{
    join(
        first,
        more,
        |a, b| CodeHead {
            params: Some(a),
            shape: b,
        },
    )
}

/// A head of a member, with its modifiers.
pub fn headed_of<'a>(
    first: Found<'a, Items<Modifier>>,
    more: Result<Found<'a, CodeHead>, Halt>,
) -> Result<Found<'a, MemberHead>, Halt>
    ensures { Joined {C = MemberHead} (λ (a : List Modifier) (b : CodeHead). with_head a b) first.entry more.entry result }
{
    join(first, more, |a, b| with_head(a, b))
}

/// A method with its body, or with a semicolon in its place.
pub fn method_end_of<'a>(
    first: Found<'a, MethodHead>,
    more: Result<Found<'a, Option<Items<Stmt>>>, Halt>,
) -> Result<Found<'a, Member>, Halt>
    ensures { Joined {C = Member} (λ (a : MethodHead) (b : Option (List Stmt)). method_member a b) first.entry more.entry result }
{
    join(first, more, |a, b| method_member(a, b))
}

/// A constructor with its body.
pub fn constructor_end_of<'a>(
    first: Found<'a, MethodHead>,
    more: Result<Found<'a, Items<Stmt>>, Halt>,
) -> Result<Found<'a, Member>, Halt>
    ensures { Joined {C = Member} (λ (a : MethodHead) (b : List Stmt). member_of.Method a b) first.entry more.entry result }
{
    join(first, more, |a, b| Member::Method { head: a, items: b })
}

/// A call of another constructor of the class.
pub fn this_call_of<'a>(
    first: Found<'a, u32>,
    more: Result<Found<'a, Items<Expr>>, Halt>,
) -> Result<Found<'a, Stmt>, Halt>
    ensures { Joined {C = Stmt} (λ (a : ℕ) (b : List Expr). stmt_of.ThisCall a b) first.entry more.entry result }
{
    join(first, more, |a, b| Stmt::ThisCall { at: a, actuals: b })
}

/// A call of a constructor of the superclass.
pub fn super_call_of<'a>(
    first: Found<'a, u32>,
    more: Result<Found<'a, Items<Expr>>, Halt>,
) -> Result<Found<'a, Stmt>, Halt>
    ensures { Joined {C = Stmt} (λ (a : ℕ) (b : List Expr). stmt_of.SuperCall a b) first.entry more.entry result }
{
    join(first, more, |a, b| Stmt::SuperCall { at: a, actuals: b })
}

//! Nodes of what heads of catches, `try` and `for` are made of.
ghost use Rattle.std.specs.Prelude.{ℕ, Bool, List, Option};
ghost use Rattle.jc_tree.specs.declared.expression.Expr.{Expr};
ghost use Rattle.jc_tree.specs.declared.expression.Init.{Init};
ghost use Rattle.jc_tree.specs.declared.name.Ident.{Ident};
ghost use Rattle.jc_tree.specs.declared.statement.ClauseHead.{ClauseHead};
ghost use Rattle.jc_tree.specs.declared.statement.ClauseHead.TheVariants as clause_head_of;
ghost use Rattle.jc_tree.specs.declared.statement.ForHead.{ForHead};
ghost use Rattle.jc_tree.specs.declared.statement.ForHead.TheVariants as for_of;
ghost use Rattle.jc_tree.specs.declared.statement.ForInit.TheVariants as init_of;
ghost use Rattle.jc_tree.specs.declared.statement.Modifier.{Modifier};
ghost use Rattle.jc_tree.specs.declared.statement.Resource.{Resource};
ghost use Rattle.jc_tree.specs.declared.statement.Resources.{Resources};
ghost use Rattle.jc_tree.specs.declared.statement.Var.{Var};
ghost use Rattle.jc_tree.specs.declared.types.ClassTree.{ClassTree};
ghost use Rattle.jc_tree.specs.declared.types.TypeTree.{TypeTree};
ghost use Rattle.jc_parse_nodes.specs.declared.head_parts.Caught.{Caught};
ghost use Rattle.jc_parse_nodes.specs.declared.head_parts.CaughtTypes.{CaughtTypes};
ghost use Rattle.jc_parse_nodes.specs.declared.head_parts.Valued.{Valued};
ghost use Rattle.jc_parse_nodes.specs.declared.head_parts.TypedValue.{TypedValue};
ghost use Rattle.jc_parse_nodes.specs.declared.head_parts.MoreResources.{MoreResources};
ghost use Rattle.jc_parse_nodes.specs.declared.head_parts.ForTail.{ForTail};
ghost use Rattle.jc_parse_nodes.specs.declared.head_parts.ForMore.{ForMore};
ghost use Rattle.jc_parse_nodes.specs.declared.head_parts.ForKind.{ForKind};
ghost use Rattle.jc_parse_nodes.specs.declared.head_parts.ForKind.TheVariants as kind_is;
ghost use Rattle.jc_parse_nodes.specs.declared.head_parts.ForDims.{ForDims};
ghost use Rattle.jc_parse_nodes.specs.declared.head_parts.ForNamed.{ForNamed};
ghost use Rattle.jc_parse_nodes.specs.declared.head_parts.ForTyped.{ForTyped};
ghost use Rattle.jc_parse_nodes.specs.declared.pieces.Opening.{Opening};
ghost use Rattle.jc_parse_nodes.specs.Joins.{Joined};

use crate::head_parts::{
    Caught, CaughtTypes, ForDims, ForKind, ForMore, ForNamed, ForTail, ForTyped, MoreResources,
    TypedValue, Valued,
};
use crate::joins::join;
use crate::pieces::Opening;
use jc_reading::{Found, Halt};
use jc_rules::Items;
use jc_tree::{
    ClassTree, ClauseHead, Expr, ForHead, ForInit, Ident, Init, Modifier, Resource, Resources,
    TypeTree, Var,
};

/// The types of a catch behind its first one, and its name.
pub fn caught_of<'a>(
    first: Found<'a, Items<ClassTree>>,
    more: Result<Found<'a, Ident>, Halt>,
) -> Result<Found<'a, Caught>, Halt>
    ensures { Joined {C = Caught} (λ (a : List ClassTree) (b : Ident). record { more = a; name = b }) first.entry more.entry result }
{
    join(first, more, |a, b| Caught { more: a, name: b })
}

/// The types of a catch, and its name.
pub fn caught_types_of<'a>(
    first: Found<'a, ClassTree>,
    more: Result<Found<'a, Caught>, Halt>,
) -> Result<Found<'a, CaughtTypes>, Halt>
    ensures { Joined {C = CaughtTypes} (λ (a : ClassTree) (b : Caught). record { first = a; more = b.more; name = b.name }) first.entry more.entry result }
{
    join(
        first,
        more,
        |a, b| CaughtTypes {
            first: a,
            more: b.more,
            name: b.name,
        },
    )
}

/// The head of a catch.
pub fn catch_head_of<'a>(
    first: Found<'a, Items<Modifier>>,
    more: Result<Found<'a, CaughtTypes>, Halt>,
) -> Result<Found<'a, ClauseHead>, Halt>
    ensures { Joined {C = ClauseHead} (λ (a : List Modifier) (b : CaughtTypes). clause_head_of.Catch a b.first b.more b.name) first.entry more.entry result }
{
    join(
        first,
        more,
        |a, b| ClauseHead::Catch {
            modifiers: a,
            first: b.first,
            more: b.more,
            name: b.name,
        },
    )
}

/// A catch up to its block.
pub fn catch_opening_of<'a>(
    first: Found<'a, u32>,
    more: Result<Found<'a, ClauseHead>, Halt>,
) -> Result<Found<'a, Opening>, Halt>
    ensures { Joined {C = Opening} (λ (a : ℕ) (b : ClauseHead). record { at = a; head = b }) first.entry more.entry result }
{
    join(first, more, |a, b| Opening { at: a, head: b })
}

/// A name and its value.
pub fn valued_of<'a>(
    first: Found<'a, Ident>,
    more: Result<Found<'a, Expr>, Halt>,
) -> Result<Found<'a, Valued>, Halt>
    ensures { Joined {C = Valued} (λ (a : Ident) (b : Expr). record { name = a; value = b }) first.entry more.entry result }
{
    join(first, more, |a, b| Valued { name: a, value: b })
}

/// A name and its value, behind their type.
pub fn typed_value_of<'a>(
    first: Found<'a, TypeTree>,
    more: Result<Found<'a, Valued>, Halt>,
) -> Result<Found<'a, TypedValue>, Halt>
    ensures { Joined {C = TypedValue} (λ (a : TypeTree) (b : Valued). record { ty = a; name = b.name; value = b.value }) first.entry more.entry result }
{
    join(
        first,
        more,
        |a, b| TypedValue {
            ty: a,
            name: b.name,
            value: b.value,
        },
    )
}

/// A resource.
pub fn resource_of<'a>(
    first: Found<'a, Items<Modifier>>,
    more: Result<Found<'a, TypedValue>, Halt>,
) -> Result<Found<'a, Resource>, Halt>
    ensures { Joined {C = Resource} (λ (a : List Modifier) (b : TypedValue). record { modifiers = a; ty = b.ty; name = b.name; value = b.value }) first.entry more.entry result }
{
    join(
        first,
        more,
        |a, b| Resource {
            modifiers: a,
            ty: b.ty,
            name: b.name,
            value: b.value,
        },
    )
}

/// The resources behind the first one.
pub fn more_resources_of<'a>(
    first: Found<'a, Items<Resource>>,
    more: Result<Found<'a, bool>, Halt>,
) -> Result<Found<'a, MoreResources>, Halt>
    ensures { Joined {C = MoreResources} (λ (a : List Resource) (b : Bool). record { more = a; trailing = b }) first.entry more.entry result }
{
    join(
        first,
        more,
        |a, b| MoreResources {
            more: a,
            trailing: b,
        },
    )
}

/// The resources of a `try`.
pub fn resources_of<'a>(
    first: Found<'a, Resource>,
    more: Result<Found<'a, MoreResources>, Halt>,
) -> Result<Found<'a, Resources>, Halt>
    ensures { Joined {C = Resources} (λ (a : Resource) (b : MoreResources). record { first = a; more = b.more; trailing = b.trailing }) first.entry more.entry result }
{
    join(
        first,
        more,
        |a, b| Resources {
            first: a,
            more: b.more,
            trailing: b.trailing,
        },
    )
}

/// A test and updates.
pub fn for_tail_of<'a>(
    first: Found<'a, Option<Expr>>,
    more: Result<Found<'a, Items<Expr>>, Halt>,
) -> Result<Found<'a, ForTail>, Halt>
    ensures { Joined {C = ForTail} (λ (a : Option Expr) (b : List Expr). record { test = a; update = b }) first.entry more.entry result }
{
    join(first, more, |a, b| ForTail { test: a, update: b })
}

/// The head of a `for` that begins with effects.
pub fn for_effects_of<'a>(
    first: Found<'a, Items<Expr>>,
    more: Result<Found<'a, ForTail>, Halt>,
) -> Result<Found<'a, ForHead>, Halt>
    ensures { Joined {C = ForHead} (λ (a : List Expr) (b : ForTail). for_of.Basic (init_of.Effects a) b.test b.update) first.entry more.entry result }
{
    join(
        first,
        more,
        |a, b| ForHead::Basic {
            init: ForInit::Effects(a),
            test: b.test,
            update: b.update,
        },
    )
}

/// Variables behind the first one, a test and updates.
pub fn for_more_of<'a>(
    first: Found<'a, Items<Var>>,
    more: Result<Found<'a, ForTail>, Halt>,
) -> Result<Found<'a, ForMore>, Halt>
    ensures { Joined {C = ForMore} (λ (a : List Var) (b : ForTail). record { more = a; test = b.test; update = b.update }) first.entry more.entry result }
{
    join(
        first,
        more,
        |a, b| ForMore {
            more: a,
            test: b.test,
            update: b.update,
        },
    )
}

/// What stands behind the first variable.
pub fn for_kind_of<'a>(
    first: Found<'a, Option<Init>>,
    more: Result<Found<'a, ForMore>, Halt>,
) -> Result<Found<'a, ForKind>, Halt>
    ensures { Joined {C = ForKind} (λ (a : Option Init) (b : ForMore). kind_is.Basic a b) first.entry more.entry result }
{
    join(first, more, |a, b| ForKind::Basic { init: a, more: b })
}

/// Brackets, and what stands behind them.
pub fn for_dims_of<'a>(
    first: Found<'a, u32>,
    more: Result<Found<'a, ForKind>, Halt>,
) -> Result<Found<'a, ForDims>, Halt>
    ensures { Joined {C = ForDims} (λ (a : ℕ) (b : ForKind). record { dims = a; kind = b }) first.entry more.entry result }
{
    join(first, more, |a, b| ForDims { dims: a, kind: b })
}

/// What begins with the name of a variable.
pub fn for_named_of<'a>(
    first: Found<'a, Ident>,
    more: Result<Found<'a, ForDims>, Halt>,
) -> Result<Found<'a, ForNamed>, Halt>
    ensures { Joined {C = ForNamed} (λ (a : Ident) (b : ForDims). record { name = a; dims = b.dims; kind = b.kind }) first.entry more.entry result }
{
    join(
        first,
        more,
        |a, b| ForNamed {
            name: a,
            dims: b.dims,
            kind: b.kind,
        },
    )
}

/// What begins with a type.
pub fn for_typed_of<'a>(
    first: Found<'a, TypeTree>,
    more: Result<Found<'a, ForNamed>, Halt>,
) -> Result<Found<'a, ForTyped>, Halt>
    ensures { Joined {C = ForTyped} (λ (a : TypeTree) (b : ForNamed). record { ty = a; named = b }) first.entry more.entry result }
{
    join(first, more, |a, b| ForTyped { ty: a, named: b })
}

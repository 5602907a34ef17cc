//! Nodes of primaries and creations, with their heights (JLS 15.8 to 15.14, 10.6).
ghost use Rattle.std.specs.Prelude.{◌≡◌, [], IfOk};
ghost use Rattle.jc_tree.specs.Heights.{array_height, base_height, creation_height, expr_height, init_height};
ghost use Rattle.jc_tree.specs.declared.expression.Creation.TheVariants as creation_of;
ghost use Rattle.jc_tree.specs.declared.expression.Expr.TheVariants as expr_of;
ghost use Rattle.jc_tree.specs.declared.expression.Init.TheVariants as init_of;
ghost use Rattle.jc_expr_laws.specs.PrimeReading.{array_made};
ghost use Rattle.jc_expr_laws.specs.PostReading.{changed};
ghost use Rattle.jc_parse_expr.specs.PrimeCode.{IsMeasured, args_height, exprs_height, member_height, of_member, of_selector, of_super, row_height, selector_height, skips_height};
ghost use Rattle.jc_parse_expr.specs.declared.parts.MemberTree.TheVariants as member_of;
ghost use Rattle.jc_parse_expr.specs.declared.parts.SelectorTree.TheVariants as selector_of;

use crate::measured::Measured;
use crate::parts::{MemberTree, Row, SelectorTree};
use jc_reading::{boxed_beside, three_boxed};
use jc_rules::{Boxed, Items, WantOfMemory};
use jc_tree::{
    ArrayInit, BaseTree, ClassTree, Creation, Expr, Ident, Init, PostfixOp, Skip, TypeArg,
    TypeTree, args_height, base_height, class_height, type_height,
};
use std::alloc::Global;

/// A name.
#[tactic(auto, using(crate::proofs::HeightSteps::primes))]
pub fn name_node(name: Ident) -> Measured<Expr>
    ensures { (result.tree ≡ expr_of.Name name) × IsMeasured expr_height result }
{
    Measured {
        tree: Expr::Name(name),
        height: 1,
    }
}

/// `this`.
#[tactic(auto, using(crate::proofs::HeightSteps::primes))]
pub fn this_node(at: u32) -> Measured<Expr>
    ensures { (result.tree ≡ expr_of.This at) × IsMeasured expr_height result }
{
    Measured {
        tree: Expr::This { at },
        height: 1,
    }
}

/// `void.class`.
#[tactic(auto, using(crate::proofs::HeightSteps::primes))]
pub fn void_node(at: u32) -> Measured<Expr>
    ensures { (result.tree ≡ expr_of.VoidLiteral at) × IsMeasured expr_height result }
{
    Measured {
        tree: Expr::VoidLiteral { at },
        height: 1,
    }
}

/// The class literal of a type.
#[tactic(auto, using(crate::proofs::HeightSteps::primes))]
pub fn class_node(alloc: Global, ty: TypeTree) -> Result<Measured<Expr>, WantOfMemory>
    ensures { IfOk result (λ r. (r.tree ≡ expr_of.ClassLiteral ty) × IsMeasured expr_height r) }
{
    let height = type_height(&ty);
    Ok(Measured {
        tree: Expr::ClassLiteral {
            ty: Boxed::new(alloc, ty)?,
        },
        height: height.saturating_add(1),
    })
}

/// `this` of a class around.
#[tactic(auto, using(crate::proofs::HeightSteps::primes))]
pub fn outer_node(
    alloc: Global,
    first: Ident,
    more: Items<Ident>,
) -> Result<Measured<Expr>, WantOfMemory>
    ensures { IfOk result (λ r. (r.tree ≡ expr_of.OuterThis first more) × IsMeasured expr_height r) }
{
    let (more, first) = boxed_beside(alloc, more, first)?;
    Ok(Measured {
        tree: Expr::OuterThis { first, more },
        height: 1,
    })
}

/// An expression in parentheses.
#[tactic(auto, using(crate::proofs::HeightSteps::primes))]
pub fn paren_node(
    alloc: Global,
    at: u32,
    inner: Measured<Expr>,
) -> Result<Measured<Expr>, WantOfMemory>
    requires { IsMeasured expr_height inner }
    ensures { IfOk result (λ r. (r.tree ≡ expr_of.Paren at inner.tree) × IsMeasured expr_height r) }
{
    Ok(Measured {
        height: inner.height.saturating_add(1),
        tree: Expr::Paren {
            at,
            inner: Boxed::new(alloc, inner.tree)?,
        },
    })
}

/// A value with a postfix operator behind it.
#[tactic(auto, using(crate::proofs::HeightSteps::primes))]
pub fn changed_node(
    alloc: Global,
    value: Measured<Expr>,
    op: PostfixOp,
) -> Result<Measured<Expr>, WantOfMemory>
    requires { IsMeasured expr_height value }
    ensures { IfOk result (λ r. (r.tree ≡ changed value.tree op) × IsMeasured expr_height r) }
{
    Ok(Measured {
        height: value.height.saturating_add(1),
        tree: Expr::Postfix {
            of: Boxed::new(alloc, value.tree)?,
            op,
        },
    })
}

/// A call of a method by its name alone.
#[tactic(auto, using(crate::proofs::HeightSteps::primes))]
pub fn invoke_node(
    alloc: Global,
    name: Ident,
    actuals: Measured<Items<Expr>>,
) -> Result<Measured<Expr>, WantOfMemory>
    ensures tree { IfOk result (λ r. r.tree ≡ expr_of.Invoke name actuals.tree) }
    ensures height { IsMeasured exprs_height actuals → IfOk result (λ r. IsMeasured expr_height r) }
{
    let height = actuals.height.saturating_add(1);
    let (actuals, name) = boxed_beside(alloc, actuals.tree, name)?;
    Ok(Measured {
        tree: Expr::Invoke { name, actuals },
        height,
    })
}

/// A member behind `super`.
#[tactic(auto, using(crate::proofs::HeightSteps::primes))]
pub fn super_node(at: u32, member: Measured<MemberTree>) -> Measured<Expr>
    requires { IsMeasured member_height member }
    ensures { (result.tree ≡ of_super at member.tree) × IsMeasured expr_height result }
{
    let height = member.height.saturating_add(1);
    match member.tree {
        MemberTree::Field(name) => Measured {
            tree: Expr::SuperField { at, name },
            height,
        },
        MemberTree::Call {
            type_args,
            name,
            actuals,
        } => Measured {
            tree: Expr::SuperCall {
                at,
                type_args,
                name,
                actuals,
            },
            height,
        },
    }
}

/// A creation behind `new`.
#[tactic(auto, using(crate::proofs::HeightSteps::primes))]
pub fn new_node(
    alloc: Global,
    at: u32,
    creation: Measured<Creation>,
) -> Result<Measured<Expr>, WantOfMemory>
    requires { IsMeasured creation_height creation }
    ensures { IfOk result (λ r. (r.tree ≡ expr_of.New at creation.tree) × IsMeasured expr_height r) }
{
    let height = creation.height.saturating_add(1);
    Ok(Measured {
        tree: Expr::New {
            at,
            creation: Boxed::new(alloc, creation.tree)?,
        },
        height,
    })
}

/// An expression as an initialiser.
#[tactic(auto, using(crate::proofs::HeightSteps::primes))]
pub fn value_init(value: Measured<Expr>) -> Measured<Init>
    requires { IsMeasured expr_height value }
    ensures { (result.tree ≡ init_of.Value value.tree) × IsMeasured init_height result }
{
    Measured {
        tree: Init::Value(value.tree),
        height: value.height,
    }
}

/// An array initialiser as a part of another.
#[tactic(auto, using(crate::proofs::HeightSteps::primes))]
pub fn nested_init(array: Measured<ArrayInit>) -> Measured<Init>
    requires { IsMeasured array_height array }
    ensures { (result.tree ≡ init_of.Nested array.tree) × IsMeasured init_height result }
{
    Measured {
        tree: Init::Nested(array.tree),
        height: array.height,
    }
}

/// An array initialiser by its parts.
#[tactic(auto, using(crate::proofs::HeightSteps::primes))]
pub fn array_node(at: u32, row: Measured<Row>) -> Measured<ArrayInit>
    requires { IsMeasured row_height row }
    ensures { (result.tree ≡ array_made (at, (row.tree.inits, row.tree.trailing))) × IsMeasured array_height result }
{
    let Row { inits, trailing } = row.tree;
    Measured {
        tree: ArrayInit {
            at,
            inits,
            trailing,
        },
        height: row.height.saturating_add(1),
    }
}

/// An array with an initialiser.
#[tactic(auto, using(crate::proofs::HeightSteps::primes))]
pub fn initialised_node(
    element: BaseTree,
    dims: u32,
    init: Measured<ArrayInit>,
) -> Measured<Creation>
    requires { IsMeasured array_height init }
    ensures { (result.tree ≡ creation_of.Initialised element dims init.tree) × IsMeasured creation_height result }
{
    let height = base_height(&element).max(init.height);
    Measured {
        tree: Creation::Initialised {
            element,
            dims,
            init: init.tree,
        },
        height,
    }
}

/// An array with lengths.
#[tactic(auto, using(crate::proofs::HeightSteps::primes))]
pub fn sized_node(
    alloc: Global,
    element: BaseTree,
    first: Measured<Expr>,
    more: Measured<Items<Expr>>,
    dims: u32,
) -> Result<Measured<Creation>, WantOfMemory>
    ensures tree { IfOk result (λ r. r.tree ≡ creation_of.Sized element first.tree more.tree dims) }
    ensures height { IsMeasured expr_height first → IsMeasured exprs_height more → IfOk result (λ r. IsMeasured creation_height r) }
{
    let height = base_height(&element).max(first.height).max(more.height);
    let (first, (element, more)) = boxed_beside(alloc, first.tree, (element, more.tree))?;
    Ok(Measured {
        tree: Creation::Sized {
            element,
            first,
            more,
            dims,
        },
        height,
    })
}

/// An object of a class.
#[tactic(auto, using(crate::proofs::HeightSteps::primes))]
pub fn object_node(
    class: ClassTree,
    diamond: bool,
    actuals: Measured<Items<Expr>>,
    body: Measured<Items<Skip>>,
) -> Measured<Creation>
    ensures tree { result.tree ≡ creation_of.Object class diamond actuals.tree body.tree }
    ensures height { IsMeasured exprs_height actuals → IsMeasured skips_height body → IsMeasured creation_height result }
{
    let height = class_height(&class).max(actuals.height).max(body.height);
    Measured {
        tree: Creation::Object {
            class,
            diamond,
            actuals: actuals.tree,
            body: body.tree,
        },
        height,
    }
}

/// A name behind a point.
pub fn field_part(name: Ident) -> Measured<MemberTree>
    ensures { (result.tree ≡ member_of.Field name) × IsMeasured member_height result }
{
    Measured {
        tree: MemberTree::Field(name),
        height: 0,
    }
}

/// A call behind a point.
pub fn call_part(
    alloc: Global,
    type_args: Items<TypeArg>,
    name: Ident,
    actuals: Measured<Items<Expr>>,
) -> Result<Measured<MemberTree>, WantOfMemory>
    ensures tree { IfOk result (λ r. r.tree ≡ member_of.Call type_args name actuals.tree) }
    ensures height { IsMeasured exprs_height actuals → IfOk result (λ r. IsMeasured member_height r) }
{
    let height = args_height(type_args.slice()).max(actuals.height);
    let (type_args, name, actuals) = three_boxed(alloc, type_args, name, actuals.tree)?;
    Ok(Measured {
        tree: MemberTree::Call {
            type_args,
            name,
            actuals,
        },
        height,
    })
}

/// An index as a selector.
pub fn index_part(index: Measured<Expr>) -> Measured<SelectorTree>
    requires { IsMeasured expr_height index }
    ensures { (result.tree ≡ selector_of.Index index.tree) × IsMeasured selector_height result }
{
    Measured {
        tree: SelectorTree::Index(index.tree),
        height: index.height,
    }
}

/// A creation as a selector.
pub fn new_part(creation: Measured<Creation>) -> Measured<SelectorTree>
    requires { IsMeasured creation_height creation }
    ensures { (result.tree ≡ selector_of.New creation.tree) × IsMeasured selector_height result }
{
    Measured {
        tree: SelectorTree::New(creation.tree),
        height: creation.height,
    }
}

/// A member as a selector.
pub fn member_part(member: Measured<MemberTree>) -> Measured<SelectorTree>
    requires { IsMeasured member_height member }
    ensures { (result.tree ≡ selector_of.Member member.tree) × IsMeasured selector_height result }
{
    Measured {
        tree: SelectorTree::Member(member.tree),
        height: member.height,
    }
}

/// An element of a value.
fn index_tree(alloc: Global, of: Boxed<Expr>, index: Expr) -> Result<Expr, WantOfMemory>
    ensures { IfOk result (λ r. r ≡ expr_of.Index of index) }
{
    match Boxed::new(alloc, index) {
        Ok(index) => Ok(Expr::Index { of, index }),
        Err(fault) => Err(fault),
    }
}

/// A member of a value.
fn member_tree(of: Boxed<Expr>, member: MemberTree) -> Expr
    ensures { result ≡ of_member of member }
{
    match member {
        MemberTree::Field(name) => Expr::Field { of, name },
        MemberTree::Call {
            type_args,
            name,
            actuals,
        } => Expr::Call {
            of,
            type_args,
            name,
            actuals,
        },
    }
}

/// What a selector selects of a value in its box.
fn selected_of(alloc: Global, of: Boxed<Expr>, selector: SelectorTree) -> Result<Expr, WantOfMemory>
    ensures { IfOk result (λ r. r ≡ of_selector of selector) }
{
    match selector {
        SelectorTree::Index(index) => index_tree(alloc, of, index),
        SelectorTree::New(creation) => Ok(Expr::InnerNew {
            of,
            creation: Boxed::new(alloc, creation)?,
        }),
        SelectorTree::Member(member) => Ok(member_tree(of, member)),
    }
}

/// What a selector selects of a value.
fn selected_tree(alloc: Global, value: Expr, selector: SelectorTree) -> Result<Expr, WantOfMemory>
    ensures { IfOk result (λ r. r ≡ of_selector value selector) }
{
    match boxed_beside(alloc, value, selector) {
        Ok((of, selector)) => selected_of(alloc, of, selector),
        Err(fault) => Err(fault),
    }
}

/// What a selector selects of a value, with its height.
#[tactic(auto, using(crate::proofs::Selections::selected_height))]
pub fn selected_node(
    alloc: Global,
    value: Measured<Expr>,
    selector: Measured<SelectorTree>,
) -> Result<Measured<Expr>, WantOfMemory>
    requires { IsMeasured expr_height value × IsMeasured selector_height selector }
    ensures { IfOk result (λ r. (r.tree ≡ of_selector value.tree selector.tree) × IsMeasured expr_height r) }
{
    let height = value.height.max(selector.height).saturating_add(1);
    match selected_tree(alloc, value.tree, selector.tree) {
        Ok(tree) => Ok(Measured { tree, height }),
        Err(fault) => Err(fault),
    }
}

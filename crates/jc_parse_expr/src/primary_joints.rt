//! Parts of primaries that were read one behind the other, put together.
ghost use Rattle.std.specs.Prelude.{◌≡◌, ℕ, ◌<◌, ◌∷◌, List, ◌^◌, length, min, IfOk};
ghost use Rattle.jc_lexer.specs.declared.token.Sign.TheVariants as sign_of;
ghost use Rattle.jc_lexer.specs.declared.token.Token.{Token};
ghost use Rattle.jc_tree.specs.declared.expression.Creation.{Creation};
ghost use Rattle.jc_tree.specs.Heights.{creation_height, expr_height};
ghost use Rattle.jc_reading.specs.Giving.{Is};
ghost use Rattle.jc_reading.specs.Kinds.{sign_code};
ghost use Rattle.jc_reading.specs.Reading.{Read, an_ident_at, any_number, as_new, before_it, in_turn, noting, of_kind};
ghost use Rattle.jc_expr_laws.specs.PrimeReading.{actuals_run, body_run, named_run, object_run};
ghost use Rattle.jc_parse_expr.specs.PrimeCode.{IsMeasured, Measures, Reads, called_tree, expr_in, exprs_height, length_run, member_height, named_made, named_tree, object_made, of_selector, selector_height, sized_made, sized_run, skips_height};
ghost use Rattle.jc_parse_expr.specs.declared.parts.MemberTree.{MemberTree};

use crate::measured::Measured;
use crate::parts::{MemberTree, SelectorTree};
use crate::primary_nodes::{
    call_part, field_part, invoke_node, name_node, object_node, selected_node, sized_node,
};
use jc_parse_type::dims;
use jc_reading::{Found, Halt, without};
use jc_rules::{Items, WantOfMemory};
use jc_tree::{BaseTree, ClassTree, Creation, Expr, Ident, Skip, TypeArg};
use std::alloc::Global;

/// The same answer, with a reach at least so far.
pub fn noting_creation<'a>(
    left: usize,
    read: Result<Found<'a, Measured<Creation>>, Halt>,
) -> Result<Found<'a, Measured<Creation>>, Halt>
    ensures { (m : Read Creation) → Measures creation_height read.entry m → Measures creation_height result (noting left m) }
{
    match read {
        Ok(found) => Ok(Found {
            value: found.value,
            rest: found.rest,
            left: left.min(found.left),
        }),
        Err(Halt::Stopped(reach)) => Err(Halt::Stopped(left.min(reach))),
        Err(Halt::WantOfMemory) => Err(Halt::WantOfMemory),
    }
}

/// The same answer, with a reach at least so far.
pub fn noting_member<'a>(
    left: usize,
    read: Result<Found<'a, Measured<MemberTree>>, Halt>,
) -> Result<Found<'a, Measured<MemberTree>>, Halt>
    ensures { (m : Read MemberTree) → Measures member_height read.entry m → Measures member_height result (noting left m) }
{
    match read {
        Ok(found) => Ok(Found {
            value: found.value,
            rest: found.rest,
            left: left.min(found.left),
        }),
        Err(Halt::Stopped(reach)) => Err(Halt::Stopped(left.min(reach))),
        Err(Halt::WantOfMemory) => Err(Halt::WantOfMemory),
    }
}

/// The same value, with a reach at least so far.
pub fn noting_start(left: usize, start: Found<'_, Measured<Expr>>) -> Found<'_, Measured<Expr>>
    ensures { (result.value ≡ start.entry.value) × (result.rest.now ≡ start.entry.rest.now) × (result.left ≡ min left start.entry.left) }
{
    Found {
        value: start.value,
        rest: start.rest,
        left: left.min(start.left),
    }
}

/// An array with its lengths.
pub fn sized_with<'a>(
    alloc: Global,
    element: BaseTree,
    first: Found<'_, Measured<Expr>>,
    more: Result<Found<'a, Measured<Items<Expr>>>, WantOfMemory>,
) -> Result<Found<'a, Measured<Creation>>, Halt>
    requires { IfOk more (λ m. length m.rest.now < 2 ^ 32) }
    ensures { (h : ℕ) (ts : List Token) → Reads expr_height first.entry (as_new before_it (in_turn (expr_in h) (of_kind (sign_code sign_of.RightBracket))) ts) → IfOk more.entry (λ m. Reads exprs_height m (any_number (length_run (expr_in h)) first.entry.rest.now)) → Measures creation_height result (as_new (sized_made element) (sized_run (expr_in h)) ts) }
{
    match more {
        Ok(more) => sized_of(alloc, element, first, more),
        Err(WantOfMemory) => Err(without((element, first), Halt::WantOfMemory)),
    }
}

/// An array of all its parts.
#[tactic(auto, using(crate::proofs::JointCode::sized_reads))]
fn sized_of<'a>(
    alloc: Global,
    element: BaseTree,
    first: Found<'_, Measured<Expr>>,
    more: Found<'a, Measured<Items<Expr>>>,
) -> Result<Found<'a, Measured<Creation>>, Halt>
    requires { length more.rest.now < 2 ^ 32 }
    ensures { (h : ℕ) (ts : List Token) → Reads expr_height first.entry (as_new before_it (in_turn (expr_in h) (of_kind (sign_code sign_of.RightBracket))) ts) → Reads exprs_height more.entry (any_number (length_run (expr_in h)) first.entry.rest.now) → Measures creation_height result (as_new (sized_made element) (sized_run (expr_in h)) ts) }
{
    let dims = dims(more.rest);
    let left = first.left.min(more.left.min(dims.left));
    match sized_node(alloc, element, first.value, more.value, dims.value) {
        Ok(value) => Ok(Found {
            value,
            rest: dims.rest,
            left,
        }),
        Err(WantOfMemory) => Err(Halt::WantOfMemory),
    }
}

/// An object with its actual arguments and its body.
pub fn object_with<'a>(
    class: ClassTree,
    diamond: bool,
    actuals: Found<'_, Measured<Items<Expr>>>,
    body: Result<Found<'a, Measured<Items<Skip>>>, WantOfMemory>,
) -> Result<Found<'a, Measured<Creation>>, Halt>
    ensures { (h : ℕ) (ts : List Token) → Reads exprs_height actuals.entry (actuals_run (expr_in h) ts) → IfOk body.entry (λ b. Reads skips_height b (body_run h actuals.entry.rest.now)) → Measures creation_height result (as_new (object_made class diamond) (object_run h (expr_in h)) ts) }
{
    match body {
        Ok(body) => Ok(object_of(class, diamond, actuals, body)),
        Err(WantOfMemory) => Err(without((class, actuals), Halt::WantOfMemory)),
    }
}

/// An object of all its parts.
#[tactic(auto, using(crate::proofs::JointCode::object_reads))]
fn object_of<'a>(
    class: ClassTree,
    diamond: bool,
    actuals: Found<'_, Measured<Items<Expr>>>,
    body: Found<'a, Measured<Items<Skip>>>,
) -> Found<'a, Measured<Creation>>
    ensures { (h : ℕ) (ts : List Token) → Reads exprs_height actuals.entry (actuals_run (expr_in h) ts) → Reads skips_height body.entry (body_run h actuals.entry.rest.now) → Reads creation_height result (as_new (object_made class diamond) (object_run h (expr_in h)) ts) }
{
    let left = actuals.left.min(body.left);
    let rest = body.rest;
    Found {
        value: object_node(class, diamond, actuals.value, body.value),
        rest,
        left,
    }
}

/// A call with type arguments.
#[tactic(auto, using(crate::proofs::JointCode::called_reads, crate::proofs::JointCode::called_stops))]
#[inline(never)]
pub fn called_with<'a>(
    alloc: Global,
    type_args: Items<TypeArg>,
    name: Found<'_, Ident>,
    actuals: Result<Found<'a, Measured<Items<Expr>>>, Halt>,
) -> Result<Found<'a, Measured<MemberTree>>, Halt>
    ensures { (h : ℕ) (ts : List Token) → Is name.entry (an_ident_at ts) → Measures exprs_height actuals.entry (actuals_run (expr_in h) name.entry.rest.now) → Measures member_height result (as_new (called_tree type_args) (in_turn an_ident_at (actuals_run (expr_in h))) ts) }
{
    match actuals {
        Ok(actuals) => {
            let left = name.left.min(actuals.left);
            let rest = actuals.rest;
            match call_part(alloc, type_args, name.value, actuals.value) {
                Ok(value) => Ok(Found { value, rest, left }),
                Err(WantOfMemory) => Err(Halt::WantOfMemory),
            }
        }
        Err(Halt::Stopped(left)) => {
            let left = name.left.min(left);
            Err(without((type_args, name), Halt::Stopped(left)))
        }
        Err(Halt::WantOfMemory) => Err(without((type_args, name), Halt::WantOfMemory)),
    }
}

/// A name, and its actual arguments where they stand there.
#[tactic(auto, using(crate::proofs::JointCode::named_reads, crate::proofs::JointCode::named_alone))]
#[inline(never)]
pub fn named_with<'a>(
    alloc: Global,
    name: Found<'a, Ident>,
    actuals: Result<Found<'a, Measured<Items<Expr>>>, Halt>,
) -> Result<Found<'a, Measured<MemberTree>>, Halt>
    ensures { (h : ℕ) (ts : List Token) → Is name.entry (an_ident_at ts) → Measures exprs_height actuals.entry (actuals_run (expr_in h) name.entry.rest.now) → Measures member_height result (as_new named_tree (named_run (expr_in h)) ts) }
{
    match actuals {
        Ok(actuals) => {
            let left = name.left.min(actuals.left);
            let rest = actuals.rest;
            match call_part(alloc, Items::new(alloc), name.value, actuals.value) {
                Ok(value) => Ok(Found { value, rest, left }),
                Err(WantOfMemory) => Err(Halt::WantOfMemory),
            }
        }
        Err(Halt::Stopped(left)) => Ok(Found {
            value: field_part(name.value),
            rest: name.rest,
            left: name.left.min(left),
        }),
        Err(Halt::WantOfMemory) => Err(Halt::WantOfMemory),
    }
}

/// A name as a start, and its actual arguments where they stand there.
#[tactic(auto, using(crate::proofs::JointCode::started_reads, crate::proofs::JointCode::started_alone))]
#[inline(never)]
pub fn started_with<'a>(
    alloc: Global,
    name: Found<'a, Ident>,
    actuals: Result<Found<'a, Measured<Items<Expr>>>, Halt>,
) -> Result<Found<'a, Measured<Expr>>, Halt>
    ensures { (h : ℕ) (ts : List Token) → Is name.entry (an_ident_at ts) → Measures exprs_height actuals.entry (actuals_run (expr_in h) name.entry.rest.now) → Measures expr_height result (as_new named_made (named_run (expr_in h)) ts) }
{
    match actuals {
        Ok(actuals) => {
            let left = name.left.min(actuals.left);
            let rest = actuals.rest;
            match invoke_node(alloc, name.value, actuals.value) {
                Ok(value) => Ok(Found { value, rest, left }),
                Err(WantOfMemory) => Err(Halt::WantOfMemory),
            }
        }
        Err(Halt::Stopped(left)) => Ok(Found {
            value: name_node(name.value),
            rest: name.rest,
            left: name.left.min(left),
        }),
        Err(Halt::WantOfMemory) => Err(Halt::WantOfMemory),
    }
}

/// A value with a selector behind it.
#[inline(never)]
pub fn selected_with<'a>(
    alloc: Global,
    value: Found<'_, Measured<Expr>>,
    part: Found<'a, Measured<SelectorTree>>,
) -> Result<Found<'a, Measured<Expr>>, WantOfMemory>
    requires { IsMeasured expr_height value.value × IsMeasured selector_height part.value }
    ensures { IfOk result (λ r. (r.value.tree ≡ of_selector value.entry.value.tree part.entry.value.tree) × (r.rest.now ≡ part.entry.rest.now) × (r.left ≡ min value.entry.left part.entry.left) × IsMeasured expr_height r.value) }
{
    let left = value.left.min(part.left);
    let rest = part.rest;
    match selected_node(alloc, value.value, part.value) {
        Ok(value) => Ok(Found { value, rest, left }),
        Err(fault) => Err(fault),
    }
}

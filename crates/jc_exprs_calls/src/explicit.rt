//! Explicit type arguments (JLS 15.12), and members that may be named at the place (JLS 15.12.2.1).
ghost use Rattle.std.specs.Prelude.{◌≡◌, IfOk};
ghost use Rattle.jc_types.specs.declared.form.Arg.{out-Arg};
ghost use Rattle.jc_exprs_nodes_spec.specs.Told.{unless};
ghost use Rattle.jc_exprs_nodes.specs.Walks.{as_breaks};
ghost use Rattle.jc_exprs_parts_spec.specs.Worlds.{written_arg};
ghost use Rattle.jc_exprs_spec.specs.Calls.{accessible, all_types, exact_or_null, explicit_types, is_type_at};
ghost use Rattle.jc_exprs_worlds.specs.Scenes.{IsWorldly, world_of};

use jc_exprs_fields::may_name_method;
use jc_exprs_nodes::refusal;
use jc_exprs_worlds::{Scene, written_arg};
use jc_members::MethodView;
use jc_resolve::copy_view;
use jc_rules::{Items, Place, Refusal, WantOfMemory};
use jc_sub::is_primitive;
use jc_tree::TypeArg;
use jc_types::{Arg, Ty};
use std::alloc::Global;

#[tactic(auto, using(jc_types::proofs::Opened::opened))]
fn is_type(arg: &Arg) -> bool
    ensures { result ≡ is_type_at (out-Arg arg.now) }
{
    match arg {
        Arg::Exact(ty) => !is_primitive(ty),
        _ => false,
    }
}

#[tactic(auto, using(jc_types::proofs::Opened::opened))]
fn exact_or_null(arg: Arg) -> Ty
    ensures { result ≡ exact_or_null (out-Arg arg) }
{
    match arg {
        Arg::Exact(ty) => ty,
        _ => Ty::NullTy,
    }
}

/// 623 where an explicit type argument is a wildcard or a primitive type.
pub fn explicit_break(
    alloc: Global,
    scene: &Scene,
    place: Place,
    explicit: &[TypeArg],
) -> Result<Option<Refusal>, WantOfMemory>
    requires { IsWorldly scene.now }
    ensures { IfOk result (λ r. unless (all_types (world_of scene.now) explicit.now) 623 place ≡ as_breaks r) }
{
    let mut rest = explicit;
    while let [arg, more @ ..] = rest {
        let written = written_arg(alloc, scene, arg)?;
        if !is_type(&written) {
            return Ok(Some(refusal(623, place)));
        }
        rest = more;
    }
    Ok(None)
}

/// Explicit type arguments; the null type in the place of what is no type.
#[tactic(auto, using(jc_exprs_nodes::proofs::Appending::appended))]
pub fn explicit_types(
    alloc: Global,
    scene: &Scene,
    explicit: &[TypeArg],
) -> Result<Items<Ty>, WantOfMemory>
    requires { IsWorldly scene.now }
    ensures { IfOk result (λ r. r ≡ explicit_types (world_of scene.now) explicit.now) }
{
    let mut types = Items::new(alloc);
    let mut rest = explicit;
    while let [arg, more @ ..] = rest {
        let written = written_arg(alloc, scene, arg)?;
        types.push(exact_or_null(written))?;
        rest = more;
    }
    Ok(types)
}

/// Of the members of a type those that may be named at the place.
#[tactic(auto, using(jc_exprs_nodes::proofs::Appending::appended))]
pub fn accessible(
    alloc: Global,
    scene: &Scene,
    ty: &Ty,
    members: &[MethodView],
) -> Result<Items<MethodView>, WantOfMemory>
    ensures { IfOk result (λ r. r ≡ accessible (world_of scene.now) ty.now members.now) }
{
    let mut nameable = Items::new(alloc);
    let mut rest = members;
    while let [member, more @ ..] = rest {
        if may_name_method(scene, ty, member.id) {
            nameable.push(copy_view(alloc, member)?)?;
        }
        rest = more;
    }
    Ok(nameable)
}

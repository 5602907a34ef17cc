//! Whether the arguments of a class type tell those of a type that it is cast to.
ghost use Rattle.std.specs.Prelude.{◌≡◌, IfOk};
ghost use Rattle.std.specs.Option.{option_copied};
ghost use Rattle.jc_types.specs.declared.form.Arg.{out-Arg};
ghost use Rattle.jc_types.specs.declared.form.Ty.{out-Ty};
ghost use Rattle.jc_unchecked_spec.specs.Casts.{is_told, is_variable_at, is_whole_at, layer_of, tells_all, tells_by, tells_one};

use crate::scene::{Scene, is_contained};
use jc_members::own_type;
use jc_rules::WantOfMemory;
use jc_sub::view;
use jc_types::{Arg, ClassId, Ty, VarId, class_vars};

#[tactic(auto, using(jc_types::proofs::Opened::opened))]
fn is_variable_at(scene: &Scene, p: VarId, t: &Ty) -> bool
    ensures { result ≡ is_variable_at scene.now.table.now scene.now.env.now.bounds p (out-Ty t.now) }
{
    let _scene = scene;
    match t {
        Ty::Variable(v) => v.0 == p.0,
        _ => false,
    }
}

// Whether an argument is a type parameter as it stands.
#[tactic(auto, using(jc_types::proofs::Opened::opened))]
fn is_whole_at(scene: &Scene, p: VarId, a: &Arg) -> bool
    ensures { result ≡ is_whole_at scene.now.table.now scene.now.env.now.bounds p (out-Arg a.now) }
{
    match a {
        Arg::Exact(t) => is_variable_at(scene, p, t),
        _ => false,
    }
}

// Whether the first argument beside which the view has p as it stands is contained in the wanted one.
fn tells_one(
    scene: &Scene,
    p: VarId,
    wanted: &Arg,
    view: &[Arg],
    own: &[Arg],
) -> Result<bool, WantOfMemory>
    ensures { IfOk result (λ r. r ≡ tells_one scene.now.table.now scene.now.env.now.bounds p wanted.now view.now own.now) }
{
    let mut rest = view;
    let mut left = own;
    while let [v, more @ ..] = rest {
        match left {
            [] => return Ok(false),
            [s, others @ ..] => {
                if is_whole_at(scene, p, v) {
                    return is_contained(scene, s, wanted);
                }
                left = others;
            }
        }
        rest = more;
    }
    Ok(false)
}

// The same of each of these parameters and its wanted argument, of which there are as many.
fn tells_all(
    scene: &Scene,
    view: &[Arg],
    own: &[Arg],
    vars: &[VarId],
    wanted: &[Arg],
) -> Result<bool, WantOfMemory>
    ensures { IfOk result (λ r. r ≡ tells_all scene.now.table.now scene.now.env.now.bounds view.now own.now vars.now wanted.now) }
{
    let mut rest = vars;
    let mut left = wanted;
    while let [p, more @ ..] = rest {
        match left {
            [] => return Ok(false),
            [a, others @ ..] => {
                if !tells_one(scene, *p, a, view, own)? {
                    return Ok(false);
                }
                left = others;
            }
        }
        rest = more;
    }
    match left {
        [] => Ok(true),
        [_, ..] => Ok(false),
    }
}

#[tactic(auto, using(jc_types::proofs::Opened::opened))]
fn tells_by(
    scene: &Scene,
    view: Option<&Ty>,
    own: &[Arg],
    vars: &[VarId],
    wanted: &[Arg],
) -> Result<bool, WantOfMemory>
    ensures { IfOk result (λ r. r ≡ tells_by scene.now.table.now scene.now.env.now.bounds (layer_of scene.now.table.now scene.now.env.now.bounds (option_copied view.entry)) own.now vars.now wanted.now) }
{
    match view {
        Some(view) => match view {
            Ty::Class { args, .. } => tells_all(scene, args.slice(), own, vars, wanted),
            _ => Ok(false),
        },
        None => Ok(false),
    }
}

/// Whether a class type with arguments tells by them all that a class is wanted to have.
#[tactic(auto, using(jc_types::proofs::Opened::opened))]
pub fn is_told(scene: &Scene, s: &Ty, class: ClassId, wanted: &[Arg]) -> Result<bool, WantOfMemory>
    ensures { IfOk result (λ r. r ≡ is_told scene.now.table.now scene.now.env.now.bounds (out-Ty s.now) class wanted.now) }
{
    match s {
        Ty::Class { id, args } => match args.slice() {
            [] => Ok(false),
            [_, ..] => {
                let inside = own_type(scene.alloc, scene.table, class)?;
                let seen = view(scene.alloc, scene.table, *id, &inside)?;
                let vars = class_vars(scene.table, class);
                tells_by(scene, seen.as_ref(), args.slice(), vars, wanted)
            }
        },
        _ => Ok(false),
    }
}

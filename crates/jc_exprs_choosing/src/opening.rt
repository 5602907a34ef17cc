//! Members that are applicable by variable arity: a call of one makes an array, whose elements' class is to be one that may be named there (JLS 15.12.2.4).
ghost use Rattle.std.specs.Prelude.{◌≡◌, Some};
ghost use Rattle.jc_resolve.specs.declared.choice.Choice.TheVariants as choice;
ghost use Rattle.jc_exprs_parts_spec.specs.Fields.{is_open_class};
ghost use Rattle.jc_exprs_spec.specs.Calls.{is_open_array, is_open_base, may_pass, open_choice};
ghost use Rattle.jc_exprs_worlds.specs.Scenes.{world_of};

use jc_exprs_worlds::Scene;
use jc_looking::{is_accessible, package_of, top_of_class};
use jc_resolve::{Choice, Chosen};
use jc_types::{Base, ClassId, Env, Phase, Ty, erasure};

// Whether a class may be named there.
#[tactic(auto, unfolding(jc_exprs_worlds::specs::Scenes::world_of))]
fn is_open_class(scene: &Scene, class: ClassId) -> bool
    ensures { result ≡ is_open_class (world_of scene.now) (Some class) }
{
    let heads = scene.names.declared.heads;
    let top = top_of_class(heads, scene.class.0);
    is_accessible(heads, package_of(heads, scene.class.0), Some(top), class.0)
}

// Whether a type of this base may be named there.
fn is_open_base(scene: &Scene, base: Base) -> bool
    ensures { result ≡ is_open_base (world_of scene.now) base }
{
    match base {
        Base::Class(class) => is_open_class(scene, class),
        _ => true,
    }
}

// Whether the erased class of the last parameter may be named there.
#[tactic(auto, using(jc_exprs_worlds::proofs::Told::worlds))]
fn is_open_array(scene: &Scene, env: &Env, params: &[Ty]) -> bool
    ensures { result ≡ is_open_array (world_of scene.now) env.now.bounds params.now }
{
    let mut rest = params;
    while let [param, more @ ..] = rest {
        if let [] = more {
            return is_open_base(scene, erasure(scene.table, env, param).base);
        }
        rest = more;
    }
    true
}

// Whether arguments may be passed to these parameters by this phase.
fn may_pass(scene: &Scene, env: &Env, phase: Phase, params: &[Ty]) -> bool
    ensures { result ≡ may_pass (world_of scene.now) env.now.bounds phase params.now }
{
    match phase {
        Phase::VariableArity => is_open_array(scene, env, params),
        _ => true,
    }
}

// A chosen member, where its arguments may be passed.
fn open_chosen(scene: &Scene, env: &Env, chosen: Chosen) -> Choice
    ensures { result ≡ open_choice (world_of scene.now) env.now.bounds (choice.Chosen chosen) }
{
    if may_pass(scene, env, chosen.phase, chosen.params.slice()) {
        return Choice::Chosen(chosen);
    }
    Choice::NoneApplicable
}

/// A choice, in which a member counts as not applicable where the array that its call by variable arity makes is of a class that may not be named there.
pub fn open_choice(scene: &Scene, env: &Env, choice: Choice) -> Choice
    ensures { result ≡ open_choice (world_of scene.now) env.now.bounds choice }
{
    match choice {
        Choice::Chosen(chosen) => open_chosen(scene, env, chosen),
        Choice::NoMember => Choice::NoMember,
        Choice::NoneApplicable => Choice::NoneApplicable,
        Choice::Ambiguous { first, second } => Choice::Ambiguous { first, second },
        Choice::Deep => Choice::Deep,
    }
}

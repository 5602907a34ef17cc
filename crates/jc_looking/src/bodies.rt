//! Names in the bodies and heads of types (JLS 6.3, 8.5).
ghost use Rattle.std.specs.Prelude.{◌≡◌, [], Some};
ghost use Rattle.std.specs.Option.{option_copied};
ghost use Rattle.jc_declares.specs.Heads.{round_of, unit_of};
ghost use Rattle.jc_declares.specs.Looking.{inherits, in_class, in_classes, in_body, in_head, member};
ghost use Rattle.jc_looking.specs.Members.{known_in};
ghost use Rattle.jc_looking.specs.Scenes.{IsScene};
ghost use Rattle.jc_looking.specs.Sights.{seen, class_sight, variable_sight, next, is_found};
ghost use Rattle.jc_looking.specs.Standings.{find_at};

use crate::access::{round_of, unit_of};
use crate::inherited::{Inherited, class_sight};
use crate::scene::{Scene, Sight, Standing};
use crate::units::in_unit;

/// What is known of a class.
pub fn known_of(known: &[Option<Inherited>], class: u64) -> Option<&Inherited>
    ensures { option_copied result ≡ known_in known.now class }
{
    match known.get(class as usize) {
        Some(Some(inherited)) => Some(inherited),
        _ => None,
    }
}

fn variable_sight(variable: Option<u64>) -> Sight
    ensures { result ≡ variable_sight variable }
{
    match variable {
        Some(variable) => Sight::Variable(variable),
        None => Sight::Nothing,
    }
}

/// The first, or the second where that is nothing.
fn or_next(first: Sight, second: Sight) -> Sight
    ensures { result ≡ next first second }
{
    match first {
        Sight::Nothing => second,
        _ => first,
    }
}

fn is_found(sight: Sight) -> bool
    ensures { result ≡ is_found sight }
{
    match sight {
        Sight::Nothing => false,
        _ => true,
    }
}

/// What a class inherits by a name.
#[tactic(auto, using(crate::proofs::Seen::last_seen))]
fn inherited(scene: &Scene, class: u64, name: &str) -> Sight
    ensures { result ≡ seen (inherits name.now (known_in scene.now.known.now class) (Some [])) }
{
    match known_of(scene.known, class) {
        Some(inherited) => inherited.sight(name),
        None => Sight::Asks,
    }
}

/// What a name means in the body of a class alone.
#[tactic(auto, using(crate::proofs::Seen::class_seen))]
fn in_class(scene: &Scene, class: u64, name: &str) -> Sight
    requires { IsScene scene.now.declared.heads.now scene.now.declared.index.now scene.now.imports.now }
    ensures { result ≡ seen (in_class scene.now.declared.heads.now (known_in scene.now.known.now) name.now class (Some [])) }
{
    let member = class_sight(scene.declared.member(class, name));
    let variable = variable_sight(scene.declared.class_variable(class, name));
    or_next(member, or_next(variable, inherited(scene, class, name)))
}

/// What a name means in the bodies of these classes, the innermost first, and outside of them.
#[tactic(auto, using(crate::proofs::Seen::classes_seen))]
fn in_classes(scene: &Scene, unit: u64, classes: &[u64], name: &str) -> Sight
    requires { IsScene scene.now.declared.heads.now scene.now.declared.index.now scene.now.imports.now }
    ensures { result ≡ seen (in_classes scene.now.declared.heads.now (known_in scene.now.known.now) name.now unit classes.now) }
{
    for class in classes {
        let found = in_class(scene, *class, name);
        if is_found(found) {
            return found;
        }
    }
    in_unit(scene, unit, name)
}

/// What a simple name means in the body of a class.
#[tactic(auto, using(crate::proofs::Seen::classes_seen))]
fn in_body(scene: &Scene, class: u64, name: &str) -> Sight
    requires { IsScene scene.now.declared.heads.now scene.now.declared.index.now scene.now.imports.now }
    ensures { result ≡ seen (in_body scene.now.declared.heads.now (known_in scene.now.known.now) class name.now) }
{
    let unit = unit_of(scene.declared.heads, class);
    let round = round_of(scene.declared.heads, class);
    or_next(
        in_class(scene, class, name),
        in_classes(scene, unit, round, name),
    )
}

/// What a simple name means in the head of a class.
#[tactic(auto, using(crate::proofs::Seen::variable_seen))]
fn in_head(scene: &Scene, class: u64, name: &str) -> Sight
    requires { IsScene scene.now.declared.heads.now scene.now.declared.index.now scene.now.imports.now }
    ensures { result ≡ seen (in_head scene.now.declared.heads.now (known_in scene.now.known.now) class name.now) }
{
    let unit = unit_of(scene.declared.heads, class);
    let round = round_of(scene.declared.heads, class);
    let variable = variable_sight(scene.declared.class_variable(class, name));
    or_next(variable, in_classes(scene, unit, round, name))
}

/// What a simple name means where it stands.
#[tactic(auto, using(crate::proofs::Seen::variable_seen))]
pub fn first_meaning(scene: &Scene, standing: Standing, name: &str) -> Sight
    requires { IsScene scene.now.declared.heads.now scene.now.declared.index.now scene.now.imports.now }
    ensures { result ≡ seen (find_at scene.now.declared.heads.now (known_in scene.now.known.now) standing name.now) }
{
    match standing {
        Standing::Unit(unit) => in_unit(scene, unit, name),
        Standing::Head(class) => in_head(scene, class, name),
        Standing::Body(class) => in_body(scene, class, name),
        Standing::Method { method, class } => {
            let variable = variable_sight(scene.declared.method_variable(method, name));
            or_next(variable, in_body(scene, class, name))
        }
    }
}

/// A member type of a class, declared or inherited.
#[tactic(auto, using(crate::proofs::Seen::member_seen))]
pub fn member(scene: &Scene, class: u64, name: &str) -> Sight
    requires { IsScene scene.now.declared.heads.now scene.now.declared.index.now scene.now.imports.now }
    ensures { result ≡ seen (member scene.now.declared.heads.now (known_in scene.now.known.now) class name.now) }
{
    let declared = class_sight(scene.declared.member(class, name));
    or_next(declared, inherited(scene, class, name))
}

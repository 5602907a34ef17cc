//! The wrong kind of supertype (JLS 8.1.4, 8.1.5, 9.1.3).
ghost use Rattle.std.specs.Prelude.{◌≡◌, ◌||◌, not, IfOk};
ghost use Rattle.jc_types.specs.Breaks.{least};
ghost use Rattle.jc_declares.specs.Heads.{is_interface, is_final};
ghost use Rattle.jc_declares.specs.HeadBreaks.{broken_at, unless, superclass_breaks, interface_breaks, super_breaks};
ghost use Rattle.jc_looking.specs.Members.{known_in};
ghost use Rattle.jc_looking.specs.Scenes.{IsScene};
ghost use Rattle.jc_name_rules.specs.Sighted.{superclass_seen, interface_seen};

use jc_declares::{ClassHead, Heads};
use jc_looking::{Scene, Sight, Standing, may_be_named, meaning};
use jc_rules::{Place, Refusal, Rule, WantOfMemory};
use jc_types::Kind;
use jc_written::{is_own, or_break};
use std::alloc::Global;

/// Whether a type is an interface.
pub fn is_interface(heads: &Heads, class: u64) -> bool
    ensures { result ≡ is_interface heads.now class }
{
    match heads.classes.get(class as usize) {
        Some(head) => matches!(head.kind, Kind::Interface),
        None => false,
    }
}

fn is_final(heads: &Heads, class: u64) -> bool
    ensures { result ≡ is_final heads.now class }
{
    match heads.classes.get(class as usize) {
        Some(head) => head.is_final,
        None => false,
    }
}

/// Whether what is seen of a superclass is a class that isn't final.
fn superclass_fits(heads: &Heads, class: u64, sight: Sight) -> bool
    ensures { result ≡ superclass_seen heads.now class sight }
{
    match sight {
        Sight::Class(other) => !is_interface(heads, other) && !is_final(heads, other),
        Sight::Variable(variable) => !is_own(heads, variable, Some(class)),
        _ => true,
    }
}

/// Whether what is seen of a superinterface is an interface.
fn interface_fits(heads: &Heads, class: u64, sight: Sight) -> bool
    ensures { result ≡ interface_seen heads.now class sight }
{
    match sight {
        Sight::Class(other) => is_interface(heads, other),
        Sight::Variable(variable) => !is_own(heads, variable, Some(class)),
        _ => true,
    }
}

/// A rule is broken at a name that may be named and doesn't fit.
fn unless_fits(
    is_nameable: bool,
    fits: bool,
    file: u64,
    at: u32,
    found: Option<Refusal>,
) -> Option<Refusal>
    ensures { result ≡ least found (unless (not is_nameable || fits) (broken_at 305 file at)) }
{
    if !is_nameable || fits {
        return found;
    }
    or_break(found, Rule::known(305), Place { file, at })
}

#[tactic(auto, using(crate::proofs::SuperKinds::superclass_told, crate::proofs::Counting::counting))]
fn superclass_broken(
    alloc: Global,
    scene: &Scene,
    number: u64,
    class: &ClassHead,
    found: Option<Refusal>,
) -> Result<Option<Refusal>, WantOfMemory>
    requires { IsScene scene.now.declared.heads.now scene.now.declared.index.now scene.now.imports.now }
    ensures { IfOk result (λ it. it ≡ least found (superclass_breaks scene.now.declared.heads.now (known_in scene.now.known.now) number class.now class.now.superclass)) }
{
    let mut found = found;
    let standing = Standing::Head(number);
    for path in class.superclass.slice() {
        let is_nameable = may_be_named(alloc, scene, standing, path)?;
        let sight = meaning(alloc, scene, standing, path)?;
        let fits = superclass_fits(scene.declared.heads, number, sight);
        found = unless_fits(is_nameable, fits, class.file, path.at, found);
    }
    Ok(found)
}

#[tactic(auto, using(crate::proofs::SuperKinds::interface_told, crate::proofs::Counting::counting))]
fn interface_broken(
    alloc: Global,
    scene: &Scene,
    number: u64,
    class: &ClassHead,
    found: Option<Refusal>,
) -> Result<Option<Refusal>, WantOfMemory>
    requires { IsScene scene.now.declared.heads.now scene.now.declared.index.now scene.now.imports.now }
    ensures { IfOk result (λ it. it ≡ least found (interface_breaks scene.now.declared.heads.now (known_in scene.now.known.now) number class.now class.now.interfaces)) }
{
    let mut found = found;
    let standing = Standing::Head(number);
    for path in class.interfaces.slice() {
        let is_nameable = may_be_named(alloc, scene, standing, path)?;
        let sight = meaning(alloc, scene, standing, path)?;
        let fits = interface_fits(scene.declared.heads, number, sight);
        found = unless_fits(is_nameable, fits, class.file, path.at, found);
    }
    Ok(found)
}

/// The first rule that the supertypes of a class break by their kind.
#[tactic(auto, using(crate::proofs::Counting::counting))]
pub fn supers_broken(
    alloc: Global,
    scene: &Scene,
    number: u64,
    class: &ClassHead,
    found: Option<Refusal>,
) -> Result<Option<Refusal>, WantOfMemory>
    requires { IsScene scene.now.declared.heads.now scene.now.declared.index.now scene.now.imports.now }
    ensures { IfOk result (λ it. it ≡ least found (super_breaks scene.now.declared.heads.now (known_in scene.now.known.now) number class.now)) }
{
    let found = superclass_broken(alloc, scene, number, class, found)?;
    interface_broken(alloc, scene, number, class, found)
}

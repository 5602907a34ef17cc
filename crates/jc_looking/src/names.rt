//! Names of several parts (JLS 6.5.2, 6.5.5.2).
ghost use Rattle.std.specs.Prelude.{◌≡◌, ◌++◌, IfOk, OnOk, drop};
ghost use Rattle.jc_declares.specs.Looking.{look_up, all_accessible};
ghost use Rattle.jc_declares.specs.Knowing.{passed_all};
ghost use Rattle.jc_looking.specs.Members.{known_in};
ghost use Rattle.jc_looking.specs.Scenes.{IsScene};
ghost use Rattle.jc_looking.specs.Sights.{seen, part_seen, parts_seen, packages_seen, class_in, passed_seen, passed_packages_seen};
ghost use Rattle.jc_looking.specs.Standings.{asking, asker_at, find_at};

use crate::access::{is_accessible, package_of, round_of, top_of_class, unit_package};
use crate::bodies::{first_meaning, member};
use crate::scene::{Scene, Sight, Standing};
use jc_declares::{Heads, Path};
use jc_rules::{Items, Text, WantOfMemory};
use std::alloc::Global;

/// What one more part means behind what the parts before it mean.
fn next_part(scene: &Scene, found: Sight, part: &Text) -> Sight
    requires { IsScene scene.now.declared.heads.now scene.now.declared.index.now scene.now.imports.now }
    ensures { result ≡ part_seen scene.now.declared.heads.now (known_in scene.now.known.now) found part.now }
{
    match found {
        Sight::Class(class) => member(scene, class, part.str()),
        Sight::Variable(_) => Sight::Nothing,
        _ => found,
    }
}

/// What further parts mean, from one on, behind what the parts before them mean.
fn with_parts(scene: &Scene, parts: &[Text], from: usize, first: Sight) -> Sight
    requires { IsScene scene.now.declared.heads.now scene.now.declared.index.now scene.now.imports.now }
    ensures { result ≡ parts_seen scene.now.declared.heads.now (known_in scene.now.known.now) (drop from parts.now) first }
{
    let mut found = first;
    for at in from..parts.len() {
        found = next_part(scene, found, &parts[at]);
    }
    found
}

/// What further parts mean behind a package.
fn in_packages(
    alloc: Global,
    scene: &Scene,
    first: &Text,
    more: &[Text],
) -> Result<Sight, WantOfMemory>
    requires { IsScene scene.now.declared.heads.now scene.now.declared.index.now scene.now.imports.now }
    ensures { IfOk result (λ it. it ≡ packages_seen scene.now.declared.heads.now (known_in scene.now.known.now) first.now more.now) }
{
    let mut package = String::from_str(alloc, first.str())?;
    for at in 0..more.len() {
        let found = scene
            .declared
            .type_of_package(package.as_str(), more[at].str());
        if let Some(class) = found {
            return Ok(with_parts(scene, more, at + 1, Sight::Class(class)));
        }
        package.push_str(".")?;
        package.push_str(more[at].str())?;
    }
    Ok(Sight::Nothing)
}

/// What a name means where it stands.
#[tactic(auto, using(crate::proofs::Parts::look_up_seen))]
pub fn meaning(
    alloc: Global,
    scene: &Scene,
    standing: Standing,
    name: &Path,
) -> Result<Sight, WantOfMemory>
    requires { IsScene scene.now.declared.heads.now scene.now.declared.index.now scene.now.imports.now }
    ensures { IfOk result (λ it. let heads = scene.now.declared.heads.now in let known = known_in scene.now.known.now in it ≡ seen (look_up heads known (find_at heads known standing) name.now.first name.now.more)) }
{
    match first_meaning(scene, standing, name.first.str()) {
        Sight::Nothing => in_packages(alloc, scene, &name.first, name.more.slice()),
        first => Ok(with_parts(scene, name.more.slice(), 0, first)),
    }
}

fn push_class(passed: &mut Items<u64>, found: Sight) -> Result<(), WantOfMemory>
    ensures { OnOk result (passed.new ≡ passed.old ++ class_in found) }
{
    match found {
        Sight::Class(class) => passed.push(class),
        _ => Ok(()),
    }
}

/// Lists the classes that parts name, from one on, behind what the parts before them mean.
fn pass_parts(
    scene: &Scene,
    parts: &[Text],
    from: usize,
    first: Sight,
    passed: &mut Items<u64>,
) -> Result<(), WantOfMemory>
    requires { IsScene scene.now.declared.heads.now scene.now.declared.index.now scene.now.imports.now }
    ensures { OnOk result (passed.new ≡ passed.old ++ passed_seen scene.now.declared.heads.now (known_in scene.now.known.now) (drop from parts.now) first) }
{
    let mut found = first;
    for at in from..parts.len() {
        push_class(passed, found)?;
        found = next_part(scene, found, &parts[at]);
    }
    push_class(passed, found)
}

/// Lists the classes that parts name behind a package.
fn pass_packages(
    alloc: Global,
    scene: &Scene,
    first: &Text,
    more: &[Text],
    passed: &mut Items<u64>,
) -> Result<(), WantOfMemory>
    requires { IsScene scene.now.declared.heads.now scene.now.declared.index.now scene.now.imports.now }
    ensures { OnOk result (passed.new ≡ passed.old ++ passed_packages_seen scene.now.declared.heads.now (known_in scene.now.known.now) first.now more.now) }
{
    let mut package = String::from_str(alloc, first.str())?;
    for at in 0..more.len() {
        let found = scene
            .declared
            .type_of_package(package.as_str(), more[at].str());
        if let Some(class) = found {
            return pass_parts(scene, more, at + 1, Sight::Class(class), passed);
        }
        package.push_str(".")?;
        package.push_str(more[at].str())?;
    }
    Ok(())
}

/// Lists the classes that a name names, part by part, where it stands.
#[tactic(auto, using(crate::proofs::Parts::passed_all_seen))]
pub fn pass(
    alloc: Global,
    scene: &Scene,
    standing: Standing,
    name: &Path,
    passed: &mut Items<u64>,
) -> Result<(), WantOfMemory>
    requires { IsScene scene.now.declared.heads.now scene.now.declared.index.now scene.now.imports.now }
    ensures { let heads = scene.now.declared.heads.now in let known = known_in scene.now.known.now in OnOk result (passed.new ≡ passed.old ++ passed_all heads known name.now.first name.now.more (find_at heads known standing name.now.first)) }
{
    match first_meaning(scene, standing, name.first.str()) {
        Sight::Nothing => pass_packages(alloc, scene, &name.first, name.more.slice(), passed),
        first => pass_parts(scene, name.more.slice(), 0, first, passed),
    }
}

/// The package of who names a type there.
fn package_at<'a>(scene: &Scene<'a>, standing: Standing) -> &'a str
    ensures { result.now ≡ (asker_at scene.now.declared.heads.now standing).«package» }
{
    match standing {
        Standing::Unit(unit) => unit_package(scene.declared.heads, unit),
        Standing::Head(class) => package_of(scene.declared.heads, class),
        Standing::Body(class) => package_of(scene.declared.heads, class),
        Standing::Method { class, .. } => package_of(scene.declared.heads, class),
    }
}

/// The type of a unit inside of which a type is named there. A head is inside of the bodies of the classes round its class alone.
fn top_at(scene: &Scene, standing: Standing) -> Option<u64>
    ensures { result ≡ (asker_at scene.now.declared.heads.now standing).top }
{
    match standing {
        Standing::Unit(_) => None,
        Standing::Head(class) if round_of(scene.declared.heads, class).is_empty() => None,
        Standing::Head(class) => Some(top_of_class(scene.declared.heads, class)),
        Standing::Body(class) => Some(top_of_class(scene.declared.heads, class)),
        Standing::Method { class, .. } => Some(top_of_class(scene.declared.heads, class)),
    }
}

fn all_accessible(heads: &Heads, package: &str, top: Option<u64>, classes: &[u64]) -> bool
    ensures { result ≡ all_accessible heads.now (asking «package».now top) classes.now }
{
    for class in classes {
        if !is_accessible(heads, package, top, *class) {
            return false;
        }
    }
    true
}

/// Whether each class that a name names, part by part, may be named where it stands (JLS 6.6).
pub fn may_be_named(
    alloc: Global,
    scene: &Scene,
    standing: Standing,
    name: &Path,
) -> Result<bool, WantOfMemory>
    requires { IsScene scene.now.declared.heads.now scene.now.declared.index.now scene.now.imports.now }
    ensures { IfOk result (λ it. let heads = scene.now.declared.heads.now in let known = known_in scene.now.known.now in it ≡ all_accessible heads (asker_at heads standing) (passed_all heads known name.now.first name.now.more (find_at heads known standing name.now.first))) }
{
    let mut passed = Items::new(alloc);
    pass(alloc, scene, standing, name, &mut passed)?;
    let package = package_at(scene, standing);
    let top = top_at(scene, standing);
    Ok(all_accessible(scene.declared.heads, package, top, passed.slice()))
}

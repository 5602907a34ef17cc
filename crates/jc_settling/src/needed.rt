//! The supertypes that a class writes, and the classes that it needs (JLS 8.1.4).
ghost use Rattle.std.specs.Prelude.{◌≡◌, ◌++◌, IfOk, OnOk, slice_get};
ghost use Rattle.jc_declares.specs.Heads.{supers_of};
ghost use Rattle.jc_declares.specs.Knowing.{needs, passed_by_all, written_supers};
ghost use Rattle.jc_looking.specs.Members.{known_in};
ghost use Rattle.jc_looking.specs.Scenes.{IsScene};
ghost use Rattle.jc_looking.specs.Sights.{class_in};
ghost use Rattle.jc_settling.specs.Supers.{superclass_in, interfaces_in, asks, before, behind};

use jc_declares::{Heads, Path};
use jc_looking::{Scene, Sight, Standing, meaning, pass, round_of};
use jc_rules::{Items, WantOfMemory};
use std::alloc::Global;

fn superclass_of(heads: &Heads, class: u64) -> &[Path]
    ensures { result.now ≡ superclass_in (slice_get heads.now.classes class) }
{
    match heads.classes.get(class as usize) {
        Some(head) => head.superclass.slice(),
        None => &[],
    }
}

fn interfaces_of(heads: &Heads, class: u64) -> &[Path]
    ensures { result.now ≡ interfaces_in (slice_get heads.now.classes class) }
{
    match heads.classes.get(class as usize) {
        Some(head) => head.interfaces.slice(),
        None => &[],
    }
}

fn push_all(list: &mut Items<u64>, more: &[u64]) -> Result<(), WantOfMemory>
    ensures { OnOk result (list.new ≡ list.old ++ more.now) }
{
    for class in more {
        list.push(*class)?;
    }
    Ok(())
}

/// Lists the classes that these names name in the head of a class, part by part.
fn push_passed(
    alloc: Global,
    scene: &Scene,
    class: u64,
    names: &[Path],
    passed: &mut Items<u64>,
) -> Result<(), WantOfMemory>
    requires { IsScene scene.now.declared.heads.now scene.now.declared.index.now scene.now.imports.now }
    ensures { OnOk result (passed.new ≡ passed.old ++ passed_by_all scene.now.declared.heads.now (known_in scene.now.known.now) class names.now) }
{
    for name in names {
        pass(alloc, scene, Standing::Head(class), name, passed)?;
    }
    Ok(())
}

/// The classes that a class needs: those round it, its supertypes, and the types that qualify their names.
#[tactic(auto, using(crate::proofs::Supers::needs_joined))]
pub fn needs(alloc: Global, scene: &Scene, class: u64) -> Result<Items<u64>, WantOfMemory>
    requires { IsScene scene.now.declared.heads.now scene.now.declared.index.now scene.now.imports.now }
    ensures { IfOk result (λ it. it ≡ needs scene.now.declared.heads.now (known_in scene.now.known.now) class) }
{
    let heads = scene.declared.heads;
    let mut needed = Items::new(alloc);
    push_all(&mut needed, round_of(heads, class))?;
    push_passed(
        alloc,
        scene,
        class,
        superclass_of(heads, class),
        &mut needed,
    )?;
    push_passed(
        alloc,
        scene,
        class,
        interfaces_of(heads, class),
        &mut needed,
    )?;
    Ok(needed)
}

fn asks(sight: Sight) -> bool
    ensures { result ≡ asks sight }
{
    match sight {
        Sight::Asks => true,
        _ => false,
    }
}

fn push_class(list: &mut Items<u64>, sight: Sight) -> Result<(), WantOfMemory>
    ensures { OnOk result (list.new ≡ list.old ++ class_in sight) }
{
    match sight {
        Sight::Class(class) => list.push(class),
        _ => Ok(()),
    }
}

/// Lists the classes that these names mean in the head of a class. False where that asks of a class of which nothing is known.
fn push_supers(
    alloc: Global,
    scene: &Scene,
    class: u64,
    names: &[Path],
    supers: &mut Items<u64>,
) -> Result<bool, WantOfMemory>
    requires { IsScene scene.now.declared.heads.now scene.now.declared.index.now scene.now.imports.now }
    ensures { IfOk result (λ all. behind all supers.new ≡ before supers.old (written_supers scene.now.declared.heads.now (known_in scene.now.known.now) class names.now)) }
{
    for name in names {
        let sight = meaning(alloc, scene, Standing::Head(class), name)?;
        if asks(sight) {
            return Ok(false);
        }
        push_class(supers, sight)?;
    }
    Ok(true)
}

/// The classes that a class writes as its supertypes, in their order, unless that asks of a class of which nothing is known.
pub fn written_supers(
    alloc: Global,
    scene: &Scene,
    class: u64,
) -> Result<Option<Items<u64>>, WantOfMemory>
    requires { IsScene scene.now.declared.heads.now scene.now.declared.index.now scene.now.imports.now }
    ensures { IfOk result (λ it. it ≡ written_supers scene.now.declared.heads.now (known_in scene.now.known.now) class (supers_of scene.now.declared.heads.now class)) }
{
    let heads = scene.declared.heads;
    let mut supers = Items::new(alloc);
    if !push_supers(
        alloc,
        scene,
        class,
        superclass_of(heads, class),
        &mut supers,
    )? {
        return Ok(None);
    }
    if !push_supers(
        alloc,
        scene,
        class,
        interfaces_of(heads, class),
        &mut supers,
    )? {
        return Ok(None);
    }
    Ok(Some(supers))
}

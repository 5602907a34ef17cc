//! Classes that need themselves.
ghost use Rattle.std.specs.Prelude.{◌≡◌, IfOk};
ghost use Rattle.jc_declares.specs.Knowing.{known, needs};
ghost use Rattle.jc_looking.specs.Members.{known_in};
ghost use Rattle.jc_looking.specs.Scenes.{IsScene};
ghost use Rattle.jc_cycles.specs.Cycles.{places, places_unless, rows_below, AreCyclic};

use jc_components::on_cycles;
use jc_looking::{Scene, known_of};
use jc_rules::{Items, WantOfMemory};
use jc_settling::needs;
use std::alloc::Global;

/// Those of these numbers that are places of classes.
fn places(alloc: Global, count: u64, classes: &[u64]) -> Result<Items<u64>, WantOfMemory>
    ensures { IfOk result (λ it. it ≡ places count classes.now) }
{
    let mut list = Items::new(alloc);
    for class in classes {
        if *class < count {
            list.push(*class)?;
        }
    }
    Ok(list)
}

/// What a class that isn't known needs, as places of classes.
fn row_of(alloc: Global, scene: &Scene, count: u64, class: u64) -> Result<Items<u64>, WantOfMemory>
    requires { IsScene scene.now.declared.heads.now scene.now.declared.index.now scene.now.imports.now }
    ensures { IfOk result (λ it. it ≡ places_unless (known_in scene.now.known.now class) count (needs scene.now.declared.heads.now (known_in scene.now.known.now) class)) }
{
    match known_of(scene.known, class) {
        Some(_) => Ok(Items::new(alloc)),
        None => {
            let needed = needs(alloc, scene, class)?;
            places(alloc, count, needed.slice())
        }
    }
}

/// What the classes need that aren't known.
#[tactic(auto, using(crate::proofs::Rowed::row_pushed))]
fn rows(alloc: Global, scene: &Scene, count: usize) -> Result<Items<Items<u64>>, WantOfMemory>
    requires { IsScene scene.now.declared.heads.now scene.now.declared.index.now scene.now.imports.now }
    ensures { IfOk result (λ it. it ≡ rows_below scene.now.declared.heads.now (known_in scene.now.known.now) count count) }
{
    let mut rows = Items::new(alloc);
    for class in 0..count {
        rows.push(row_of(alloc, scene, count as u64, class as u64)?)?;
    }
    Ok(rows)
}

/// Of each class whether it depends on itself, where all is known of the classes that can be.
pub fn cyclic(alloc: Global, scene: &Scene) -> Result<Items<bool>, WantOfMemory>
    requires scene { IsScene scene.now.declared.heads.now scene.now.declared.index.now scene.now.imports.now }
    requires known { known_in scene.now.known.now ≡ known scene.now.declared.heads.now }
    ensures { IfOk result (λ it. AreCyclic scene.now.declared.heads.now it) }
{
    let count = scene.declared.heads.classes.len();
    let rows = rows(alloc, scene, count)?;
    let marks = on_cycles(alloc, rows.slice())?;
    Ok(marks)
}

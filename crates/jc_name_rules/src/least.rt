//! The first of all broken rules of names.
ghost use Rattle.std.specs.Prelude.{◌≡◌, ℕ, IfOk, slice_get};
ghost use Rattle.jc_types.specs.Breaks.{least, LeastOf};
ghost use Rattle.jc_declares.specs.Heads.{heads_of};
ghost use Rattle.jc_declares.specs.Knowing.{known};
ghost use Rattle.jc_declares.specs.HeadBreaks.{first_package, of_each, unit_breaks, class_breaks, head_breaks};
ghost use Rattle.jc_declares.specs.Breaks.{class_site_breaks, method_site_breaks, field_site_breaks, use_site_breaks, site_breaks, BreaksNames};
ghost use Rattle.jc_name_index.specs.Index.{IsIndex};
ghost use Rattle.jc_looking.specs.Members.{known_in};
ghost use Rattle.jc_looking.specs.Scenes.{IsScene};
ghost use Rattle.jc_sites.specs.Joining.{sites_seen};
ghost use Rattle.jc_name_rules.specs.Cycles.{AreCyclic, is_marked, cycle_breaks};
ghost use Rattle.jc_name_rules.specs.Singles.{AllSingles};

use crate::classes::twice_broken;
use crate::imports;
use crate::members::{fields_broken, variables_broken};
use crate::packages::{first_package, package_broken};
use crate::singles::{Singles, singles_of};
use crate::sites::{class_site_broken, field_site_broken, method_site_broken, use_site_broken};
use crate::supers::supers_broken;
use jc_declares::{ClassHead, Heads, UnitHead};
use jc_looking::Scene;
use jc_name_index::Indexed;
use jc_rules::{Items, Place, Refusal, Rule, WantOfMemory};
use jc_sites::{ClassSite, FieldSite, MethodSite, Sites, UseSite};
use jc_written::or_break;
use std::alloc::Global;

#[tactic(auto, using(crate::proofs::Counting::counting))]
fn unit_broken(
    alloc: Global,
    declared: &Indexed,
    first: &str,
    unit: &UnitHead,
    found: Option<Refusal>,
) -> Result<Option<Refusal>, WantOfMemory>
    requires index { IsIndex declared.now.heads.now declared.now.index.now }
    requires first { first.now ≡ first_package declared.now.heads.now.units }
    ensures { (k : ℕ) → IfOk result (λ it. it ≡ least found (unit_breaks declared.now.heads.now k unit.now)) }
{
    let found = package_broken(first, unit, found);
    let found = imports::twice_broken(alloc, declared, unit.file, unit.imports.slice(), found)?;
    let found = imports::imports_broken(alloc, declared, unit, found)?;
    Ok(found)
}

#[tactic(auto, using(crate::proofs::Counting::counting))]
fn units_broken(
    alloc: Global,
    declared: &Indexed,
    found: Option<Refusal>,
) -> Result<Option<Refusal>, WantOfMemory>
    requires { IsIndex declared.now.heads.now declared.now.index.now }
    ensures { IfOk result (λ it. it ≡ least found (of_each (unit_breaks declared.now.heads.now) 0 declared.now.heads.now.units)) }
{
    let first = first_package(declared.heads.units.slice());
    let mut found = found;
    for unit in declared.heads.units.slice() {
        found = unit_broken(alloc, declared, first, unit, found)?;
    }
    Ok(found)
}

/// What the single imports of each unit import.
fn all_singles(alloc: Global, declared: &Indexed) -> Result<Items<Singles>, WantOfMemory>
    requires { IsIndex declared.now.heads.now declared.now.index.now }
    ensures { IfOk result (λ it. AllSingles declared.now.heads.now it) }
{
    let mut all = Items::new(alloc);
    for unit in declared.heads.units.slice() {
        all.push(singles_of(alloc, declared, unit.imports.slice())?)?;
    }
    Ok(all)
}

#[tactic(auto, using(crate::proofs::Counting::counting))]
fn class_broken(
    alloc: Global,
    scene: &Scene,
    singles: &Items<Singles>,
    number: u64,
    class: &ClassHead,
    found: Option<Refusal>,
) -> Result<Option<Refusal>, WantOfMemory>
    requires scene { IsScene scene.now.declared.heads.now scene.now.declared.index.now scene.now.imports.now }
    requires singles { AllSingles scene.now.declared.heads.now singles.now }
    requires is { slice_get scene.now.declared.heads.now.classes number ≡ Some class.now }
    ensures { IfOk result (λ it. it ≡ least found (class_breaks scene.now.declared.heads.now (known_in scene.now.known.now) number class.now)) }
{
    let found = twice_broken(&scene.declared, singles, number, class, found);
    supers_broken(alloc, scene, number, class, found)
}

#[tactic(auto, using(crate::proofs::Counting::counting))]
fn classes_broken(
    alloc: Global,
    scene: &Scene,
    found: Option<Refusal>,
) -> Result<Option<Refusal>, WantOfMemory>
    requires { IsScene scene.now.declared.heads.now scene.now.declared.index.now scene.now.imports.now }
    ensures { IfOk result (λ it. it ≡ least found (of_each (class_breaks scene.now.declared.heads.now (known_in scene.now.known.now)) 0 scene.now.declared.heads.now.classes)) }
{
    let singles = all_singles(alloc, &scene.declared)?;
    let mut found = found;
    let classes = scene.declared.heads.classes.slice();
    for number in 0..classes.len() {
        let class = &classes[number];
        found = class_broken(alloc, scene, &singles, number as u64, class, found)?;
    }
    Ok(found)
}

/// The first rule that heads break, but for the cycles.
#[tactic(auto, using(crate::proofs::Counting::counting))]
fn heads_broken(alloc: Global, scene: &Scene) -> Result<Option<Refusal>, WantOfMemory>
    requires { IsScene scene.now.declared.heads.now scene.now.declared.index.now scene.now.imports.now }
    ensures { IfOk result (λ it. it ≡ least None (head_breaks scene.now.declared.heads.now (known_in scene.now.known.now))) }
{
    let found = units_broken(alloc, &scene.declared, None)?;
    let found = classes_broken(alloc, scene, found)?;
    let found = fields_broken(alloc, scene.declared.heads, found)?;
    Ok(variables_broken(&scene.declared, found))
}

#[tactic(auto, using(crate::proofs::Counting::counting))]
fn class_sites_broken(
    alloc: Global,
    scene: &Scene,
    sites: &[ClassSite],
    found: Option<Refusal>,
) -> Result<Option<Refusal>, WantOfMemory>
    requires { IsScene scene.now.declared.heads.now scene.now.declared.index.now scene.now.imports.now }
    ensures { let H = scene.now.declared.heads.now in let K = known_in scene.now.known.now in IfOk result (λ it. it ≡ least found (of_each (class_site_breaks H K) 0 sites.now)) }
{
    let mut found = found;
    for number in 0..sites.len() {
        found = class_site_broken(alloc, scene, number as u64, &sites[number], found)?;
    }
    Ok(found)
}

#[tactic(auto, using(crate::proofs::Counting::counting))]
fn method_sites_broken(
    alloc: Global,
    scene: &Scene,
    sites: &[MethodSite],
    found: Option<Refusal>,
) -> Result<Option<Refusal>, WantOfMemory>
    requires { IsScene scene.now.declared.heads.now scene.now.declared.index.now scene.now.imports.now }
    ensures { let H = scene.now.declared.heads.now in let K = known_in scene.now.known.now in IfOk result (λ it. it ≡ least found (of_each (method_site_breaks H K) 0 sites.now)) }
{
    let mut found = found;
    for number in 0..sites.len() {
        found = method_site_broken(alloc, scene, number as u64, &sites[number], found)?;
    }
    Ok(found)
}

#[tactic(auto, using(crate::proofs::Counting::counting))]
fn field_sites_broken(
    alloc: Global,
    scene: &Scene,
    sites: &[FieldSite],
    found: Option<Refusal>,
) -> Result<Option<Refusal>, WantOfMemory>
    requires { IsScene scene.now.declared.heads.now scene.now.declared.index.now scene.now.imports.now }
    ensures { let H = scene.now.declared.heads.now in let K = known_in scene.now.known.now in IfOk result (λ it. it ≡ least found (of_each (field_site_breaks H K) 0 sites.now)) }
{
    let mut found = found;
    for site in sites {
        found = field_site_broken(alloc, scene, site, found)?;
    }
    Ok(found)
}

#[tactic(auto, using(crate::proofs::Counting::counting))]
fn use_sites_broken(
    alloc: Global,
    scene: &Scene,
    sites: &[UseSite],
    found: Option<Refusal>,
) -> Result<Option<Refusal>, WantOfMemory>
    requires { IsScene scene.now.declared.heads.now scene.now.declared.index.now scene.now.imports.now }
    ensures { let H = scene.now.declared.heads.now in let K = known_in scene.now.known.now in IfOk result (λ it. it ≡ least found (of_each (use_site_breaks H K) 0 sites.now)) }
{
    let mut found = found;
    for site in sites {
        found = use_site_broken(alloc, scene, site, found)?;
    }
    Ok(found)
}

/// The first rule that declarations break by their modifiers and the types that they write.
#[tactic(auto, using(crate::proofs::Counting::counting))]
fn sites_broken(
    alloc: Global,
    scene: &Scene,
    sites: &Sites,
    found: Option<Refusal>,
) -> Result<Option<Refusal>, WantOfMemory>
    requires { IsScene scene.now.declared.heads.now scene.now.declared.index.now scene.now.imports.now }
    ensures { let H = scene.now.declared.heads.now in let K = known_in scene.now.known.now in IfOk result (λ it. it ≡ least found (site_breaks (sites_seen sites.now) H K)) }
{
    let found = class_sites_broken(alloc, scene, sites.classes.slice(), found)?;
    let found = method_sites_broken(alloc, scene, sites.methods.slice(), found)?;
    let found = field_sites_broken(alloc, scene, sites.fields.slice(), found)?;
    use_sites_broken(alloc, scene, sites.uses.slice(), found)
}

fn is_marked(marks: &[bool], class: u64) -> bool
    ensures { result ≡ is_marked marks.now class }
{
    match marks.get(class as usize) {
        Some(mark) => *mark,
        None => false,
    }
}

fn cycle_broken(
    marks: &[bool],
    number: u64,
    class: &ClassHead,
    found: Option<Refusal>,
) -> Option<Refusal>
    ensures { result ≡ least found (cycle_breaks marks.now number class.now) }
{
    if !is_marked(marks, number) {
        return found;
    }
    let place = Place {
        file: class.file,
        at: class.at,
    };
    or_break(found, Rule::known(304), place)
}

/// The first class of those that are marked, or what was found before.
#[tactic(auto, using(crate::proofs::Counting::counting))]
fn cycles_broken(marks: &[bool], heads: &Heads, found: Option<Refusal>) -> Option<Refusal>
    ensures { result ≡ least found (of_each (cycle_breaks marks.now) 0 heads.now.classes) }
{
    let mut found = found;
    let classes = heads.classes.slice();
    for number in 0..classes.len() {
        found = cycle_broken(marks, number as u64, &classes[number], found);
    }
    found
}

/// The first broken rule of names in a program, by file, offset and number, if one is broken. `cyclic` marks the classes that depend on
/// themselves.
pub fn first_break(
    alloc: Global,
    scene: &Scene,
    sites: &Sites,
    cyclic: &[bool],
) -> Result<Option<Refusal>, WantOfMemory>
    requires scene { IsScene scene.now.declared.heads.now scene.now.declared.index.now scene.now.imports.now }
    requires heads { scene.now.declared.heads.now ≡ heads_of (sites_seen sites.now) }
    requires known { known_in scene.now.known.now ≡ known scene.now.declared.heads.now }
    requires cyclic { AreCyclic scene.now.declared.heads.now cyclic.now }
    ensures { IfOk result (λ it. LeastOf (BreaksNames (sites_seen sites.now)) it) }
{
    let found = heads_broken(alloc, scene)?;
    let found = sites_broken(alloc, scene, sites, found)?;
    Ok(cycles_broken(cyclic, scene.declared.heads, found))
}

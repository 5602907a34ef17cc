//! Names in units, outside of their types (JLS 6.4.1, 7.3).
ghost use Rattle.std.specs.Prelude.{◌≡◌, ◌++◌, map, None};
ghost use Rattle.jc_types.specs.Names.{named};
ghost use Rattle.jc_declares.specs.Heads.{imports_of, types_of_unit};
ghost use Rattle.jc_declares.specs.Looking.{singles, in_unit, open_class};
ghost use Rattle.jc_imports.specs.Founds.{found_of};
ghost use Rattle.jc_imports.specs.Imported.{demands_of};
ghost use Rattle.jc_looking.specs.Scenes.{IsScene};
ghost use Rattle.jc_looking.specs.Sights.{seen, with_class, gathered, open_in, open_in_all, on_demand_sight};
ghost use Rattle.jc_looking.specs.Standings.{asking};
ghost use Rattle.jc_looking.specs.declared.scene.Sight.TheVariants.{Nothing};

use crate::access::{is_accessible, unit_package};
use crate::scene::{Scene, Sight};
use jc_imports::Found;

/// The type of a name that the single imports of a unit import.
#[tactic(auto, using(crate::proofs::Imports::single_named))]
fn single(scene: &Scene, unit: u64, name: &str) -> Option<u64>
    requires { IsScene scene.now.declared.heads.now scene.now.declared.index.now scene.now.imports.now }
    ensures { result ≡ named name.now (singles scene.now.declared.heads.now (imports_of scene.now.declared.heads.now unit)) }
{
    match scene.imports.units.get(unit as usize) {
        Some(imports) => imports.singles.find(name),
        None => None,
    }
}

/// What the imports on demand of a unit import from.
#[tactic(auto, using(crate::proofs::Imports::demands_listed))]
fn demands<'a>(scene: &Scene<'a>, unit: u64) -> &'a [Found]
    requires { IsScene scene.now.declared.heads.now scene.now.declared.index.now scene.now.imports.now }
    ensures { map found_of result.now ≡ demands_of scene.now.declared.heads.now (imports_of scene.now.declared.heads.now unit) }
{
    match scene.imports.units.get(unit as usize) {
        Some(imports) => imports.demands.slice(),
        None => &[],
    }
}

/// What a single import or a type of the unit means by a name.
#[tactic(auto, using(crate::proofs::Seen::named_or))]
fn single_or_own(scene: &Scene, unit: u64, name: &str) -> Option<u64>
    requires { IsScene scene.now.declared.heads.now scene.now.declared.index.now scene.now.imports.now }
    ensures { let heads = scene.now.declared.heads.now in result ≡ named name.now (singles heads (imports_of heads unit) ++ types_of_unit heads unit) }
{
    match single(scene, unit, name) {
        Some(class) => Some(class),
        None => scene.declared.type_of_unit(unit, name),
    }
}

fn with_class(sight: Sight, class: u64) -> Sight
    ensures { result ≡ with_class sight class }
{
    match sight {
        Sight::Nothing => Sight::Class(class),
        Sight::Class(other) if other == class => sight,
        Sight::Class(_) => Sight::Several,
        _ => sight,
    }
}

/// What was found and a class, if it is there and may be named from a package outside of all types.
fn with_open(scene: &Scene, package: &str, sight: Sight, class: Option<u64>) -> Sight
    ensures { result ≡ gathered sight (open_class scene.now.declared.heads.now (asking «package».now None) class) }
{
    match class {
        Some(class) if is_accessible(scene.declared.heads, package, None, class) => {
            with_class(sight, class)
        }
        _ => sight,
    }
}

/// What was found, and the type of a name that an import on demand imports.
fn with_demand(scene: &Scene, package: &str, name: &str, sight: Sight, demand: &Found) -> Sight
    requires { IsScene scene.now.declared.heads.now scene.now.declared.index.now scene.now.imports.now }
    ensures { result ≡ gathered sight (open_in scene.now.declared.heads.now (asking «package».now None) name.now (found_of demand.now)) }
{
    match demand {
        Found::InPackage(from) => {
            let class = scene.declared.type_of_package(from.str(), name);
            with_open(scene, package, sight, class)
        }
        Found::AtClass(from) => {
            let class = scene.declared.member(*from, name);
            with_open(scene, package, sight, class)
        }
        Found::Nowhere => sight,
    }
}

/// What these import by a name, to one who asks from a package.
#[tactic(auto, using(crate::proofs::Seen::gathered_joined))]
fn demanded(scene: &Scene, package: &str, name: &str, demands: &[Found]) -> Sight
    requires { IsScene scene.now.declared.heads.now scene.now.declared.index.now scene.now.imports.now }
    ensures { result ≡ gathered Nothing (open_in_all scene.now.declared.heads.now (asking «package».now None) name.now (map found_of demands.now)) }
{
    let mut sight = Sight::Nothing;
    for demand in demands {
        sight = with_demand(scene, package, name, sight, demand);
    }
    sight
}

/// What a unit's imports on demand import by a name, among which is java.lang (JLS 7.3).
#[tactic(auto, using(crate::proofs::Seen::gathered_joined))]
fn on_demand(scene: &Scene, unit: u64, name: &str) -> Sight
    requires { IsScene scene.now.declared.heads.now scene.now.declared.index.now scene.now.imports.now }
    ensures { result ≡ on_demand_sight scene.now.declared.heads.now unit name.now }
{
    let package = unit_package(scene.declared.heads, unit);
    let sight = demanded(scene, package, name, demands(scene, unit));
    let class = scene.declared.type_of_package("java.lang", name);
    with_open(scene, package, sight, class)
}

/// What a simple name means in a unit.
#[tactic(auto, using(crate::proofs::Seen::unit_seen))]
pub fn in_unit(scene: &Scene, unit: u64, name: &str) -> Sight
    requires { IsScene scene.now.declared.heads.now scene.now.declared.index.now scene.now.imports.now }
    ensures { result ≡ seen (in_unit scene.now.declared.heads.now unit name.now) }
{
    if let Some(class) = single_or_own(scene, unit, name) {
        return Sight::Class(class);
    }
    let package = unit_package(scene.declared.heads, unit);
    if let Some(class) = scene.declared.type_of_package(package, name) {
        return Sight::Class(class);
    }
    on_demand(scene, unit, name)
}

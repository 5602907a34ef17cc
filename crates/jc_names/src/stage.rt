//! All that is asked of the names of a program, step by step: each step owns what it makes, and lends it to the next.
ghost use Rattle.std.specs.Prelude.{◌≡◌, IfErr, IfOk, None, OnOk};
ghost use Rattle.jc_types.specs.Breaks.{LeastOf};
ghost use Rattle.jc_declares.specs.Sites.{sites_of};
ghost use Rattle.jc_declares.specs.Heads.{heads_of};
ghost use Rattle.jc_declares.specs.Knowing.{known};
ghost use Rattle.jc_declares.specs.Breaks.{BreaksNames};
ghost use Rattle.jc_name_index.specs.Index.{IsIndex};
ghost use Rattle.jc_looking.specs.Members.{known_in};
ghost use Rattle.jc_looking.specs.Scenes.{IsScene};
ghost use Rattle.jc_name_rules.specs.Cycles.{AreCyclic};
ghost use Rattle.jc_names.specs.Stage.{IsNamed, IsNamesStop, IsSitesStop};
ghost use Rattle.jc_sites.specs.Joining.{sites_seen};

use jc_cycles::cyclic;
use jc_declares::{Heads, SourceUnit};
use jc_heads::heads;
use jc_imports::{Imports, imports_of};
use jc_looking::Scene;
use jc_name_index::{Indexed, index_of};
use jc_name_rules::first_break;
use jc_rules::{Refusal, Stop};
use jc_settling::settle;
use jc_sites::{Sites, sites};
use jc_table::table_with;
use jc_types::Table;
use std::alloc::Global;

/// Refuses declarations by the first rule that their names break.
fn check(alloc: Global, scene: &Scene, sites: &Sites, marks: &[bool]) -> Result<(), Stop<Refusal>>
    requires scene { IsScene scene.now.declared.heads.now scene.now.declared.index.now scene.now.imports.now }
    requires heads { scene.now.declared.heads.now ≡ heads_of (sites_seen sites.now) }
    requires known { known_in scene.now.known.now ≡ known scene.now.declared.heads.now }
    requires marked { AreCyclic scene.now.declared.heads.now marks.now }
    ensures named { OnOk result (LeastOf (BreaksNames (sites_seen sites.now)) None) }
    ensures refused { IfErr result (λ stop. IsSitesStop (sites_seen sites.now) stop) }
{
    match first_break(alloc, scene, sites, marks)? {
        Some(refusal) => Err(Stop::Refused(refusal)),
        None => Ok(()),
    }
}

/// Where the classes on cycles are marked.
fn with_marks(
    alloc: Global,
    units: &[SourceUnit],
    scene: &Scene,
    marks: &[bool],
) -> Result<Table, Stop<Refusal>>
    requires scene { IsScene scene.now.declared.heads.now scene.now.declared.index.now scene.now.imports.now }
    requires heads { scene.now.declared.heads.now ≡ heads_of (sites_of units.now) }
    requires known { known_in scene.now.known.now ≡ known scene.now.declared.heads.now }
    requires marked { AreCyclic scene.now.declared.heads.now marks.now }
    ensures named { IfOk result (λ it. IsNamed units.now it) }
    ensures refused { IfErr result (λ stop. IsNamesStop units.now stop) }
{
    let sites = sites(alloc, units)?;
    check(alloc, scene, &sites, marks)?;
    Ok(table_with(alloc, scene, &sites)?)
}

/// Where it is known what classes inherit.
fn with_scene(alloc: Global, units: &[SourceUnit], scene: &Scene) -> Result<Table, Stop<Refusal>>
    requires scene { IsScene scene.now.declared.heads.now scene.now.declared.index.now scene.now.imports.now }
    requires heads { scene.now.declared.heads.now ≡ heads_of (sites_of units.now) }
    requires known { known_in scene.now.known.now ≡ known scene.now.declared.heads.now }
    ensures named { IfOk result (λ it. IsNamed units.now it) }
    ensures refused { IfErr result (λ stop. IsNamesStop units.now stop) }
{
    let marks = cyclic(alloc, scene)?;
    let marked = marks.slice();
    with_marks(alloc, units, scene, marked)
}

/// Where it is known what imports name.
fn with_imports(
    alloc: Global,
    units: &[SourceUnit],
    declared: Indexed,
    imports: &Imports,
) -> Result<Table, Stop<Refusal>>
    requires scene { IsScene declared.heads.now declared.index.now imports.now }
    requires heads { declared.heads.now ≡ heads_of (sites_of units.now) }
    ensures named { IfOk result (λ it. IsNamed units.now it) }
    ensures refused { IfErr result (λ stop. IsNamesStop units.now stop) }
{
    let settled = settle(alloc, &declared, imports)?;
    let known = settled.slice();
    let scene = Scene {
        declared,
        imports,
        known,
    };
    with_scene(alloc, units, &scene)
}

/// Where the heads have their index.
fn with_index(
    alloc: Global,
    units: &[SourceUnit],
    declared: Indexed,
) -> Result<Table, Stop<Refusal>>
    requires index { IsIndex declared.heads.now declared.index.now }
    requires heads { declared.heads.now ≡ heads_of (sites_of units.now) }
    ensures named { IfOk result (λ it. IsNamed units.now it) }
    ensures refused { IfErr result (λ stop. IsNamesStop units.now stop) }
{
    let imports = imports_of(alloc, &declared)?;
    with_imports(alloc, units, declared, &imports)
}

/// Where the heads of the declarations are known.
fn with_heads(alloc: Global, units: &[SourceUnit], heads: &Heads) -> Result<Table, Stop<Refusal>>
    requires { heads.now ≡ heads_of (sites_of units.now) }
    ensures named { IfOk result (λ it. IsNamed units.now it) }
    ensures refused { IfErr result (λ stop. IsNamesStop units.now stop) }
{
    let index = index_of(alloc, heads)?;
    let declared = Indexed {
        heads,
        index: &index,
    };
    with_index(alloc, units, declared)
}

/// What units declare whose names break no rule (301 to 311), or the first rule that they break, by file, offset and number.
pub fn names(alloc: Global, units: &[SourceUnit]) -> Result<Table, Stop<Refusal>>
    ensures named { IfOk result (λ it. IsNamed units.now it) }
    ensures refused { IfErr result (λ stop. IsNamesStop units.now stop) }
{
    let heads = heads(alloc, units)?;
    with_heads(alloc, units, &heads)
}

//! The types that bodies write.
ghost use Rattle.std.specs.Prelude.{◌≡◌, ◌++◌, ◌∷◌, [], OnOk};
ghost use Rattle.jc_declares.specs.Making.{use_decls, use_with};
ghost use Rattle.jc_declares.specs.Readings.{wrote_in_use};
ghost use Rattle.jc_declares.specs.Sites.{UseSite as UseAt};
ghost use Rattle.jc_sites.specs.Seen.{part_seen};
ghost use Rattle.jc_looking.specs.Members.{known_in};
ghost use Rattle.jc_looking.specs.Scenes.{IsScene};

use crate::places::{class_file, is_interface};
use jc_looking::Scene;
use jc_rules::{Items, WantOfMemory};
use jc_sites::{BodyPart, UseSite};
use jc_types::{ClassId, ScopeId, Use, UseKind, Written};
use jc_written::{reading_in_scope, written_base, written_class, written_type};
use std::alloc::Global;

fn push_use(
    list: &mut Items<Use>,
    class: u64,
    scope: u64,
    kind: UseKind,
    ty: Written,
) -> Result<(), WantOfMemory>
    ensures { OnOk result (list.new ≡ list.old ++ record { class = record { 0 = class }; scope = record { 0 = scope }; ty = ty; kind = kind } ∷ []) }
{
    list.push(Use {
        class: ClassId(class),
        scope: ScopeId(scope),
        ty,
        kind,
    })
}

/// Adds the type that a part of a body writes, if it writes one.
fn push_part(
    alloc: Global,
    list: &mut Items<Use>,
    scene: &Scene,
    class: u64,
    scope: u64,
    is_static: bool,
    part: BodyPart,
) -> Result<(), WantOfMemory>
    requires { IsScene scene.now.declared.heads.now scene.now.declared.index.now scene.now.imports.now }
    ensures { let H = scene.now.declared.heads.now in let K = known_in scene.now.known.now in let u : UseAt = record { class = class; scope = scope; is_static = is_static; part = part_seen part.entry } in OnOk result (list.new ≡ list.old ++ use_with H u (wrote_in_use H K u)) }
{
    let heads = scene.declared.heads;
    let file = class_file(heads, class);
    let reading = reading_in_scope(heads, scope, is_static || is_interface(heads, class));
    match part {
        BodyPart::Type(tree) => {
            let ty = written_type(alloc, scene, reading, file, tree, 0)?;
            push_use(list, class, scope, UseKind::Type, ty)
        }
        BodyPart::ClassType(tree) => {
            let ty = written_class(alloc, scene, reading, file, tree)?;
            push_use(list, class, scope, UseKind::Type, ty)
        }
        BodyPart::Diamond(tree) => {
            let ty = written_class(alloc, scene, reading, file, tree)?;
            push_use(list, class, scope, UseKind::Diamond, ty)
        }
        BodyPart::Element(tree) => {
            let ty = written_base(alloc, scene, reading, file, tree)?;
            push_use(list, class, scope, UseKind::Type, ty)
        }
        BodyPart::Variable { .. } => Ok(()),
    }
}

/// Adds the type that is written at a place in a body, if one is.
fn push_site(
    alloc: Global,
    list: &mut Items<Use>,
    scene: &Scene,
    site: &UseSite,
) -> Result<(), WantOfMemory>
    requires { IsScene scene.now.declared.heads.now scene.now.declared.index.now scene.now.imports.now }
    ensures { let H = scene.now.declared.heads.now in let K = known_in scene.now.known.now in OnOk result (list.new ≡ list.old ++ use_with H site.now (wrote_in_use H K site.now)) }
{
    let (class, scope) = (site.class, site.scope);
    push_part(alloc, list, scene, class, scope, site.is_static, site.part)
}

/// Adds all types that bodies write.
pub fn push_uses(
    alloc: Global,
    list: &mut Items<Use>,
    scene: &Scene,
    sites: &[UseSite],
) -> Result<(), WantOfMemory>
    requires { IsScene scene.now.declared.heads.now scene.now.declared.index.now scene.now.imports.now }
    ensures { let H = scene.now.declared.heads.now in let K = known_in scene.now.known.now in OnOk result (list.new ≡ list.old ++ use_decls H K sites.now) }
{
    for site in sites {
        push_site(alloc, list, scene, site)?;
    }
    Ok(())
}

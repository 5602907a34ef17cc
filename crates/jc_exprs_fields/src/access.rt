//! Members that may be named at a place in a body (JLS 6.6.1).
ghost use Rattle.std.specs.Prelude.{◌≡◌};
ghost use Rattle.jc_declares.specs.Looking.{is_open};
ghost use Rattle.jc_exprs_parts_spec.specs.Fields.{is_open_at, is_open_class, is_open_type, may_name_field, may_name_method};
ghost use Rattle.jc_exprs_parts_spec.specs.Senses.{may_name_class};
ghost use Rattle.jc_exprs_worlds.specs.Scenes.{world_of};

use crate::declared::{field_access, field_class};
use jc_exprs_worlds::Scene;
use jc_looking::{is_accessible, package_of, top_of_class};
use jc_members::{access_of, owner};
use jc_sub::class_of;
use jc_types::{Access, ClassId, FieldId, MethodId, Ty, class_package};

// Whether a member of this access is open in the same package or not, and in the body of the same type of a unit or not.
fn is_open(access: Access, same_package: bool, same_top: bool) -> bool
    ensures { result ≡ is_open access same_package same_top }
{
    match access {
        Access::Public => true,
        Access::Protected => same_package,
        Access::Package => same_package,
        Access::Private => same_top,
    }
}

/// Whether a member of a class is open there: in the body of the same type of a unit, or in the same package.
#[tactic(auto, unfolding(jc_exprs_worlds::specs::Scenes::world_of))]
pub fn is_open_at(scene: &Scene, access: Access, class: ClassId) -> bool
    ensures { result ≡ is_open_at (world_of scene.now) access class }
{
    let heads = scene.names.declared.heads;
    let same_package = class_package(scene.table, scene.class) == class_package(scene.table, class);
    let same_top = top_of_class(heads, scene.class.0) == top_of_class(heads, class.0);
    is_open(access, same_package, same_top)
}

/// Whether a class may be named there.
#[tactic(auto, unfolding(jc_exprs_worlds::specs::Scenes::world_of))]
pub fn may_name_class(scene: &Scene, class: ClassId) -> bool
    ensures { result ≡ may_name_class (world_of scene.now) class }
{
    let heads = scene.names.declared.heads;
    let top = top_of_class(heads, scene.class.0);
    is_accessible(heads, package_of(heads, scene.class.0), Some(top), class.0)
}

fn is_open_class(scene: &Scene, class: Option<ClassId>) -> bool
    ensures { result ≡ is_open_class (world_of scene.now) class }
{
    match class {
        None => true,
        Some(class) => may_name_class(scene, class),
    }
}

/// Whether the class of a type may be named there; of an array, that of its elements.
#[tactic(auto, using(jc_types::proofs::Opened::opened))]
pub fn is_open_type(scene: &Scene, ty: &Ty) -> bool
    ensures { result ≡ is_open_type (world_of scene.now) ty.now }
{
    match ty {
        Ty::Array { of, .. } => is_open_class(scene, class_of(of.get())),
        _ => is_open_class(scene, class_of(ty)),
    }
}

/// Whether a field of a type may be named there.
#[tactic(auto, using(jc_exprs_worlds::proofs::Told::worlds))]
pub fn may_name_field(scene: &Scene, ty: &Ty, field: FieldId) -> bool
    ensures { result ≡ may_name_field (world_of scene.now) ty.now field }
{
    let access = field_access(scene.table, field);
    is_open_type(scene, ty) && is_open_at(scene, access, field_class(scene.table, field))
}

/// Whether a method or constructor of a type may be named there.
#[tactic(auto, using(jc_exprs_worlds::proofs::Told::worlds))]
pub fn may_name_method(scene: &Scene, ty: &Ty, method: MethodId) -> bool
    ensures { result ≡ may_name_method (world_of scene.now) ty.now method }
{
    let access = access_of(scene.table, method);
    is_open_type(scene, ty) && is_open_at(scene, access, owner(scene.table, method))
}

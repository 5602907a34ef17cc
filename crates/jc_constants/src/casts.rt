//! What casts go to: a constant expression has casts to primitive types and to String alone (JLS 15.28).
ghost use Rattle.std.specs.Prelude.{◌≡◌, codes, IfOk};
ghost use Rattle.std.specs.Str.{bytes_eq};
ghost use Rattle.jc_declares.specs.Constants.{cast_to};
ghost use Rattle.jc_declares.specs.Heads.{binary_of};
ghost use Rattle.jc_declares.specs.Writing.{wrote_type};
ghost use Rattle.jc_looking.specs.Members.{known_in};
ghost use Rattle.jc_looking.specs.Scenes.{IsScene};
ghost use Rattle.jc_written.specs.At.{reading_at};

use jc_declares::Heads;
use jc_looking::Scene;
use jc_rules::WantOfMemory;
use jc_scopes::binary_of;
use jc_tree::TypeTree;
use jc_types::{ClassId, ConstantType, Ty};
use jc_written::{Reading, written_type};
use std::alloc::Global;

fn is_string(alloc: Global, heads: &Heads, class: ClassId) -> Result<bool, WantOfMemory>
    ensures { IfOk result (λ it. it ≡ bytes_eq (binary_of heads.now class.0) (codes "java.lang.String")) }
{
    let name = binary_of(alloc, heads, class.0)?;
    Ok(name.as_str() == "java.lang.String")
}

#[tactic(auto, using(crate::proofs::CastLayers::layers))]
fn cast_to(alloc: Global, heads: &Heads, ty: &Ty) -> Result<Option<ConstantType>, WantOfMemory>
    ensures { IfOk result (λ it. it ≡ cast_to heads.now ty.now) }
{
    match ty {
        Ty::Prim(primitive) => Ok(Some(ConstantType::Prim(*primitive))),
        Ty::Class { id, .. } => {
            if is_string(alloc, heads, *id)? {
                Ok(Some(ConstantType::Text))
            } else {
                Ok(None)
            }
        }
        _ => Ok(None),
    }
}

/// What a cast to a written type goes to.
pub fn cast_target(
    alloc: Global,
    scene: &Scene,
    reading: Reading,
    file: u64,
    tree: &TypeTree,
) -> Result<Option<ConstantType>, WantOfMemory>
    requires { IsScene scene.now.declared.heads.now scene.now.declared.index.now scene.now.imports.now }
    ensures { let H = scene.now.declared.heads.now in let K = known_in scene.now.known.now in IfOk result (λ it. it ≡ cast_to H (wrote_type H K (reading_at H K reading) tree.now).ty) }
{
    let written = written_type(alloc, scene, reading, file, tree, 0)?;
    cast_to(alloc, scene.declared.heads, &written.ty)
}

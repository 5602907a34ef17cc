//! The type that a tree means where it stands.
ghost use Rattle.std.specs.Prelude.{◌≡◌, IfErr, IfOk};
ghost use Rattle.jc_looking.specs.Members.{known_in};
ghost use Rattle.jc_looking.specs.Scenes.{IsScene};
ghost use Rattle.jc_written_in.specs.Writings.{IsWritten, IsWrittenStop};

use crate::naming::Naming;
use jc_looking::Scene;
use jc_name_index::Indexed;
use jc_rules::{Refusal, Stop};
use jc_tree::TypeTree;
use jc_types::{ScopeId, Written};
use jc_written::{reading_in_scope, type_broken, written_type};
use std::alloc::Global;

/// Where a type is written: its file, the scope, and whether the place is static (JLS 8.1.3).
#[derive(Clone, Copy)]
pub struct Spot {
    pub file: u64,
    pub scope: ScopeId,
    pub is_static: bool,
}

/// The type that a tree means where it stands, with the places of the class types inside it, or the first rule that its names break (302, 303,
/// 310, 311), by offset and number.
pub fn written(
    alloc: Global,
    naming: &Naming,
    spot: Spot,
    tree: &TypeTree,
) -> Result<Written, Stop<Refusal>>
    requires { IsScene naming.now.heads naming.now.index naming.now.imports }
    ensures written { IfOk result (λ it. IsWritten naming.now.heads (known_in naming.now.known) spot tree.now it) }
    ensures refused { IfErr result (λ stop. IsWrittenStop naming.now.heads (known_in naming.now.known) spot tree.now stop) }
{
    let scene = Scene {
        declared: Indexed {
            heads: &naming.heads,
            index: &naming.index,
        },
        imports: &naming.imports,
        known: naming.known.slice(),
    };
    let reading = reading_in_scope(scene.declared.heads, spot.scope.0, spot.is_static);
    match type_broken(alloc, &scene, reading, spot.file, tree, None)? {
        Some(refusal) => Err(Stop::Refused(refusal)),
        None => Ok(written_type(alloc, &scene, reading, spot.file, tree, 0)?),
    }
}

//! Calls of another constructor, of this class or of its superclass (JLS 8.8.7.1).
ghost use Rattle.std.specs.Prelude.{◌≡◌, IfOk, OnOk, length, map};
ghost use Rattle.jc_typed.specs.Parts.{BelowStmtForm, Grows, stmt_form_over, parts};
ghost use Rattle.jc_exprs_nodes_spec.specs.Told.{ran};
ghost use Rattle.jc_exprs_nodes.specs.Walks.{known, now};
ghost use Rattle.jc_exprs_gathering.specs.Gathered.{AllParts};
ghost use Rattle.jc_exprs_worlds.specs.Scenes.{world_of};
ghost use Rattle.jc_exprs_calls.specs.Creating.{StmtBelow, constructed_by, construct_form, has_stmt_form};

use crate::choosing::chosen_constructor;
use jc_exprs_choosing::is_raw_type;
use jc_exprs_nodes::{Judging, Walk};
use jc_exprs_passing::{push_arguments, push_type_list};
use jc_exprs_worlds::Scene;
use jc_resolve::Chosen;
use jc_rules::{Place, WantOfMemory};
use jc_typed::{Nodes, StmtForm};
use jc_types::Ty;
use std::alloc::Global;

// The form of the call of a chosen constructor.
#[tactic(auto, using(jc_typed::proofs::Growing::growing))]
fn push_construct_form(
    alloc: Global,
    nodes: &mut Nodes,
    judging: &Judging,
    place: Place,
    ty: &Ty,
    args: &[u32],
    chosen: &Chosen,
) -> Result<StmtForm, WantOfMemory>
    requires { AllParts nodes.old args.now }
    ensures value { IfOk result (λ form. stmt_form_over (parts nodes.new) form ≡ construct_form judging.now.table.now judging.now.env.now.bounds place ty.now (map (known nodes.old) args.now) chosen.now) }
    ensures below { IfOk result (λ form. BelowStmtForm (length nodes.new) form) }
    ensures grows { Grows nodes.old nodes.new }
{
    let args = push_arguments(alloc, nodes, judging, place, args, chosen)?;
    let thrown = push_type_list(alloc, nodes, chosen.thrown.slice())?;
    Ok(StmtForm::Construct {
        constructor: chosen.member.id,
        args,
        phase: chosen.phase,
        thrown,
        is_raw: is_raw_type(ty),
    })
}

/// The call of a constructor of the class of a type by its typed arguments, as the form of a statement; none, and the least break is kept, where no constructor is chosen (603, 618, 604,
/// 605, 606).
#[tactic(auto, using(crate::proofs::Creates::constructs), unfolding(jc_exprs_worlds::specs::Scenes::world_of))]
pub fn constructed(
    alloc: Global,
    scene: &Scene,
    walk: &mut Walk,
    place: Place,
    ty: &Ty,
    args: &[u32],
) -> Result<Option<StmtForm>, WantOfMemory>
    requires { AllParts walk.old.nodes args.now }
    ensures state { OnOk result ((ran (constructed_by (world_of scene.now) place ty.now (map (known walk.old.nodes) args.now)) (now walk.old)).state ≡ now walk.new) }
    ensures value { IfOk result (λ form. (ran (constructed_by (world_of scene.now) place ty.now (map (known walk.old.nodes) args.now)) (now walk.old)).has ≡ has_stmt_form walk.new.nodes form) }
    ensures within { IfOk result (λ form. StmtBelow (length walk.new.nodes) form) }
    ensures grows { Grows walk.old.nodes walk.new.nodes }
{
    match chosen_constructor(alloc, scene, walk, place, ty, args)? {
        None => Ok(None),
        Some(chosen) => {
            let judging = Judging {
                table: scene.table,
                env: &walk.env,
            };
            let form = push_construct_form(
                alloc,
                &mut walk.nodes,
                &judging,
                place,
                ty,
                args,
                &chosen,
            )?;
            Ok(Some(form))
        }
    }
}

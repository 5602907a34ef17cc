//! The constructor that a constructor calls by `this`.
ghost use Rattle.std.specs.Prelude.{◌≡◌, [], IfOk, List};
ghost use Rattle.jc_typed.specs.declared.nodes.Node.{Node};
ghost use Rattle.jc_exprs_locals.specs.Scoped.{locals_of};
ghost use Rattle.jc_exprs_calls.specs.Creating.{has_stmt_form};
ghost use Rattle.jc_stmts_spec.specs.Typed.{begun_run, early_world, method_place, param_scope, target_in, this_target};
ghost use Rattle.jc_stmts_bodies.specs.Seen.{begins_seen};
ghost use Rattle.jc_stmts_whole.specs.Programs.{IsProgram, heads_in, knowledge_in};
ghost use Rattle.jc_stmts.specs.Targets.{target_if};

use jc_exprs_calls::Methods;
use jc_exprs_locals::Locals;
use jc_exprs_nodes::Walk;
use jc_rules::{Items, WantOfMemory};
use jc_stmts_bodies::{Begins, MethodBody};
use jc_stmts_first::{begun_form, method_place, param_scope};
use jc_stmts_whole::{Program, early_scene};
use jc_typed::{Nodes, StmtForm};
use jc_types::{Env, MethodId};
use std::alloc::Global;

fn target_of_form(form: StmtForm) -> Option<MethodId>
    ensures { (ns : List Node) → result ≡ target_if (has_stmt_form ns (Some form)) }
{
    match form {
        StmtForm::Empty => None,
        StmtForm::Block { .. } => None,
        StmtForm::Locals { .. } => None,
        StmtForm::Effect { .. } => None,
        StmtForm::If { .. } => None,
        StmtForm::Labelled { .. } => None,
        StmtForm::While { .. } => None,
        StmtForm::Do { .. } => None,
        StmtForm::For { .. } => None,
        StmtForm::ForArray { .. } => None,
        StmtForm::ForIterable { .. } => None,
        StmtForm::Switch { .. } => None,
        StmtForm::Return { .. } => None,
        StmtForm::Break { .. } => None,
        StmtForm::Continue { .. } => None,
        StmtForm::Throw { .. } => None,
        StmtForm::Try { .. } => None,
        StmtForm::Construct { constructor, .. } => Some(constructor),
        StmtForm::Initialise { .. } => None,
    }
}

// The constructor of a call, where it has a typing.
fn target_of(form: Option<StmtForm>) -> Option<MethodId>
    ensures { (ns : List Node) → result ≡ target_if (has_stmt_form ns form) }
{
    match form {
        None => None,
        Some(form) => target_of_form(form),
    }
}

// The constructor that is meant by the call that a constructor begins with, among its parameters.
#[tactic(auto, unfolding(jc_exprs_nodes_spec::specs::Told::ran))]
fn called_among(
    alloc: Global,
    program: &Program,
    locals: &Locals,
    method: MethodId,
    begins: &Begins,
) -> Result<Option<MethodId>, WantOfMemory>
    requires program { IsProgram program.now }
    requires locals { locals_of locals.now ≡ param_scope program.now.table.now method }
    ensures { IfOk result (λ t. t ≡ target_in (begun_run (early_world program.now.table.now (heads_in program.now) (knowledge_in program.now) method) (method_place program.now.table.now method) (begins_seen begins.now) []).told) }
{
    let scene = early_scene(program, method, locals);
    let methods = Methods {
        scene: &scene,
        index: program.index,
    };
    let mut walk = Walk {
        env: Env {
            bounds: Items::new(alloc),
        },
        found: None,
        nodes: Nodes::new(alloc),
    };
    let place = method_place(program.table, method);
    let form = begun_form(alloc, &methods, &mut walk, place, begins)?;
    Ok(target_of(form))
}

// The constructor that is meant by the call that a constructor begins with.
fn called(
    alloc: Global,
    program: &Program,
    method: MethodId,
    begins: &Begins,
) -> Result<Option<MethodId>, WantOfMemory>
    requires { IsProgram program.now }
    ensures { IfOk result (λ t. t ≡ target_in (begun_run (early_world program.now.table.now (heads_in program.now) (knowledge_in program.now) method) (method_place program.now.table.now method) (begins_seen begins.now) []).told) }
{
    let locals = param_scope(alloc, program.table, method)?;
    called_among(alloc, program, &locals, method, begins)
}

/// The constructor that a call by `this` means which the body begins with, where it has a typing.
pub fn this_target(
    alloc: Global,
    program: &Program,
    body: &MethodBody,
) -> Result<Option<MethodId>, WantOfMemory>
    requires { IsProgram program.now }
    ensures { IfOk result (λ t. t ≡ this_target program.now.table.now (heads_in program.now) (knowledge_in program.now) body.now.method body.now.begins) }
{
    match body.begins {
        Begins::WithThis { .. } => called(alloc, program, body.method, &body.begins),
        Begins::WithSuper { .. } => Ok(None),
        Begins::WithImplied => Ok(None),
        Begins::WithNone => Ok(None),
    }
}

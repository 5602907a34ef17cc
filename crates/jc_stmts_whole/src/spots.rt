//! The places of a body: among the arguments of the call that a constructor begins with, in an initialiser, and in the block.
ghost use Rattle.std.specs.Prelude.{◌≡◌, [], None, Some, slice_get};
ghost use Rattle.std.specs.Option.{option_copied};
ghost use Rattle.jc_types.specs.Accessors.{result_of};
ghost use Rattle.jc_overriding.specs.Viewing.{is_static};
ghost use Rattle.jc_exprs_locals.specs.Scoped.{locals_of};
ghost use Rattle.jc_exprs_worlds.specs.Scenes.{IsWorldly, here_of, initialising_of, world_of};
ghost use Rattle.jc_stmts_spec.specs.Typed.{class_scope_in, early_world, here_if, initialiser_world, method_scope_in, method_world, param_scope, world_at};
ghost use Rattle.jc_stmts_items.specs.Settings.{IsSetting, world_within};
ghost use Rattle.jc_stmts_whole.specs.Programs.{IsProgram, heads_in, knowledge_in};

use crate::program::Program;
use jc_exprs_locals::Locals;
use jc_exprs_worlds::{Here, Initialising, Scene};
use jc_members::{is_static, owner};
use jc_stmts_items::Setting;
use jc_types::{ClassId, FieldId, MethodId, Table, Ty, class_at, method_at, method_result};

/// A place of a class, by the scope of its method or its own, whether there is an instance, and the initialiser that it stands in, if it does.
#[derive(Clone, Copy)]
struct Spot {
    class: ClassId,
    scope: u64,
    here: Here,
    initialising: Option<Initialising>,
}

/// The initialisers of a class that are static, or the others.
#[derive(Clone, Copy)]
pub struct Side<'a> {
    pub program: Program<'a>,
    pub class: ClassId,
    pub is_static: bool,
}

fn method_scope(table: &Table, method: MethodId) -> u64
    ensures { result ≡ method_scope_in (slice_get table.now.methods method.0) }
{
    match method_at(table, method) {
        Some(declaration) => declaration.scope.0,
        None => 0,
    }
}

fn class_scope(table: &Table, class: ClassId) -> u64
    ensures { result ≡ class_scope_in (slice_get table.now.classes class.0) }
{
    match class_at(table, class) {
        Some(declaration) => declaration.scope.0,
        None => 0,
    }
}

fn here_if(is_static: bool) -> Here
    ensures { here_of result ≡ here_if is_static }
{
    if is_static {
        Here::Static
    } else {
        Here::Instance
    }
}

#[tactic(auto, unfolding(jc_exprs_worlds::specs::Scenes::world_of))]
fn scene_at<'a>(program: &Program<'a>, spot: Spot, locals: &'a Locals) -> Scene<'a>
    requires { IsProgram program.now }
    ensures world { world_of result ≡ world_at program.now.table.now (heads_in program.now) (knowledge_in program.now) spot.class spot.scope (here_of spot.here) (initialising_of spot.initialising) (locals_of locals.now) }
    ensures worldly { IsWorldly result }
    ensures table { result.table.now ≡ program.now.table.now }
{
    Scene {
        table: program.table,
        names: program.names,
        constants: program.constants,
        class: spot.class,
        scope: spot.scope,
        here: spot.here,
        initialising: spot.initialising,
        locals,
    }
}

fn setting_at<'a>(program: &Program<'a>, spot: Spot, of_result: Option<&'a Ty>) -> Setting<'a>
    requires { IsProgram program.now }
    ensures world { world_within result ≡ world_at program.now.table.now (heads_in program.now) (knowledge_in program.now) spot.class spot.scope (here_of spot.here) (initialising_of spot.initialising) }
    ensures setting { IsSetting result }
    ensures of_result { option_copied result.of_result ≡ option_copied of_result.entry }
{
    Setting {
        table: program.table,
        names: program.names,
        constants: program.constants,
        class: spot.class,
        scope: spot.scope,
        here: spot.here,
        initialising: spot.initialising,
        index: program.index,
        of_result,
    }
}

/// Among the arguments of the call that a constructor begins with, where the parameters are in scope.
pub fn early_scene<'a>(program: &Program<'a>, method: MethodId, locals: &'a Locals) -> Scene<'a>
    requires program { IsProgram program.now }
    requires locals { locals_of locals.now ≡ param_scope program.now.table.now method }
    ensures world { world_of result ≡ early_world program.now.table.now (heads_in program.now) (knowledge_in program.now) method }
    ensures worldly { IsWorldly result }
    ensures table { result.table.now ≡ program.now.table.now }
{
    let spot = Spot {
        class: owner(program.table, method),
        scope: method_scope(program.table, method),
        here: Here::Early,
        initialising: None,
    };
    scene_at(program, spot, locals)
}

/// In the block of a method.
pub fn method_setting<'a>(program: &Program<'a>, method: MethodId) -> Setting<'a>
    requires { IsProgram program.now }
    ensures world { world_within result ≡ method_world program.now.table.now (heads_in program.now) (knowledge_in program.now) method (here_if (is_static program.now.table.now method)) }
    ensures setting { IsSetting result }
    ensures of_result { option_copied result.of_result ≡ result_of program.now.table.now method }
{
    let spot = Spot {
        class: owner(program.table, method),
        scope: method_scope(program.table, method),
        here: here_if(is_static(program.table, method)),
        initialising: None,
    };
    setting_at(program, spot, method_result(program.table, method))
}

fn initialiser_spot(side: &Side, field: Option<FieldId>) -> Spot
    ensures class { result.class ≡ side.now.class }
    ensures scope { result.scope ≡ class_scope_in (slice_get side.now.program.table.now.classes side.now.class.0) }
    ensures here { here_of result.here ≡ here_if side.now.is_static }
    ensures initialising { initialising_of result.initialising ≡ Some (record { is_static = side.now.is_static; field = field }) }
{
    Spot {
        class: side.class,
        scope: class_scope(side.program.table, side.class),
        here: here_if(side.is_static),
        initialising: Some(Initialising {
            is_static: side.is_static,
            field,
        }),
    }
}

/// In the initialiser of a field, where no locals are in scope.
pub fn field_scene<'a>(side: &Side<'a>, field: FieldId, locals: &'a Locals) -> Scene<'a>
    requires program { IsProgram side.now.program }
    requires locals { locals.now ≡ [] }
    ensures world { world_of result ≡ initialiser_world side.now.program.table.now (heads_in side.now.program) (knowledge_in side.now.program) side.now.class side.now.is_static (Some field) [] }
    ensures worldly { IsWorldly result }
    ensures table { result.table.now ≡ side.now.program.table.now }
{
    let spot = initialiser_spot(side, Some(field));
    scene_at(&side.program, spot, locals)
}

/// In a block that is an initialiser, which returns nothing.
pub fn block_setting<'a>(side: &Side<'a>) -> Setting<'a>
    requires { IsProgram side.now.program }
    ensures world { world_within result ≡ initialiser_world side.now.program.table.now (heads_in side.now.program) (knowledge_in side.now.program) side.now.class side.now.is_static None }
    ensures setting { IsSetting result }
    ensures of_result { option_copied result.of_result ≡ None }
{
    let spot = initialiser_spot(side, None);
    setting_at(&side.program, spot, None)
}

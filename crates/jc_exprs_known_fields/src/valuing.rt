//! The values of fields, where those of some fields are known (JLS 4.12.4, 5.2).
ghost use Rattle.std.specs.Prelude.{◌≡◌, IfOk};
ghost use Rattle.jc_exprs_parts_spec.specs.Constants.{assigned_constant, constant_named, field_value, field_values, field_world, from_some, if_converted, type_of_constant, valued};
ghost use Rattle.jc_exprs_known_fields.specs.Programs.{IsProgram, heads_in, knowledge_in};

use crate::evaluating::valued;
use crate::program::Program;
use jc_convert::{Converts, assignment};
use jc_exprs_constants::{constant_as, copy_constant, string_type};
use jc_exprs_locals::Locals;
use jc_exprs_worlds::{Here, Scene};
use jc_rules::{Items, WantOfMemory};
use jc_types::{Constant, ConstantExpr, Env, FieldDecl, FieldValue, ScopeId, Table, Ty};
use std::alloc::Global;

fn type_of_constant(alloc: Global, table: &Table, constant: &Constant) -> Ty
    ensures { result ≡ type_of_constant table.now constant.now }
{
    match constant {
        Constant::Whole { of, .. } => Ty::Prim(*of),
        Constant::Text(_) => string_type(alloc, table),
    }
}

fn if_converted(
    alloc: Global,
    table: &Table,
    ty: &Ty,
    constant: &Constant,
    by: Converts,
) -> Result<Option<Constant>, WantOfMemory>
    ensures { IfOk result (λ c. c ≡ if_converted table.now ty.now constant.now by) }
{
    match by {
        Converts::Yes(_) => constant_as(alloc, table, ty, constant),
        _ => Ok(None),
    }
}

// A constant as a field's value, where assignment converts it to the field's type.
fn assigned_constant(
    alloc: Global,
    table: &Table,
    ty: &Ty,
    constant: &Constant,
) -> Result<Option<Constant>, WantOfMemory>
    ensures { IfOk result (λ c. c ≡ assigned_constant table.now ty.now constant.now) }
{
    let env = Env {
        bounds: Items::new(alloc),
    };
    let from = type_of_constant(alloc, table, constant);
    let by = assignment(alloc, table, &env, &from, Some(constant), ty)?;
    if_converted(alloc, table, ty, constant, by)
}

fn assigned(
    alloc: Global,
    table: &Table,
    ty: &Ty,
    constant: Option<Constant>,
) -> Result<Option<Constant>, WantOfMemory>
    ensures { IfOk result (λ c. c ≡ from_some constant (assigned_constant table.now ty.now)) }
{
    match constant {
        None => Ok(None),
        Some(constant) => assigned_constant(alloc, table, ty, &constant),
    }
}

// What a field's initialiser gives.
#[tactic(auto, unfolding(jc_exprs_worlds::specs::Scenes::world_of))]
fn initialised(
    alloc: Global,
    program: &Program,
    constants: &[Option<Constant>],
    field: &FieldDecl,
    scope: ScopeId,
    expr: &ConstantExpr,
) -> Result<Option<Constant>, WantOfMemory>
    requires { IsProgram program.now }
    ensures { IfOk result (λ c. c ≡ from_some (valued (constant_named (field_world program.now.table.now (heads_in program.now) (knowledge_in program.now) constants.now field.now.class scope.0)) expr.now) (assigned_constant program.now.table.now field.now.ty.ty)) }
{
    let locals = Locals::new(alloc);
    let scene = Scene {
        table: program.table,
        names: program.names,
        constants,
        class: field.class,
        scope: scope.0,
        here: Here::Instance,
        initialising: None,
        locals: &locals,
    };
    let value = valued(alloc, &scene, expr)?;
    assigned(alloc, program.table, &field.ty.ty, value)
}

/// A field's value, where those of some fields are known.
pub fn field_value(
    alloc: Global,
    program: &Program,
    constants: &[Option<Constant>],
    field: &FieldDecl,
) -> Result<Option<Constant>, WantOfMemory>
    requires { IsProgram program.now }
    ensures { IfOk result (λ c. c ≡ field_value program.now.table.now (heads_in program.now) (knowledge_in program.now) constants.now field.now field.now.value) }
{
    match &field.value {
        FieldValue::Unknown => Ok(None),
        FieldValue::Known(constant) => Ok(Some(copy_constant(alloc, constant)?)),
        FieldValue::Initialiser { scope, expr } => {
            initialised(alloc, program, constants, field, *scope, expr)
        }
    }
}

/// The values of all fields, where those of some fields are known.
#[tactic(auto, using(crate::proofs::Appending::appended))]
pub fn field_values(
    alloc: Global,
    program: &Program,
    constants: &[Option<Constant>],
) -> Result<Items<Option<Constant>>, WantOfMemory>
    requires { IsProgram program.now }
    ensures { IfOk result (λ cs. cs ≡ field_values program.now.table.now (heads_in program.now) (knowledge_in program.now) constants.now program.now.table.now.fields) }
{
    let mut values = Items::new(alloc);
    let mut rest = program.table.fields.slice();
    while let [field, more @ ..] = rest {
        let value = field_value(alloc, program, constants, field)?;
        values.push(value)?;
        rest = more;
    }
    Ok(values)
}

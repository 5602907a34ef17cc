//! An order of fields in which each stands behind those that its initialiser names. Nothing is promised of it.
ghost use Rattle.jc_exprs_worlds.specs.Scenes.{IsWorldly};
ghost use Rattle.jc_exprs_known_fields.specs.Programs.{IsProgram};

use crate::naming::field_named;
use crate::program::Program;
use jc_exprs_locals::Locals;
use jc_exprs_worlds::{Here, Scene};
use jc_rules::{Items, WantOfMemory};
use jc_types::{ConstantExpr, ConstantPart, FieldDecl, FieldValue};
use std::alloc::Global;

#[cycle(names)]
fn push_in_parts(
    alloc: Global,
    scene: &Scene,
    parts: &[ConstantPart],
    out: &mut Items<u64>,
) -> Result<(), WantOfMemory>
    requires { IsWorldly scene.now }
{
    for part in parts {
        push_named(alloc, scene, &part.operand, out)?;
    }
    Ok(())
}

// The fields that an expression names.
#[cycle(names)]
fn push_named(
    alloc: Global,
    scene: &Scene,
    expr: &ConstantExpr,
    out: &mut Items<u64>,
) -> Result<(), WantOfMemory>
    requires { IsWorldly scene.now }
{
    match expr {
        ConstantExpr::Literal(_) => Ok(()),
        ConstantExpr::Name { parts, .. } => {
            if let Some(field) = field_named(alloc, scene, parts.slice())? {
                out.push(field.0)?;
            }
            Ok(())
        }
        ConstantExpr::Cast { of, .. } => push_named(alloc, scene, of.get(), out),
        ConstantExpr::Prefix { of, .. } => push_named(alloc, scene, of.get(), out),
        ConstantExpr::Chain { first, rest } => {
            push_named(alloc, scene, first.get(), out)?;
            push_in_parts(alloc, scene, rest.slice(), out)
        }
        ConstantExpr::Conditional { test, then, other } => {
            push_named(alloc, scene, test.get(), out)?;
            push_named(alloc, scene, then.get(), out)?;
            push_named(alloc, scene, other.get(), out)
        }
    }
}

// The fields that a field's initialiser names.
fn named_by(alloc: Global, program: &Program, field: &FieldDecl) -> Result<Items<u64>, WantOfMemory>
    requires { IsProgram program.now }
{
    let mut out = Items::new(alloc);
    if let FieldValue::Initialiser { scope, expr } = &field.value {
        let locals = Locals::new(alloc);
        let constants = Items::new(alloc);
        let scene = Scene {
            table: program.table,
            names: program.names,
            constants: constants.slice(),
            class: field.class,
            scope: scope.0,
            here: Here::Instance,
            initialising: None,
            locals: &locals,
        };
        push_named(alloc, &scene, expr, &mut out)?;
    }
    Ok(out)
}

fn rows(alloc: Global, program: &Program) -> Result<Vec<Items<u64>>, WantOfMemory>
    requires { IsProgram program.now }
{
    let mut rows = Vec::new(alloc);
    let mut rest = program.table.fields.slice();
    while let [field, more @ ..] = rest {
        rows.push(named_by(alloc, program, field)?)?;
        rest = more;
    }
    Ok(rows)
}

// ---- a search in depth, which leaves a field behind those that it names

/// A field whose names are being followed, and how many of them have been.
#[derive(Clone, Copy, Debug)]
struct Open {
    field: u64,
    followed: usize,
}

/// What the search has seen, where it stands, and the fields that it has left, in order.
#[derive(Drop)]
struct Search {
    seen: Vec<bool>,
    open: Vec<Open>,
    left: Vec<u64>,
}

fn blank_marks(alloc: Global, count: usize) -> Result<Vec<bool>, WantOfMemory> {
    let mut marks = Vec::new(alloc);
    for _field in 0..count {
        marks.push(false)?;
    }
    Ok(marks)
}

fn named_at(rows: &[Items<u64>], field: u64, number: usize) -> Option<u64> {
    rows.get(field as usize)?.slice().get(number).copied()
}

fn enter(search: &mut Search, field: u64) -> Result<(), WantOfMemory> {
    if let Some(mark) = search.seen.get_mut(field as usize) {
        if *mark {
            return Ok(());
        }
        *mark = true;
        search.open.push(Open { field, followed: 0 })?;
    }
    Ok(())
}

/// Follows one name of the field that was entered last, or leaves it. Tells whether the search goes on.
fn follow(search: &mut Search, rows: &[Items<u64>]) -> Result<bool, WantOfMemory> {
    let Some(top) = search.open.pop() else {
        return Ok(false);
    };
    match named_at(rows, top.field, top.followed) {
        Some(to) => {
            search.open.push(Open {
                field: top.field,
                followed: top.followed.saturating_add(1),
            })?;
            enter(search, to)?;
        }
        None => search.left.push(top.field)?,
    }
    Ok(true)
}

fn search_from(search: &mut Search, rows: &[Items<u64>], field: u64) -> Result<(), WantOfMemory> {
    enter(search, field)?;
    'names: for _name in 0..u64::MAX {
        if !follow(search, rows)? {
            return Ok(());
        }
    }
    Ok(())
}

/// All fields, each behind those that it names, but where fields name each other in a cycle.
pub fn in_order(alloc: Global, program: &Program) -> Result<Vec<u64>, WantOfMemory>
    requires { IsProgram program.now }
{
    let rows = rows(alloc, program)?;
    let mut search = Search {
        seen: blank_marks(alloc, rows.len())?,
        open: Vec::new(alloc),
        left: Vec::new(alloc),
    };
    for field in 0..rows.len() {
        search_from(&mut search, rows.as_slice(), field as u64)?;
    }
    Ok(search.left)
}

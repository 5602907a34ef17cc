//! The readiness of classes, and how initialisation ends (JLS 12.4.2).
ghost use Rattle.std.specs.Prelude.{◌≡◌};
ghost use Rattle.jc_values.specs.Doing.{Does};
ghost use Rattle.jc_running.specs.Outcomes.{Val};
ghost use Rattle.jc_meaning.specs.Classes as c;
ghost use Rattle.jc_meaning.specs.Programs.{initialiser_of, initialises};

use jc_layout::{is_subclass, methods_class};
use jc_running::Readiness;
use jc_typed::TypedProgram;
use jc_types::{ClassId, MethodId, MethodKind, Table, class_methods, method_kind};
use jc_values::{Halt, Running, closed_erasure, make_plain, put};
use std::alloc::Global;

pub fn set_readiness(alloc: Global, run: &mut Running, k: ClassId, readiness: Readiness)
    ensures { c.set_readiness k readiness run.old.units run.old.state ≡ Val tt run.new.units run.new.state }
{
    put(alloc, &mut run.state.classes, k.0 as usize, readiness);
}

fn is_static_initialiser(kind: Option<MethodKind>) -> bool
    ensures { result ≡ initialises kind }
{
    match kind {
        Some(MethodKind::StaticInitialiser) => true,
        Some(_) => false,
        None => false,
    }
}

pub fn initialiser_of(table: &Table, k: ClassId) -> Option<MethodId>
    ensures { result ≡ initialiser_of table.now k }
{
    let mut rest = class_methods(table, k);
    while let [first, more @ ..] = rest {
        if is_static_initialiser(method_kind(table, *first)) {
            return Some(*first);
        }
        rest = more;
    }
    None
}

// An exception that isn't an Error becomes an ExceptionInInitializerError (JLS 12.4.2, step 11).
pub fn as_error(
    alloc: Global,
    program: &TypedProgram,
    a: u64,
    run: &mut Running,
) -> Result<(), Halt>
    ensures { Does (c.as_error program.now a run.old.units run.old.state) result run.new }
{
    let Some(object) = run.state.heap.get(a as usize) else {
        return Err(Halt::Wrong);
    };
    let of = methods_class(closed_erasure(alloc, &program.table, &object.kept));
    if is_subclass(&program.table, of, program.known.thrown.error) {
        return Err(Halt::Thrown(a));
    }
    let thrown = make_plain(
        alloc,
        &program.table,
        run,
        program.known.thrown.in_initialiser,
    )?;
    Err(Halt::Thrown(thrown))
}

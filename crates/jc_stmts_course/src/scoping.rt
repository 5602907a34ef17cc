//! Scopes and what is declared in them (JLS 6.3, 14.4, 14.20).
ghost use Rattle.std.specs.Prelude.{◌≡◌, ◌<◌, ◌∷◌, [], length, not, IfOk, OnOk};
ghost use Rattle.jc_typed.specs.Parts.{Grows, types_of};
ghost use Rattle.jc_exprs_nodes.specs.Walks.{now};
ghost use Rattle.jc_exprs_nodes_spec.specs.Told.{unless};
ghost use Rattle.jc_stmts_spec.specs.Courses.{SomeTypes, below_top, caught_breaks, caught_type, local_in_scope, top_of};
ghost use Rattle.jc_exprs_locals.specs.Scoped.{local_of};
ghost use Rattle.jc_stmts_plan.specs.Seen.{rule_of};
ghost use Rattle.jc_stmts_wants.specs.Wanting.{scope_of};
ghost use Rattle.jc_stmts_course.specs.Nows.{IsCourse, scopes_on, stage};
ghost use Rattle.jc_stmts_course.specs.Steps.{answered, broken_more, caught, declared, entered, faulty, left, local_named, with_local};

use crate::answering::answer;
use crate::course::Course;
use jc_exprs_locals::ScopedLocal;
use jc_exprs_nodes::{note, refusal};
use jc_rules::{Items, Place, Refusal, Text, WantOfMemory};
use jc_stmts_answers::AnswerAt;
use jc_stmts_plan::Broken;
use jc_stmts_wants::{Scope, caught_breaks, caught_type, push_type_list};
use jc_typed::Local;
use jc_types::{Table, Ty, copy_type};
use std::alloc::Global;

/// A local that is declared at a place.
#[derive(Clone, Copy)]
pub struct Declaring<'a> {
    pub place: Place,
    pub name: &'a str,
    pub ty: &'a Ty,
    pub is_final: bool,
}

/// The parameter of a catch clause, whose type the clause gives.
#[derive(Clone, Copy)]
pub struct Naming<'a> {
    pub place: Place,
    pub name: &'a str,
    pub is_final: bool,
}

/// A scope begins.
#[tactic(auto, using(crate::proofs::Scopes::scoping))]
pub fn enter(alloc: Global, course: &mut Course) -> Result<(), WantOfMemory>
    requires { IsCourse course.old }
    ensures stage { OnOk result (entered (stage course.old) ≡ stage course.new) }
    ensures course { OnOk result (IsCourse course.new) }
    ensures walk { course.new.walk ≡ course.old.walk }
{
    let size = course.locals.len();
    course.scopes.push(Scope {
        size,
        selector: None,
        keys: Items::new(alloc),
    })
}

/// The innermost scope, which ends.
#[tactic(auto, using(crate::proofs::Scopes::scoping))]
pub fn pop_scope(alloc: Global, scopes: &mut Items<Scope>) -> Scope
    ensures top { scope_of result ≡ top_of (scopes_on scopes.old []) }
    ensures below { scopes_on scopes.new [] ≡ below_top (scopes_on scopes.old []) }
{
    match scopes.pop() {
        Some(scope) => scope,
        None => Scope {
            size: 0,
            selector: None,
            keys: Items::new(alloc),
        },
    }
}

/// The innermost scope ends, with the locals that were declared in it.
#[tactic(auto, using(crate::proofs::Scopes::scoping))]
pub fn leave(alloc: Global, course: &mut Course)
    requires { IsCourse course.old }
    ensures stage { left (stage course.old) ≡ stage course.new }
    ensures course { IsCourse course.new }
    ensures walk { course.new.walk ≡ course.old.walk }
{
    let scope = pop_scope(alloc, &mut course.scopes);
    course.locals.leave(scope.size);
}

// The number of the next local.
fn next_number(count: usize) -> Result<u32, WantOfMemory>
    ensures { IfOk result (λ n. n ≡ count) }
{
    match u32::try_from(count) {
        Ok(number) => Ok(number),
        Err(_) => Err(WantOfMemory),
    }
}

// A local of this number as it comes into scope.
fn scoped(alloc: Global, declaring: &Declaring, number: u32) -> Result<ScopedLocal, WantOfMemory>
    ensures { IfOk result (λ l. local_of l ≡ local_in_scope declaring.now.name.now number declaring.now.ty.now declaring.now.is_final) }
{
    let name = Text::copied(alloc, declaring.name)?;
    let ty = copy_type(alloc, declaring.ty)?;
    Ok(ScopedLocal {
        name,
        number,
        ty,
        is_final: declaring.is_final,
        constant: None,
    })
}

// .. and among all of the method.
fn local(alloc: Global, declaring: &Declaring) -> Result<Local, WantOfMemory>
    ensures { IfOk result (λ l. l ≡ local_named declaring.now.place declaring.now.name.now declaring.now.ty.now declaring.now.is_final) }
{
    let name = Text::copied(alloc, declaring.name)?;
    let ty = copy_type(alloc, declaring.ty)?;
    Ok(Local {
        place: declaring.place,
        name,
        ty,
        is_final: declaring.is_final,
    })
}

// A local of this number, in scope and among all of the method.
#[tactic(auto, using(crate::proofs::Scopes::scoping))]
fn push_local(
    alloc: Global,
    course: &mut Course,
    declaring: &Declaring,
    number: u32,
) -> Result<(), WantOfMemory>
    requires { IsCourse course.old }
    ensures stage { OnOk result (with_local declaring.now.place declaring.now.name.now declaring.now.ty.now declaring.now.is_final number (stage course.old) ≡ stage course.new) }
    ensures course { OnOk result (IsCourse course.new) }
    ensures walk { OnOk result (course.new.walk ≡ course.old.walk) }
{
    let in_scope = scoped(alloc, declaring, number)?;
    let of_method = local(alloc, declaring)?;
    course.locals.declare(alloc, in_scope)?;
    course.all.push(of_method)
}

// A rule that is broken.
fn note_in(course: &mut Course, break_of: Refusal)
    requires { IsCourse course.old }
    ensures stage { answered (broken_more (now course.old.walk) (break_of ∷ [])) [] (stage course.old) ≡ stage course.new }
    ensures course { IsCourse course.new }
    ensures kept { (course.new.walk.nodes ≡ course.old.walk.nodes) × (course.new.all ≡ course.old.all) }
{
    note(&mut course.walk, break_of);
}

// 616 where a local of the name is in scope.
#[tactic(auto, using(crate::proofs::Ending::unanswered))]
fn note_twice(course: &mut Course, is_twice: bool, place: Place)
    requires { IsCourse course.old }
    ensures stage { answered (broken_more (now course.old.walk) (unless (not is_twice) 616 place)) [] (stage course.old) ≡ stage course.new }
    ensures course { IsCourse course.new }
    ensures kept { (course.new.walk.nodes ≡ course.old.walk.nodes) × (course.new.all ≡ course.old.all) }
{
    if !is_twice {
        return;
    }
    note_in(course, refusal(616, place));
}

/// A local is declared: 616 where one of its name is in scope.
#[tactic(auto, using(crate::proofs::Scopes::named_declared, crate::proofs::Ending::answered_twice))]
pub fn declare(
    alloc: Global,
    course: &mut Course,
    declaring: &Declaring,
) -> Result<(), WantOfMemory>
    requires { IsCourse course.old }
    ensures stage { OnOk result (declared declaring.now.place declaring.now.name.now declaring.now.ty.now declaring.now.is_final (stage course.old) ≡ stage course.new) }
    ensures course { OnOk result (IsCourse course.new) }
    ensures nodes { OnOk result (course.new.walk.nodes ≡ course.old.walk.nodes) }
{
    let number = next_number(course.all.len())?;
    let is_twice = course.locals.is_declared(declaring.name);
    note_twice(course, is_twice, declaring.place);
    answer(course, AnswerAt::ALocal(declaring.place, number))?;
    push_local(alloc, course, declaring, number)
}

// What is broken at a catch clause.
#[tactic(auto, using(jc_typed::proofs::Growing::growing))]
fn note_caught(
    alloc: Global,
    table: &Table,
    course: &mut Course,
    place: Place,
    types: &[Ty],
) -> Result<(), WantOfMemory>
    requires { IsCourse course.old }
    ensures stage { OnOk result (answered (broken_more (now course.old.walk) (caught_breaks table.now place types.now)) [] (stage course.old) ≡ stage course.new) }
    ensures course { OnOk result (IsCourse course.new) }
    ensures nodes { OnOk result (course.new.walk.nodes ≡ course.old.walk.nodes) }
{
    let found = caught_breaks(alloc, table, place, types, course.walk.found)?;
    course.walk.found = found;
    Ok(())
}

// A list of types in the arena.
#[tactic(auto, using(jc_typed::proofs::Growing::growing, jc_stmts_answers::proofs::Staying::staying))]
fn push_types(alloc: Global, course: &mut Course, types: &[Ty]) -> Result<u32, WantOfMemory>
    requires { IsCourse course.old }
    ensures list { IfOk result (λ at. types_of course.new.walk.nodes at ≡ types.now) }
    ensures within { IfOk result (λ at. at < length course.new.walk.nodes) }
    ensures stage { OnOk result (stage course.old ≡ stage course.new) }
    ensures course { OnOk result (IsCourse course.new) }
    ensures grows { OnOk result (Grows course.old.walk.nodes course.new.walk.nodes) }
{
    push_type_list(alloc, &mut course.walk.nodes, types)
}

// What is broken at a catch clause, and its types as an answer.
#[tactic(auto, using(jc_typed::proofs::Growing::growing))]
fn answer_types(
    alloc: Global,
    table: &Table,
    course: &mut Course,
    place: Place,
    types: &[Ty],
) -> Result<(), WantOfMemory>
    requires { IsCourse course.old }
    ensures stage { OnOk result (answered (broken_more (now course.old.walk) (caught_breaks table.now place types.now)) (SomeTypes types.now ∷ []) (stage course.old) ≡ stage course.new) }
    ensures course { OnOk result (IsCourse course.new) }
    ensures grows { OnOk result (Grows course.old.walk.nodes course.new.walk.nodes) }
{
    note_caught(alloc, table, course, place, types)?;
    let list = push_types(alloc, course, types)?;
    answer(course, AnswerAt::SomeTypes(list))
}

/// The types of a catch clause at a place: 625 where one of them is no class below Throwable, or is below another one of them; 606 where that can't be told.
pub fn catch_types(
    alloc: Global,
    table: &Table,
    course: &mut Course,
    place: Place,
    types: Items<Ty>,
) -> Result<(), WantOfMemory>
    requires { IsCourse course.old }
    ensures stage { OnOk result (caught table.now place types (stage course.old) ≡ stage course.new) }
    ensures course { OnOk result (IsCourse course.new) }
    ensures grows { OnOk result (Grows course.old.walk.nodes course.new.walk.nodes) }
{
    answer_types(alloc, table, course, place, types.slice())?;
    course.caught = types;
    Ok(())
}

/// The parameter of the catch clause that was met last, by its place, name and whether it is final: 616 as with other locals.
pub fn declare_caught(
    alloc: Global,
    table: &Table,
    course: &mut Course,
    naming: &Naming,
) -> Result<(), WantOfMemory>
    requires { IsCourse course.old }
    ensures stage { OnOk result (declared naming.now.place naming.now.name.now (caught_type table.now (stage course.old).standing.env (stage course.old).caught) naming.now.is_final (stage course.old) ≡ stage course.new) }
    ensures course { OnOk result (IsCourse course.new) }
    ensures nodes { OnOk result (course.new.walk.nodes ≡ course.old.walk.nodes) }
{
    let ty = caught_type(alloc, table, &course.walk.env, course.caught.slice())?;
    let declaring = Declaring {
        place: naming.place,
        name: naming.name,
        ty: &ty,
        is_final: naming.is_final,
    };
    declare(alloc, course, &declaring)
}

/// A rule that is broken whatever the types are.
pub fn fault(course: &mut Course, broken: Broken, place: Place)
    requires { IsCourse course.old }
    ensures stage { faulty (rule_of broken) place (stage course.old) ≡ stage course.new }
    ensures course { IsCourse course.new }
    ensures nodes { course.new.walk.nodes ≡ course.old.walk.nodes }
{
    let break_of = Refusal {
        rule: broken.rule(),
        place,
        have: 0,
    };
    note_in(course, break_of);
}

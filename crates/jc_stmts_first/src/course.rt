//! The state that a walk through a body begins with, and that each part of it begins with.
ghost use Rattle.std.specs.Prelude.{◌≡◌, IfOk};
ghost use Rattle.jc_exprs_locals.specs.Scoped.{locals_of};
ghost use Rattle.jc_stmts_spec.specs.Typed.{first_course};
ghost use Rattle.jc_stmts_course.specs.Nows.{IsCourse, stage};
ghost use Rattle.jc_stmts_course.specs.Steps.{seen};
ghost use Rattle.jc_stmts_first.specs.Firsts.{opened_stage};

use crate::params::{first_locals, param_scope};
use jc_exprs_locals::Locals;
use jc_exprs_nodes::Walk;
use jc_rules::{Items, WantOfMemory};
use jc_stmts_course::Course;
use jc_typed::Nodes;
use jc_types::{Env, MethodId, Table};
use std::alloc::Global;

/// Before the body of a method: the parameters are in scope.
pub fn first_course(alloc: Global, table: &Table, method: MethodId) -> Result<Course, WantOfMemory>
    ensures stage { IfOk result (λ c. seen (first_course table.now method) ≡ stage c) }
    ensures course { IfOk result (λ c. IsCourse c) }
{
    let locals = param_scope(alloc, table, method)?;
    let all = first_locals(alloc, table, method)?;
    let walk = Walk {
        env: Env {
            bounds: Items::new(alloc),
        },
        found: None,
        nodes: Nodes::new(alloc),
    };
    Ok(Course {
        locals,
        all,
        scopes: Items::new(alloc),
        caught: Items::new(alloc),
        walk,
        answers: Items::new(alloc),
    })
}

/// A part of a body begins with these locals in scope, and no answer.
pub fn reopen(alloc: Global, course: &mut Course, locals: Locals)
    requires { IsCourse course.old }
    ensures stage { opened_stage (locals_of locals) (stage course.old) ≡ stage course.new }
    ensures course { IsCourse course.new }
    ensures walk { course.new.walk ≡ course.old.walk }
{
    course.locals = locals;
    course.scopes = Items::new(alloc);
    course.answers = Items::new(alloc);
}

//! Whether one type is below another (JLS 4.10).
ghost use Rattle.std.specs.Prelude.{◌≡◌, ◌↔◌, IfOk};
ghost use Rattle.jc_judge.specs.Trees.{Proof, Refute, Contains, Excludes};
ghost use Rattle.jc_judge.specs.Deciding.{answer_of, contained_answer};

use crate::answering::{below_at, part_answer};
use crate::containing::contained_part;
use jc_judge::Answer;
use jc_rules::{Items, WantOfMemory};
use jc_types::{Arg, Env, Table, Ty};
use std::alloc::Global;

/// The height of the trees that are looked for.
pub const MAX_HEIGHT: u32 = 64;

/// Whether the first type is below the second (JLS 4.10): Yes exactly where there is a proof tree of height 64, No exactly where
/// there is a refutation tree, and Deep where there is neither.
pub fn below(
    alloc: Global,
    table: &Table,
    env: &Env,
    s: &Ty,
    t: &Ty,
) -> Result<Answer, WantOfMemory>
    ensures yes { IfOk result (λ a. (a ≡ Answer.Yes) ↔ Proof table.now 64 env.now.bounds s.now t.now) }
    ensures no { IfOk result (λ a. (a ≡ Answer.No) ↔ Refute table.now 64 env.now.bounds s.now t.now) }
    ensures answer { IfOk result (λ a. a ≡ answer_of table.now 64 env.now.bounds s.now t.now) }
{
    let mut fresh = Items::new(alloc);
    below_at(
        alloc,
        table,
        env.bounds.slice(),
        &mut fresh,
        MAX_HEIGHT,
        s,
        t,
    )
}

/// Whether the second argument contains the first (JLS 4.5.1), where a question of subtyping may have trees of height 64.
pub fn contained(
    alloc: Global,
    table: &Table,
    env: &Env,
    a: &Arg,
    b: &Arg,
) -> Result<Answer, WantOfMemory>
    ensures yes { IfOk result (λ r. (r ≡ Answer.Yes) ↔ Contains table.now 64 env.now.bounds a.now b.now) }
    ensures no { IfOk result (λ r. (r ≡ Answer.No) ↔ Excludes table.now 64 env.now.bounds a.now b.now) }
    ensures answer { IfOk result (λ r. r ≡ contained_answer table.now 64 env.now.bounds a.now b.now) }
{
    let mut fresh = Items::new(alloc);
    let part = contained_part(alloc, a, b)?;
    part_answer(
        alloc,
        table,
        env.bounds.slice(),
        &mut fresh,
        MAX_HEIGHT,
        &part,
    )
}

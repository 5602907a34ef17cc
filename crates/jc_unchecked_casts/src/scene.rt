//! Questions of subtyping and containment, of which only a proof tree is an answer.
ghost use Rattle.std.specs.Prelude.{◌≡◌, IfOk};
ghost use Rattle.jc_judge.specs.Deciding.{contained_answer};
ghost use Rattle.jc_unchecked_spec.specs.Casts.{is_below, is_yes};

use jc_judge::Answer;
use jc_rules::WantOfMemory;
use jc_sub::{below, contained};
use jc_types::{Arg, Env, Table, Ty};
use std::alloc::Global;

/// The declarations, and the bounds of the captured variables.
#[derive(Clone, Copy)]
pub struct Scene<'a> {
    pub alloc: Global,
    pub table: &'a Table,
    pub env: &'a Env,
}

fn is_yes(answer: Answer) -> bool
    ensures { result ≡ is_yes answer }
{
    match answer {
        Answer::Yes => true,
        Answer::No => false,
        Answer::Deep => false,
    }
}

/// Whether by a proof tree the first type is below the second (JLS 4.10).
pub fn is_below(scene: &Scene, s: &Ty, t: &Ty) -> Result<bool, WantOfMemory>
    ensures { IfOk result (λ r. r ≡ is_below scene.now.table.now scene.now.env.now.bounds s.now t.now) }
{
    let answer = below(scene.alloc, scene.table, scene.env, s, t)?;
    Ok(is_yes(answer))
}

/// Whether by a proof tree the second argument contains the first (JLS 4.5.1).
pub fn is_contained(scene: &Scene, a: &Arg, b: &Arg) -> Result<bool, WantOfMemory>
    ensures { IfOk result (λ r. r ≡ is_yes (contained_answer scene.now.table.now 64 scene.now.env.now.bounds a.now b.now)) }
{
    let answer = contained(scene.alloc, scene.table, scene.env, a, b)?;
    Ok(is_yes(answer))
}

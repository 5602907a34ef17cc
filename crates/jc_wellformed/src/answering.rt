//! Whether several questions all hold.
ghost use Rattle.std.specs.Prelude.{◌≡◌, ◌++◌, IfOk, OnOk};
ghost use Rattle.jc_judge.specs.Trees.{both};
ghost use Rattle.jc_judge.specs.Forming.{all_hold, is_no, is_deep};

use jc_judge::{Answer, Part};
use jc_rules::{Items, WantOfMemory};
use jc_sub::{MAX_HEIGHT, every};
use jc_types::{Bounds, Table};
use std::alloc::Global;

/// Whether every part holds, by trees of height 64. The captured variables are those of `env` and, after them, those of `fresh`,
/// which is left as it was.
pub fn all_hold(
    alloc: Global,
    table: &Table,
    env: &[Bounds],
    fresh: &mut Items<Bounds>,
    parts: &[Part],
) -> Result<Answer, WantOfMemory>
    ensures answer { IfOk result (λ a. a ≡ all_hold table.now 64 (env.now ++ fresh.old) parts.now) }
    ensures fresh { OnOk result (fresh.new ≡ fresh.old) }
{
    every(alloc, table, env, fresh, MAX_HEIGHT, parts)
}

/// The answer where both have to hold.
pub fn both(a: Answer, b: Answer) -> Answer
    ensures { result ≡ both a b }
{
    match a {
        Answer::Yes => b,
        Answer::No => Answer::No,
        Answer::Deep => match b {
            Answer::No => Answer::No,
            _ => Answer::Deep,
        },
    }
}

pub fn is_no(a: Answer) -> bool
    ensures { result ≡ is_no a }
{
    match a {
        Answer::No => true,
        _ => false,
    }
}

pub fn is_deep(a: Answer) -> bool
    ensures { result ≡ is_deep a }
{
    match a {
        Answer::Deep => true,
        _ => false,
    }
}

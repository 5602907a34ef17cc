//! Answers to questions of subtyping.
ghost use Rattle.std.specs.Prelude.{◌≡◌, ◌++◌, ◌≤◌, IfOk, OnOk, take, length};
ghost use Rattle.jc_judge.specs.Trees.{Answers, Proof, Refute, PartProved, PartRefuted, Each, OneOf, Proved, Refuted, both, either};

use crate::questions::question;
use jc_judge::{Answer, Part, Question};
use jc_rules::{Items, WantOfMemory};
use jc_types::{Bounds, Table, Ty, same_type};
use std::alloc::Global;

/// Whether the first type is below the second, by trees of at most this height. The captured variables are those of `env` and,
/// after them, those of `fresh`, which is left as it was.
#[cycle(below)]
pub fn below_at(
    alloc: Global,
    table: &Table,
    env: &[Bounds],
    fresh: &mut Items<Bounds>,
    height: u32,
    s: &Ty,
    t: &Ty,
) -> Result<Answer, WantOfMemory>
    ensures answer { IfOk result (λ a. Answers (Proof table.now height (env.now ++ fresh.old) s.now t.now) (Refute table.now height (env.now ++ fresh.old) s.now t.now) a) }
    ensures fresh { OnOk result (fresh.new ≡ fresh.old) }
{
    if height == 0 {
        return Ok(Answer::Deep);
    }
    if same_type(s, t) {
        return Ok(Answer::Yes);
    }
    let question = question(alloc, table, env, fresh.slice(), s, t)?;
    answer(alloc, table, env, fresh, height - 1, question)
}

#[cycle(below)]
fn answer(
    alloc: Global,
    table: &Table,
    env: &[Bounds],
    fresh: &mut Items<Bounds>,
    height: u32,
    question: Question,
) -> Result<Answer, WantOfMemory>
    ensures answer { IfOk result (λ a. Answers (Proved (Proof table.now height) (env.now ++ fresh.old) question) (Refuted (Refute table.now height) (env.now ++ fresh.old) question) a) }
    ensures fresh { OnOk result (fresh.new ≡ fresh.old) }
{
    match question {
        Question::Holds => Ok(Answer::Yes),
        Question::Fails => Ok(Answer::No),
        Question::Every { fresh: more, parts } => {
            let before = fresh.len();
            fresh.append(more)?;
            let answer = every(alloc, table, env, fresh, height, parts.slice())?;
            shrink(fresh, before);
            Ok(answer)
        }
        Question::SomeOf { parts } => some_of(alloc, table, env, fresh, height, parts.slice()),
    }
}

/// Whether every part holds, by trees of at most this height. The first part that is refuted decides.
#[cycle(below)]
pub fn every(
    alloc: Global,
    table: &Table,
    env: &[Bounds],
    fresh: &mut Items<Bounds>,
    height: u32,
    parts: &[Part],
) -> Result<Answer, WantOfMemory>
    ensures answer { IfOk result (λ a. Answers (Each (PartProved (Proof table.now height (env.now ++ fresh.old))) parts.now) (OneOf (PartRefuted (Refute table.now height (env.now ++ fresh.old))) parts.now) a) }
    ensures fresh { OnOk result (fresh.new ≡ fresh.old) }
{
    let mut answer = Answer::Yes;
    for i in 0..parts.len() {
        let next = part_answer(alloc, table, env, fresh, height, &parts[i])?;
        if next == Answer::No {
            return Ok(Answer::No);
        }
        answer = both(answer, next);
    }
    Ok(answer)
}

// Whether some part holds. The first part that is proved decides.
#[cycle(below)]
fn some_of(
    alloc: Global,
    table: &Table,
    env: &[Bounds],
    fresh: &mut Items<Bounds>,
    height: u32,
    parts: &[Part],
) -> Result<Answer, WantOfMemory>
    ensures answer { IfOk result (λ a. Answers (OneOf (PartProved (Proof table.now height (env.now ++ fresh.old))) parts.now) (Each (PartRefuted (Refute table.now height (env.now ++ fresh.old))) parts.now) a) }
    ensures fresh { OnOk result (fresh.new ≡ fresh.old) }
{
    let mut answer = Answer::No;
    for i in 0..parts.len() {
        let next = part_answer(alloc, table, env, fresh, height, &parts[i])?;
        if next == Answer::Yes {
            return Ok(Answer::Yes);
        }
        answer = either(answer, next);
    }
    Ok(answer)
}

/// Whether a part holds, by trees of at most this height.
#[cycle(below)]
pub fn part_answer(
    alloc: Global,
    table: &Table,
    env: &[Bounds],
    fresh: &mut Items<Bounds>,
    height: u32,
    part: &Part,
) -> Result<Answer, WantOfMemory>
    ensures answer { IfOk result (λ a. Answers (PartProved (Proof table.now height (env.now ++ fresh.old)) part.now) (PartRefuted (Refute table.now height (env.now ++ fresh.old)) part.now) a) }
    ensures fresh { OnOk result (fresh.new ≡ fresh.old) }
{
    match part {
        Part::Sure => Ok(Answer::Yes),
        Part::Never => Ok(Answer::No),
        Part::Ask { below, above } => below_at(alloc, table, env, fresh, height, below, above),
        Part::Same { one, other } => {
            if same_type(one, other) {
                return Ok(Answer::Yes);
            }
            Ok(Answer::No)
        }
    }
}

// The answer where both have to hold.
fn both(a: Answer, b: Answer) -> Answer
    ensures { result ≡ both a b }
{
    match a {
        Answer::Yes => b,
        Answer::No => Answer::No,
        Answer::Deep => match b {
            Answer::No => Answer::No,
            _ => Answer::Deep,
        },
    }
}

// The answer where one has to hold.
fn either(a: Answer, b: Answer) -> Answer
    ensures { result ≡ either a b }
{
    match a {
        Answer::No => b,
        Answer::Yes => Answer::Yes,
        Answer::Deep => match b {
            Answer::Yes => Answer::Yes,
            _ => Answer::Deep,
        },
    }
}

// Back to a length.
fn shrink(fresh: &mut Items<Bounds>, to: usize)
    requires { to ≤ length fresh.old }
    ensures { fresh.new ≡ take to fresh.old }
{
    while fresh.len() > to {
        let _last = fresh.pop();
    }
}

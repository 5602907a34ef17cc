//! Whether the results of inherited methods agree (JLS 8.4.8.4, 9.4.1).
ghost use Rattle.std.specs.Prelude.{◌≡◌, IfOk};
ghost use Rattle.jc_judge.specs.Trees.{both, either};
ghost use Rattle.jc_header_rules.specs.Inheriting.{agreement, one_stands, stands_for_all};
ghost use Rattle.jc_class_rules.specs.Grouping.{all_from, fitting, no_if, one_at, one_from, stands_at};

use crate::meeting::{disagrees_some, meets, meets_body, with_body};
use jc_judge::Answer;
use jc_members::MethodView;
use jc_method_rules::result_answer;
use jc_rules::WantOfMemory;
use jc_types::{ClassId, Table};
use std::alloc::Global;

/// The answer where both have to hold.
pub fn both(a: Answer, b: Answer) -> Answer
    ensures { result ≡ both a b }
{
    match a {
        Answer::Yes => b,
        Answer::No => Answer::No,
        Answer::Deep => match b {
            Answer::No => Answer::No,
            _ => Answer::Deep,
        },
    }
}

// The answer where one has to hold.
fn either(a: Answer, b: Answer) -> Answer
    ensures { result ≡ either a b }
{
    match a {
        Answer::No => b,
        Answer::Yes => Answer::Yes,
        Answer::Deep => match b {
            Answer::Yes => Answer::Yes,
            _ => Answer::Deep,
        },
    }
}

fn no_if(holds: bool) -> Answer
    ensures { result ≡ no_if holds }
{
    if holds { Answer::No } else { Answer::Yes }
}

// Whether v's result may stand for w's, where they meet.
#[tactic(auto, unfolding(crate::specs::Grouping::stands_at))]
fn stands_for(
    alloc: Global,
    table: &Table,
    k: ClassId,
    v: &MethodView,
    w: &MethodView,
) -> Result<Answer, WantOfMemory>
    ensures { IfOk result (λ r. r ≡ stands_at table.now k v.now w.now) }
{
    if !meets(alloc, table, k, v, w)? {
        return Ok(Answer::Yes);
    }
    result_answer(alloc, table, v, w)
}

fn stands_for_each(
    alloc: Global,
    table: &Table,
    k: ClassId,
    v: &MethodView,
    members: &[MethodView],
) -> Result<Answer, WantOfMemory>
    ensures { IfOk result (λ r. r ≡ all_from (stands_at table.now k v.now) Answer.Yes members.now) }
{
    let mut answer = Answer::Yes;
    let mut rest = members;
    while let [w, more @ ..] = rest {
        answer = both(answer, stands_for(alloc, table, k, v, w)?);
        rest = more;
    }
    Ok(answer)
}

// Whether v's result may stand for those of all that it meets.
#[tactic(auto, using(crate::proofs::Joined::stands_joined))]
fn stands_for_all(
    alloc: Global,
    table: &Table,
    k: ClassId,
    v: &MethodView,
    members: &[MethodView],
) -> Result<Answer, WantOfMemory>
    ensures { IfOk result (λ r. r ≡ stands_for_all table.now k v.now members.now) }
{
    stands_for_each(alloc, table, k, v, members)
}

// Whether v meets w, whose result may stand for those of all that it meets.
#[tactic(auto, unfolding(crate::specs::Grouping::one_at))]
fn meets_one(
    alloc: Global,
    table: &Table,
    k: ClassId,
    v: &MethodView,
    w: &MethodView,
    members: &[MethodView],
) -> Result<Answer, WantOfMemory>
    ensures { IfOk result (λ r. r ≡ one_at table.now k v.now members.now w.now) }
{
    if !meets(alloc, table, k, v, w)? {
        return Ok(Answer::No);
    }
    stands_for_all(alloc, table, k, w, members)
}

fn one_of_each(
    alloc: Global,
    table: &Table,
    k: ClassId,
    v: &MethodView,
    members: &[MethodView],
) -> Result<Answer, WantOfMemory>
    ensures { IfOk result (λ r. r ≡ one_from (one_at table.now k v.now members.now) Answer.No members.now) }
{
    let mut answer = Answer::No;
    let mut rest = members;
    while let [w, more @ ..] = rest {
        answer = either(answer, meets_one(alloc, table, k, v, w, members)?);
        rest = more;
    }
    Ok(answer)
}

// Whether v meets one whose result may stand for those of all that it meets.
#[tactic(auto, using(crate::proofs::Joined::one_joined))]
fn one_stands(
    alloc: Global,
    table: &Table,
    k: ClassId,
    v: &MethodView,
    members: &[MethodView],
) -> Result<Answer, WantOfMemory>
    ensures { IfOk result (λ r. r ≡ one_stands table.now k v.now members.now members.now) }
{
    one_of_each(alloc, table, k, v, members)
}

fn abstract_agreement(
    alloc: Global,
    table: &Table,
    k: ClassId,
    v: &MethodView,
    members: &[MethodView],
) -> Result<Answer, WantOfMemory>
    ensures { IfOk result (λ r. r ≡ either (stands_for_all table.now k v.now members.now) (one_stands table.now k v.now members.now members.now)) }
{
    let own = stands_for_all(alloc, table, k, v, members)?;
    if let Answer::Yes = own {
        return Ok(Answer::Yes);
    }
    let one = one_stands(alloc, table, k, v, members)?;
    Ok(either(own, one))
}

fn agreement(
    alloc: Global,
    table: &Table,
    k: ClassId,
    members: &[MethodView],
    v: &MethodView,
) -> Result<Answer, WantOfMemory>
    ensures { IfOk result (λ r. r ≡ agreement table.now k members.now v.now) }
{
    if with_body(table, v) {
        return stands_for_all(alloc, table, k, v, members);
    }
    if meets_body(alloc, table, k, v, members)? {
        return Ok(Answer::Yes);
    }
    abstract_agreement(alloc, table, k, v, members)
}

// Whether a member agrees with all of these.
#[tactic(auto, unfolding(crate::specs::Grouping::fitting))]
fn fitting(
    alloc: Global,
    table: &Table,
    k: ClassId,
    members: &[MethodView],
    v: &MethodView,
) -> Result<Answer, WantOfMemory>
    ensures { IfOk result (λ r. r ≡ fitting table.now k members.now v.now) }
{
    let disagrees = disagrees_some(alloc, table, k, members, v)?;
    let agreement = agreement(alloc, table, k, members, v)?;
    Ok(both(no_if(disagrees), agreement))
}

/// Whether these members of a class agree.
pub fn members_agree(
    alloc: Global,
    table: &Table,
    k: ClassId,
    members: &[MethodView],
) -> Result<Answer, WantOfMemory>
    ensures { IfOk result (λ r. r ≡ all_from (fitting table.now k members.now) Answer.Yes members.now) }
{
    let mut answer = Answer::Yes;
    let mut rest = members;
    while let [v, more @ ..] = rest {
        answer = both(answer, fitting(alloc, table, k, members, v)?);
        rest = more;
    }
    Ok(answer)
}

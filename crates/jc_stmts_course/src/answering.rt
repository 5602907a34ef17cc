//! Answers, which are kept as long as nothing is broken.
ghost use Rattle.std.specs.Prelude.{◌≡◌, ◌++◌, ◌∷◌, [], length, OnOk};
ghost use Rattle.jc_exprs_nodes.specs.Walks.{now};
ghost use Rattle.jc_stmts_answers.specs.Answers.{AnswerBelow, answer_of};
ghost use Rattle.jc_stmts_course.specs.Nows.{IsCourse, stage};
ghost use Rattle.jc_stmts_course.specs.Steps.{answered};

use crate::course::Course;
use jc_rules::WantOfMemory;
use jc_stmts_answers::AnswerAt;

/// An answer more.
#[tactic(auto, using(jc_typed::proofs::Growing::growing, jc_stmts_answers::proofs::Staying::adding, crate::proofs::Lasting::answering))]
pub fn answer(course: &mut Course, answer: AnswerAt) -> Result<(), WantOfMemory>
    requires course { IsCourse course.old }
    requires answer { AnswerBelow (length course.old.walk.nodes) answer }
    ensures stage { OnOk result (answered (now course.old.walk) (answer_of course.old.walk.nodes answer ∷ []) (stage course.old) ≡ stage course.new) }
    ensures course { OnOk result (IsCourse course.new) }
    ensures kept { OnOk result ((course.new.walk ≡ course.old.walk) × (course.new.scopes ≡ course.old.scopes) × (course.new.locals ≡ course.old.locals)) }
{
    if course.walk.found.is_some() {
        return Ok(());
    }
    course.answers.push(answer)
}

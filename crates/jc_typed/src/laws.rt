//! What makers of forms need: a form stays what it is, and above its parts, where the arena grows.
ghost use Rattle.jc_typed.specs.Parts.{FormsStay, FormsStayAbove};

/// What a form is over an arena, it is over the grown one.
#[tactic(auto, using(crate::proofs::Reading::forms_stay))]
pub fn same_form()
    ensures { FormsStay }
{}

/// The parts of a form stand below the end of the grown arena.
#[tactic(auto, using(crate::proofs::Growing::forms_stay_above))]
pub fn form_below()
    ensures { FormsStayAbove }
{}

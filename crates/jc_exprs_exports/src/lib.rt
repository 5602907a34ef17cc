//! What the typing of bodies tells of typed trees, for the soundness of what they mean: where captured variables come from, what each
//! form's type is, and where the steps of each operand lead. It holds definitions alone, in `specs/`.
#![tactic(auto)]

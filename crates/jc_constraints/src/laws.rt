//! A law of constraints.
ghost use Rattle.std.specs.Prelude.{◌↔◌, List};
ghost use Rattle.std.specs.List.{Contains};
ghost use Rattle.jc_types.specs.declared.environment.Bounds.{Bounds};
ghost use Rattle.jc_types.specs.declared.form.Ty.{Ty};
ghost use Rattle.jc_types.specs.declared.ids.VarId.{VarId};
ghost use Rattle.jc_types.specs.declared.table.Table.{Table};
ghost use Rattle.jc_constraints.specs.declared.standing.Implied.{Implied};
ghost use Rattle.jc_constraints.specs.declared.standing.Standing.{Standing};
ghost use Rattle.jc_constraints.specs.Constraints.{implied};
ghost use Rattle.jc_constraints.specs.Lines.{ByLines};

/// The list of what a constraint implies has all that its lines imply, and nothing else.
#[tactic(auto, using(crate::proofs::Lined::lines_are_listed))]
pub fn lines_are_listed()
    ensures { (T : Table) (env : List Bounds) (unknown : List VarId) (f : Ty) (s : Standing) (a : Ty) (i : Implied) → Contains (implied T env unknown f s a) i ↔ ByLines T env unknown f s a i }
{}

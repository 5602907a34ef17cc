//! Laws of the choice of a member.
ghost use Rattle.std.specs.Prelude.{◌≡◌, List, Some};
ghost use Rattle.jc_types.specs.declared.environment.Bounds.{Bounds};
ghost use Rattle.jc_types.specs.declared.table.Table.{Table};
ghost use Rattle.jc_judge.specs.declared.question.Answer.TheVariants.{No};
ghost use Rattle.jc_resolve.specs.declared.applied.Candidate.{Candidate};
ghost use Rattle.jc_resolve.specs.declared.choice.Choice.TheVariants as choice;
ghost use Rattle.jc_resolve.specs.declared.choice.Chosen.{Chosen};
ghost use Rattle.jc_resolve.specs.declared.site.CallSite.{CallSite};
ghost use Rattle.jc_resolve.specs.Applying.{gathered};
ghost use Rattle.jc_resolve.specs.Choosing.{resolved};
ghost use Rattle.jc_resolve.specs.Laws.{IsAmong, IsApplicable, StandsBeside};
ghost use Rattle.jc_resolve.specs.Specific.{beaten};

/// A chosen member is one of the call's members and applicable in the phase, with the type arguments and the types of parameters that are named; what else is told of it are the types of
/// the member with these type arguments, erased where a conversion is unchecked.
pub fn chosen_is_applicable()
    ensures { (T : Table) (env : List Bounds) (site : CallSite) (c : Chosen) → resolved T env site ≡ choice.Chosen c → IsApplicable T env site c }
{}

/// No other most specific member is left out: an applicable member of the phase that no other one is strictly more specific than is the chosen one, or has an override-equivalent
/// signature (JLS 15.12.2.5).
#[tactic(auto, using(crate::proofs::Decides::none_left_out))]
pub fn no_maximal_member_is_left_out()
    ensures { (T : Table) (env : List Bounds) (site : CallSite) (c : Chosen) → resolved T env site ≡ choice.Chosen c → (cs : List Candidate) → gathered T env site c.phase site.members ≡ Some cs → (d : Candidate) → IsAmong cs d → beaten T env c.phase d.member cs ≡ No → StandsBeside T cs c.member.id d }
{}

//! The first of the rules that are broken.
ghost use Rattle.std.specs.Prelude.{◌≡◌};
ghost use Rattle.jc_types.specs.Breaks.{least};
ghost use Rattle.jc_header_rules.specs.Places.{broken, broken_if};

use jc_rules::{Place, Refusal, Rule};
use jc_types::sooner;

/// What was found before, or a rule that is broken here, whichever comes first.
pub fn or_break(found: Option<Refusal>, rule: Rule, place: Place) -> Option<Refusal>
    ensures { result ≡ least found (broken rule place) }
{
    let next = Refusal {
        rule,
        place,
        have: 0,
    };
    sooner(found, Some(next))
}

/// What was found before, or this rule, where it is broken and comes first.
pub fn if_broken(
    found: Option<Refusal>,
    is_broken: bool,
    rule: Rule,
    place: Place,
) -> Option<Refusal>
    ensures { result ≡ least found (broken_if is_broken rule place) }
{
    if is_broken {
        or_break(found, rule, place)
    } else {
        found
    }
}

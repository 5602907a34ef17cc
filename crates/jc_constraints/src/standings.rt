//! How arguments stand to each other, by their kinds.
ghost use Rattle.std.specs.Prelude.{◌≡◌};
ghost use Rattle.std.specs.Option.{option_copied};
ghost use Rattle.jc_types.specs.declared.form.Arg.{out-Arg};
ghost use Rattle.jc_constraints.specs.Standings.{if_exact, if_lower, if_upper, kind_of, part_of, standing_of};

use crate::standing::{ArgKind, Standing};
use jc_types::{Arg, Ty};

#[tactic(auto, using(jc_types::proofs::Opened::opened))]
pub fn kind_of(arg: &Arg) -> ArgKind
    ensures { result ≡ kind_of (out-Arg arg.now) }
{
    match arg {
        Arg::Exact(_) => ArgKind::Exact,
        Arg::Any => ArgKind::Any,
        Arg::Extends(_) => ArgKind::Extends,
        Arg::Super(_) => ArgKind::Super,
    }
}

/// The type in an argument.
#[tactic(auto, using(jc_types::proofs::Opened::opened))]
pub fn part_of(arg: &Arg) -> Option<&Ty>
    ensures { option_copied result ≡ part_of (out-Arg arg.now) }
{
    match arg {
        Arg::Exact(t) => Some(t),
        Arg::Any => None,
        Arg::Extends(t) => Some(t),
        Arg::Super(t) => Some(t),
    }
}

fn if_exact(kind: ArgKind) -> Option<Standing>
    ensures { result ≡ if_exact kind }
{
    match kind {
        ArgKind::Exact => Some(Standing::Same),
        _ => None,
    }
}

fn if_upper(standing: Standing, kind: ArgKind) -> Option<Standing>
    ensures { result ≡ if_upper standing kind }
{
    match kind {
        ArgKind::Exact => Some(standing),
        ArgKind::Extends => Some(standing),
        _ => None,
    }
}

fn if_lower(standing: Standing, kind: ArgKind) -> Option<Standing>
    ensures { result ≡ if_lower standing kind }
{
    match kind {
        ArgKind::Exact => Some(standing),
        ArgKind::Super => Some(standing),
        _ => None,
    }
}

/// How the types in two arguments stand, by how the class types round them stand.
pub fn standing_of(standing: Standing, formal: ArgKind, actual: ArgKind) -> Option<Standing>
    ensures { result ≡ standing_of standing formal actual }
{
    match standing {
        Standing::Below => match formal {
            ArgKind::Exact => if_exact(actual),
            ArgKind::Extends => if_upper(Standing::Below, actual),
            ArgKind::Super => if_lower(Standing::Above, actual),
            ArgKind::Any => None,
        },
        Standing::Same => {
            if formal == actual && formal != ArgKind::Any {
                Some(Standing::Same)
            } else {
                None
            }
        }
        Standing::Above => match actual {
            ArgKind::Exact => if_exact(formal),
            ArgKind::Extends => if_upper(Standing::Above, formal),
            ArgKind::Super => if_lower(Standing::Below, formal),
            ArgKind::Any => None,
        },
    }
}

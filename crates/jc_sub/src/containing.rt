//! Containment of type arguments (JLS 4.5.1).
ghost use Rattle.std.specs.Prelude.{◌≡◌, ◌++◌, IfOk, OnOk};
ghost use Rattle.jc_judge.specs.declared.question.Part.TheVariants.{Ask};
ghost use Rattle.jc_judge.specs.Asking.{contained, all_contained, in_extends_at, in_super_at, in_exact_at};
ghost use Rattle.jc_types.specs.declared.form.Arg.{out-Arg};

use crate::kinds::is_object;
use jc_judge::Part;
use jc_rules::{Items, WantOfMemory};
use jc_types::{Arg, Ty, copy_type};
use std::alloc::Global;

/// What containment of the first argument in the second comes to.
#[tactic(auto, using(jc_types::proofs::Opened::opened), unfolding(jc_judge::specs::Asking::contained))]
pub fn contained_part(alloc: Global, a: &Arg, b: &Arg) -> Result<Part, WantOfMemory>
    ensures { IfOk result (λ r. r ≡ contained a.now b.now) }
{
    match b {
        Arg::Any => Ok(Part::Sure),
        Arg::Extends(u) => {
            if is_object(u) {
                Ok(Part::Sure)
            } else {
                in_extends(alloc, u, a)
            }
        }
        Arg::Super(l) => in_super(alloc, l, a),
        Arg::Exact(u) => in_exact(alloc, u, a),
    }
}

#[tactic(auto, using(jc_types::proofs::Opened::opened))]
fn in_extends(alloc: Global, u: &Ty, a: &Arg) -> Result<Part, WantOfMemory>
    ensures { IfOk result (λ r. r ≡ in_extends_at u.now (out-Arg a.now)) }
{
    match a {
        Arg::Exact(t) => ask(alloc, t, u),
        Arg::Extends(t) => ask(alloc, t, u),
        _ => Ok(Part::Never),
    }
}

#[tactic(auto, using(jc_types::proofs::Opened::opened))]
fn in_super(alloc: Global, l: &Ty, a: &Arg) -> Result<Part, WantOfMemory>
    ensures { IfOk result (λ r. r ≡ in_super_at l.now (out-Arg a.now)) }
{
    match a {
        Arg::Exact(t) => ask(alloc, l, t),
        Arg::Super(t) => ask(alloc, l, t),
        _ => Ok(Part::Never),
    }
}

#[tactic(auto, using(jc_types::proofs::Opened::opened))]
fn in_exact(alloc: Global, u: &Ty, a: &Arg) -> Result<Part, WantOfMemory>
    ensures { IfOk result (λ r. r ≡ in_exact_at u.now (out-Arg a.now)) }
{
    match a {
        Arg::Exact(t) => {
            let one = copy_type(alloc, t)?;
            let other = copy_type(alloc, u)?;
            Ok(Part::Same { one, other })
        }
        _ => Ok(Part::Never),
    }
}

pub fn ask(alloc: Global, s: &Ty, t: &Ty) -> Result<Part, WantOfMemory>
    ensures { IfOk result (λ r. r ≡ Ask s.now t.now) }
{
    let below = copy_type(alloc, s)?;
    let above = copy_type(alloc, t)?;
    Ok(Part::Ask { below, above })
}

pub fn push_contained(
    alloc: Global,
    xs: &[Arg],
    ys: &[Arg],
    out: &mut Items<Part>,
) -> Result<(), WantOfMemory>
    ensures { OnOk result (out.new ≡ out.old ++ all_contained xs.now ys.now) }
{
    let mut left = xs;
    let mut right = ys;
    while let [x, others @ ..] = left {
        match right {
            [] => return Ok(()),
            [y, more @ ..] => {
                let part = contained_part(alloc, x, y)?;
                out.push(part)?;
                right = more;
            }
        }
        left = others;
    }
    Ok(())
}

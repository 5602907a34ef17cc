//! A member's own type parameters as types, with the bounds that its view gives them (JLS 4.5.2).
ghost use Rattle.std.specs.Prelude.{◌≡◌, ◌≤◌, IfOk, length, take};
ghost use Rattle.jc_resolve.specs.Parameters.{bounded_by, stand_ins};

use crate::applying::put_all;
use jc_rules::{Items, WantOfMemory};
use jc_types::{Bounds, CaptureId, Ty, VarId};
use std::alloc::Global;

/// Fresh variables that stand for type parameters, numbered from `first` on.
pub fn stand_ins(alloc: Global, first: u64, vars: &[VarId]) -> Result<Items<Ty>, WantOfMemory>
    ensures { IfOk result (λ r. r ≡ stand_ins first vars.now) }
{
    let mut list = Items::new(alloc);
    let mut next = first;
    let mut rest = vars;
    while let [_, more @ ..] = rest {
        list.push(Ty::Captured(CaptureId(next)))?;
        next = match next.checked_add(1) {
            Some(following) => following,
            None => return Err(WantOfMemory),
        };
        rest = more;
    }
    Ok(list)
}

/// Each of these lists as upper bounds, with types for the type parameters.
pub fn bounded_by(
    alloc: Global,
    vars: &[VarId],
    by: &[Ty],
    bounds: &[Items<Ty>],
) -> Result<Items<Bounds>, WantOfMemory>
    ensures { IfOk result (λ r. r ≡ bounded_by vars.now by.now bounds.now) }
{
    let mut list = Items::new(alloc);
    let mut rest = bounds;
    while let [uppers, more @ ..] = rest {
        list.push(Bounds {
            uppers: put_all(alloc, uppers.slice(), vars, by)?,
            lower: None,
        })?;
        rest = more;
    }
    Ok(list)
}

/// Back to a length.
pub fn shrink(bounds: &mut Items<Bounds>, to: usize)
    requires { to ≤ length bounds.old }
    ensures { bounds.new ≡ take to bounds.old }
{
    while bounds.len() > to {
        let _last = bounds.pop();
    }
}

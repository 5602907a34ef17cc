//! The arguments of several views, place by place.
ghost use Rattle.std.specs.Prelude.{◌≡◌, slice_get, IfOk};
ghost use Rattle.jc_lub.specs.Columns.{one_raw, or_any, column, all_same, upper_of, uppers};

use crate::passing::{args_of, same_args};
use jc_rules::{Items, WantOfMemory};
use jc_types::{Arg, Ty, copy_arg, copy_type};
use std::alloc::Global;

/// Whether a view is raw, or has another number of arguments than this.
pub fn one_raw(count: usize, views: &[Ty]) -> bool
    ensures { result ≡ one_raw count views.now }
{
    let mut rest = views;
    while let [view, more @ ..] = rest {
        if args_of(view).len() != count {
            return true;
        }
        rest = more;
    }
    false
}

fn arg_at(alloc: Global, args: &[Arg], place: usize) -> Result<Arg, WantOfMemory>
    ensures { IfOk result (λ r. r ≡ or_any (slice_get args.now place)) }
{
    match args.get(place) {
        Some(arg) => copy_arg(alloc, arg),
        None => Ok(Arg::Any),
    }
}

/// The arguments of views at one place.
pub fn column(alloc: Global, place: usize, views: &[Ty]) -> Result<Items<Arg>, WantOfMemory>
    ensures { IfOk result (λ r. r ≡ column place views.now) }
{
    let mut out = Items::new(alloc);
    let mut rest = views;
    while let [view, more @ ..] = rest {
        let arg = arg_at(alloc, args_of(view), place)?;
        out.push(arg)?;
        rest = more;
    }
    Ok(out)
}

/// Whether all arguments are the first one.
pub fn all_same(first: &Arg, args: &[Arg]) -> bool
    ensures { result ≡ all_same first.now args.now }
{
    let mut rest = args;
    while let [arg, more @ ..] = rest {
        if !same_args(arg, first) {
            return false;
        }
        rest = more;
    }
    true
}

#[tactic(auto, using(jc_types::proofs::Opened::opened), unfolding(crate::specs::Columns::upper_of))]
fn upper_of(alloc: Global, arg: &Arg) -> Result<Option<Ty>, WantOfMemory>
    ensures { IfOk result (λ r. r ≡ upper_of arg.now) }
{
    match arg {
        Arg::Exact(t) => Ok(Some(copy_type(alloc, t)?)),
        Arg::Extends(t) => Ok(Some(copy_type(alloc, t)?)),
        Arg::Any => Ok(None),
        Arg::Super(_) => Ok(None),
    }
}

/// The types U, where all arguments are `U` or `? extends U`.
pub fn uppers(alloc: Global, args: &[Arg]) -> Result<Option<Items<Ty>>, WantOfMemory>
    ensures { IfOk result (λ r. r ≡ uppers args.now) }
{
    let mut out = Items::new(alloc);
    let mut rest = args;
    while let [arg, more @ ..] = rest {
        match upper_of(alloc, arg)? {
            Some(t) => out.push(t)?,
            None => return Ok(None),
        }
        rest = more;
    }
    Ok(Some(out))
}

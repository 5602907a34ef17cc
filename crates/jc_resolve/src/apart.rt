//! Whether the type parameters of a call's members are renamed apart (JLS 15.12.2.7).
ghost use Rattle.std.specs.Prelude.{◌≡◌};
ghost use Rattle.jc_resolve.specs.Apart.{is_apart, names_one, site_names_one, target_names_one};

use crate::site::CallSite;
use jc_infer::names;
use jc_members::MethodView;
use jc_types::{Ty, VarId};

// Whether one of these types names one of these type variables.
fn names_one(vars: &[VarId], types: &[Ty]) -> bool
    ensures { result ≡ names_one vars.now types.now }
{
    let mut rest = types;
    while let [t, more @ ..] = rest {
        if names(vars, t) {
            return true;
        }
        rest = more;
    }
    false
}

// Whether a target, if there is one, names one of these type variables.
fn target_names_one(vars: &[VarId], target: &Option<Ty>) -> bool
    ensures { result ≡ target_names_one vars.now target.now }
{
    match target {
        None => false,
        Some(t) => names(vars, t),
    }
}

// Whether a call's types name one of these type variables.
fn site_names_one(vars: &[VarId], site: &CallSite) -> bool
    ensures { result ≡ site_names_one vars.now site.now }
{
    names_one(vars, site.explicit.slice())
        || names_one(vars, site.args.slice())
        || target_names_one(vars, &site.target)
}

/// Whether no explicit type argument, no argument's type and no target names a type parameter of a member, as `resolve` requires.
pub fn is_apart(site: &CallSite) -> bool
    ensures { result ≡ is_apart site.now }
{
    let mut rest = site.members.slice();
    while let [m, more @ ..] = rest {
        if site_names_one(m.vars.slice(), site) {
            return false;
        }
        rest = more;
    }
    true
}

//! Calls whose members' type parameters are renamed apart.
ghost use Rattle.std.specs.Prelude.{◌≡◌, ◌++◌, IfOk, OnOk, map, true};
ghost use Rattle.jc_types.specs.declared.form.Arg.{out-Arg};
ghost use Rattle.jc_types.specs.declared.form.Ty.{out-Ty};
ghost use Rattle.jc_judge.specs.Views.{exact_at, exacts};
ghost use Rattle.jc_overriding.specs.Viewing as viewing;
ghost use Rattle.jc_overriding.specs.Viewing.{seeing_of, vars_at, view_of_owner};
ghost use Rattle.jc_types.specs.Accessors.{method_owner_of};
ghost use Rattle.jc_resolve.specs.Apart.{is_apart};
ghost use Rattle.jc_resolve_sites.specs.Renaming.{renamed, seen};
ghost use Rattle.jc_resolve_sites.specs.Sites.{apart, apart_by, apart_in, apart_site, first_free, renamed_site};

use crate::above::{above_all, above_target, greater};
use crate::renaming::{renamed, seen};
use jc_members::{MethodView, as_super, declared_view, is_static};
use jc_resolve::{CallSite, copy_view};
use jc_rules::{Items, WantOfMemory};
use jc_types::{Arg, Table, Ty, VarId, arguments, class_vars, copy_type, method_owner};
use std::alloc::Global;

#[tactic(auto, using(jc_types::proofs::Opened::opened))]
fn push_exact(alloc: Global, arg: &Arg, out: &mut Items<Ty>) -> Result<(), WantOfMemory>
    ensures { OnOk result (out.new ≡ out.old ++ exact_at (out-Arg arg.now)) }
{
    match arg {
        Arg::Exact(t) => {
            let t = copy_type(alloc, t)?;
            out.push(t)
        }
        _ => Ok(()),
    }
}

fn exacts(alloc: Global, args: &[Arg]) -> Result<Items<Ty>, WantOfMemory>
    ensures { IfOk result (λ r. r ≡ exacts args.now) }
{
    let mut list = Items::new(alloc);
    let mut rest = args;
    while let [arg, more @ ..] = rest {
        push_exact(alloc, arg, &mut list)?;
        rest = more;
    }
    Ok(list)
}

#[tactic(auto, using(jc_types::proofs::Opened::opened))]
fn vars_at<'a>(table: &'a Table, t: &Ty) -> &'a [VarId]
    ensures { result.now ≡ vars_at table.now (out-Ty t.now) }
{
    match t {
        Ty::Class { id, .. } => class_vars(table, *id),
        _ => &[],
    }
}

// A member by the arguments of a type of its class.
fn apart_with(
    alloc: Global,
    table: &Table,
    first: u64,
    m: &MethodView,
    vars: &[VarId],
    args: &[Arg],
) -> Result<MethodView, WantOfMemory>
    ensures { IfOk result (λ r. r ≡ seen first vars.now (exacts args.now) (viewing.declared_view table.now m.now.id)) }
{
    let by = exacts(alloc, args)?;
    let declared = declared_view(alloc, table, m.id)?;
    seen(alloc, first, vars, by.slice(), &declared)
}

// A member by a type of its class, if that isn't raw.
fn apart_by(
    alloc: Global,
    table: &Table,
    first: u64,
    m: &MethodView,
    view: &Ty,
) -> Result<MethodView, WantOfMemory>
    ensures { IfOk result (λ r. r ≡ apart_by table.now first m.now (seeing_of table.now view.now)) }
{
    match arguments(table, view) {
        None => renamed(alloc, first, m),
        Some(args) => apart_with(alloc, table, first, m, vars_at(table, view), args),
    }
}

// A member by the view of a type as the member's class.
fn apart_in(
    alloc: Global,
    table: &Table,
    first: u64,
    m: &MethodView,
    view: Option<Ty>,
) -> Result<MethodView, WantOfMemory>
    ensures { IfOk result (λ r. r ≡ apart_in table.now first m.now view) }
{
    match view {
        None => renamed(alloc, first, m),
        Some(view) => apart_by(alloc, table, first, m, &view),
    }
}

// The view of a type as the class of a member.
fn view_of_owner(
    alloc: Global,
    table: &Table,
    ty: &Ty,
    m: &MethodView,
) -> Result<Option<Ty>, WantOfMemory>
    ensures { IfOk result (λ r. r ≡ view_of_owner table.now ty.now (method_owner_of table.now m.now.id)) }
{
    match method_owner(table, m.id) {
        None => Ok(None),
        Some(class) => as_super(alloc, table, ty, class),
    }
}

// A member with its type parameters renamed.
fn apart(
    alloc: Global,
    table: &Table,
    first: u64,
    ty: &Ty,
    m: &MethodView,
) -> Result<MethodView, WantOfMemory>
    ensures { IfOk result (λ r. r ≡ apart table.now first ty.now m.now) }
{
    if let [] = m.vars.slice() {
        return copy_view(alloc, m);
    }
    if is_static(table, m.id) {
        let declared = declared_view(alloc, table, m.id)?;
        return renamed(alloc, first, &declared);
    }
    let view = view_of_owner(alloc, table, ty, m)?;
    apart_in(alloc, table, first, m, view)
}

// The first number that stands for no variable of the table, and above all those that a call is asked with.
fn first_free(table: &Table, site: &CallSite) -> Result<u64, WantOfMemory>
    ensures { IfOk result (λ n. n ≡ first_free table.now site.now) }
{
    let explicit = above_all(site.explicit.slice())?;
    let args = above_all(site.args.slice())?;
    let target = above_target(&site.target)?;
    let declared = table.variables.len() as u64;
    Ok(greater(declared, greater(explicit, greater(args, target))))
}

/// The call with its members' type parameters renamed apart from all that it is asked with. The members are as the type has them; where `ty` has arguments, a member of its class is
/// made anew from its declaration, since an argument may name the member's own type parameter: in `<B> void set(X x, B b)` of `Box<X>` the parameters of the view of `Box<B>` are of one
/// type `B` no more.
#[tactic(auto, using(crate::proofs::Apart::apart_sites))]
pub fn apart_site(
    alloc: Global,
    table: &Table,
    ty: &Ty,
    site: CallSite,
) -> Result<CallSite, WantOfMemory>
    ensures site { IfOk result (λ r. r ≡ apart_site table.now ty.now site) }
    ensures apart { IfOk result (λ r. is_apart r ≡ true) }
{
    let first = first_free(table, &site)?;
    let CallSite {
        members,
        explicit,
        args,
        target,
    } = site;
    let members = all_apart(alloc, table, first, ty, members.slice())?;
    Ok(CallSite {
        members,
        explicit,
        args,
        target,
    })
}

fn all_apart(
    alloc: Global,
    table: &Table,
    first: u64,
    ty: &Ty,
    members: &[MethodView],
) -> Result<Items<MethodView>, WantOfMemory>
    ensures { IfOk result (λ r. r ≡ map (apart table.now first ty.now) members.now) }
{
    let mut list = Items::new(alloc);
    let mut rest = members;
    while let [m, more @ ..] = rest {
        list.push(apart(alloc, table, first, ty, m)?)?;
        rest = more;
    }
    Ok(list)
}

fn all_renamed(
    alloc: Global,
    first: u64,
    members: &[MethodView],
) -> Result<Items<MethodView>, WantOfMemory>
    ensures { IfOk result (λ r. r ≡ map (renamed first) members.now) }
{
    let mut list = Items::new(alloc);
    let mut rest = members;
    while let [m, more @ ..] = rest {
        list.push(renamed(alloc, first, m)?)?;
        rest = more;
    }
    Ok(list)
}

/// The call with its members' type parameters renamed apart, where these members speak of no type's arguments, as the constructors of a creation with a diamond.
#[tactic(auto, using(crate::proofs::Apart::renamed_sites))]
pub fn renamed_site(alloc: Global, table: &Table, site: CallSite) -> Result<CallSite, WantOfMemory>
    ensures site { IfOk result (λ r. r ≡ renamed_site table.now site) }
    ensures apart { IfOk result (λ r. is_apart r ≡ true) }
{
    let first = first_free(table, &site)?;
    let CallSite {
        members,
        explicit,
        args,
        target,
    } = site;
    let members = all_renamed(alloc, first, members.slice())?;
    Ok(CallSite {
        members,
        explicit,
        args,
        target,
    })
}

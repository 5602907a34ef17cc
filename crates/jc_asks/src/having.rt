//! The methods that a type has, which override which, the bodies that classes have, and their bridges, in words.
use crate::Read;
use crate::heads::class_of_name;
use crate::methods::method_of_label;
use crate::names::Scope;
use crate::types::read_type;
use crate::words::{put_result, put_type, put_variable, yes_or_no};
use jc_bridges::bridges;
use jc_members::{MethodView, hides, members, method_index, overrides, select};
use jc_rules::Text;
use jc_types::Table;
use std::alloc::Global;

/// The methods of a name that a captured type has, each by its label and as that type has it, or `none`.
pub fn member_words(
    alloc: Global,
    scope: &Scope,
    table: &Table,
    ty: &str,
    name: &str,
) -> Read<String> {
    let ty = read_type(alloc, scope, ty)?;
    let name = Text::copied(alloc, name)?;
    let index = method_index(alloc, table)?;
    let found = members(alloc, table, &index, &ty, &name)?;
    let mut out = String::new(alloc);
    for (i, member) in found.slice().iter().enumerate() {
        out.push_str(if i == 0 { "" } else { " | " })?;
        put_member(alloc, &mut out, scope, table, member)?;
    }
    if found.is_empty() {
        out.push_str("none")?;
    }
    Ok(out)
}

/// The label, the type parameters, and behind a colon the result and the parameters.
fn put_member(
    alloc: Global,
    out: &mut String,
    scope: &Scope,
    table: &Table,
    member: &MethodView,
) -> Read<()> {
    out.push_str(scope.label(member.id))?;
    for variable in member.vars.slice() {
        out.push_str(" ")?;
        put_variable(out, table, *variable)?;
    }
    out.push_str(" : ")?;
    put_result(alloc, out, table, member.result.as_ref())?;
    for param in member.params.slice() {
        out.push_str(" ")?;
        put_type(alloc, out, table, param)?;
    }
    Ok(())
}

/// Whether the method of the first label overrides that of the second.
pub fn override_words(
    alloc: Global,
    scope: &Scope,
    table: &Table,
    one: &str,
    other: &str,
) -> Read<String> {
    let m = method_of_label(scope, one)?;
    let n = method_of_label(scope, other)?;
    let holds = overrides(alloc, table, m, n)?;
    Ok(String::from_str(alloc, yes_or_no(holds))?)
}

/// Whether the method of the first label hides that of the second.
pub fn hiding_words(
    alloc: Global,
    scope: &Scope,
    table: &Table,
    one: &str,
    other: &str,
) -> Read<String> {
    let m = method_of_label(scope, one)?;
    let n = method_of_label(scope, other)?;
    let holds = hides(alloc, table, m, n)?;
    Ok(String::from_str(alloc, yes_or_no(holds))?)
}

/// The label of the body that a class has for a method, or `none`.
pub fn selected_words(
    alloc: Global,
    scope: &Scope,
    table: &Table,
    class: &str,
    label: &str,
) -> Read<String> {
    let k = class_of_name(scope, class)?;
    let m = method_of_label(scope, label)?;
    let word = match select(alloc, table, k, m)? {
        Some(n) => scope.label(n),
        None => "none",
    };
    Ok(String::from_str(alloc, word)?)
}

/// The bridges of a class, each by the label of the method whose name and descriptor it has and that of the one that it calls, or `none`.
pub fn bridge_words(alloc: Global, scope: &Scope, table: &Table, class: &str) -> Read<String> {
    let k = class_of_name(scope, class)?;
    let index = method_index(alloc, table)?;
    let found = bridges(alloc, table, &index, k)?;
    let mut out = String::new(alloc);
    for (i, bridge) in found.slice().iter().enumerate() {
        out.push_str(if i == 0 { "" } else { " | " })?;
        out.push_str(scope.label(bridge.called))?;
        out.push_str(" ")?;
        out.push_str(scope.label(bridge.own))?;
    }
    if found.is_empty() {
        out.push_str("none")?;
    }
    Ok(out)
}

//! Calls in words, and the member that each means.
use crate::heads::class_of_name;
use crate::inferring::{method_of, types_in};
use crate::names::Scope;
use crate::types::read_type;
use crate::words::{put_result, put_type};
use crate::{Read, Unreadable};
use jc_members::{MethodView, members, method_index, view_of_method};
use jc_resolve::{CallSite, Choice, Chosen, is_apart, resolve};
use jc_resolve_sites::{apart_site, constructor_ids, diamond_view, renamed_site};
use jc_rules::{Items, Stop, Text};
use jc_sub::class_of;
use jc_types::{ClassId, Env, MethodId, Phase, Table, Ty};
use std::alloc::Global;

/// The member that words spell: `fixed` or `variable`, its type parameters, and behind a colon its result and its parameters. Its number is its id.
fn member_of(
    alloc: Global,
    scope: &Scope,
    table: &Table,
    number: u64,
    words: &str,
) -> Read<MethodView> {
    let mut parts = words.split(':');
    let head = parts.next().unwrap_or("").trim();
    let types = parts.next().unwrap_or("");
    let (word, variables) = match head.split_once(' ') {
        Some(pair) => pair,
        None => (head, ""),
    };
    let mut member = method_of(alloc, scope, table, variables, types)?;
    member.id = MethodId(number);
    member.variable = match word {
        "fixed" => false,
        "variable" => true,
        _ => return Err(Stop::Refused(Unreadable)),
    };
    Ok(member)
}

/// What a call means whose explicit type arguments, arguments and target stand before the first bar, and whose members stand behind the bars.
pub fn meant(
    alloc: Global,
    scope: &Scope,
    table: &Table,
    env: &mut Env,
    call: &str,
) -> Read<String> {
    let site = written_site(alloc, scope, table, call)?;
    match choice_of(alloc, table, env, &site)? {
        None => Ok(String::from_str(alloc, "NotApart")?),
        Some(choice) => choice_words(alloc, table, &choice),
    }
}

/// The member of a type that a call of a name means in a body, where the type, which is captured, and the name stand before the call's explicit type arguments.
pub fn meant_of(
    alloc: Global,
    scope: &Scope,
    table: &Table,
    env: &mut Env,
    call: &str,
) -> Read<String> {
    let site = named_site(alloc, scope, table, call)?;
    asked(alloc, scope, table, env, &site)
}

/// The constructor of a class that a creation means in a body: of a class type, or of a class alone where the creation has a diamond.
pub fn created(
    alloc: Global,
    scope: &Scope,
    table: &Table,
    env: &mut Env,
    call: &str,
) -> Read<String> {
    let site = created_site(alloc, scope, table, call)?;
    asked(alloc, scope, table, env, &site)
}

fn choice_of(alloc: Global, table: &Table, env: &mut Env, site: &CallSite) -> Read<Option<Choice>> {
    if !is_apart(site) {
        return Ok(None);
    }
    let choice = resolve(alloc, table, env, site)?;
    Ok(Some(choice))
}

fn asked(
    alloc: Global,
    scope: &Scope,
    table: &Table,
    env: &mut Env,
    site: &CallSite,
) -> Read<String> {
    match choice_of(alloc, table, env, site)? {
        None => Ok(String::from_str(alloc, "NotApart")?),
        Some(choice) => told_words(alloc, scope, table, &choice),
    }
}

/// The first word, and what follows it.
fn first_word(words: &str) -> (&str, &str) {
    let words = words.trim();
    match words.split_once(' ') {
        Some(pair) => pair,
        None => (words, ""),
    }
}

/// A call of these members, with its explicit type arguments, its arguments and its target between colons.
fn site_of(
    alloc: Global,
    scope: &Scope,
    words: &str,
    members: Items<MethodView>,
) -> Read<CallSite> {
    let mut parts = words.split(':');
    let explicit = types_in(alloc, scope, parts.next().unwrap_or(""))?;
    let args = types_in(alloc, scope, parts.next().unwrap_or(""))?;
    let mut target = types_in(alloc, scope, parts.next().unwrap_or(""))?;
    Ok(CallSite {
        members,
        explicit,
        args,
        target: target.pop(),
    })
}

fn written_site(alloc: Global, scope: &Scope, table: &Table, call: &str) -> Read<CallSite> {
    let mut bars = call.split('|');
    let head = bars.next().unwrap_or("");
    let mut members = Items::new(alloc);
    for (number, words) in bars.enumerate() {
        members.push(member_of(alloc, scope, table, number as u64, words)?)?;
    }
    site_of(alloc, scope, head, members)
}

fn named_site(alloc: Global, scope: &Scope, table: &Table, call: &str) -> Read<CallSite> {
    let (word, rest) = first_word(call);
    let (name, words) = first_word(rest);
    let ty = read_type(alloc, scope, word)?;
    let found = named_members(alloc, table, &ty, name)?;
    let site = site_of(alloc, scope, words, found)?;
    Ok(apart_site(alloc, table, &ty, site)?)
}

fn named_members(alloc: Global, table: &Table, ty: &Ty, name: &str) -> Read<Items<MethodView>> {
    let name = Text::copied(alloc, name)?;
    let index = method_index(alloc, table)?;
    Ok(members(alloc, table, &index, ty, &name)?)
}

fn created_site(alloc: Global, scope: &Scope, table: &Table, call: &str) -> Read<CallSite> {
    let (word, words) = first_word(call);
    match word.strip_suffix("<>") {
        Some(name) => diamond_site(alloc, scope, table, name, words),
        None => creation_site(alloc, scope, table, word, words),
    }
}

fn diamond_site(
    alloc: Global,
    scope: &Scope,
    table: &Table,
    name: &str,
    words: &str,
) -> Read<CallSite> {
    let class = class_of_name(scope, name)?;
    let views = diamond_views(alloc, table, class)?;
    let site = site_of(alloc, scope, words, views)?;
    Ok(renamed_site(alloc, table, site)?)
}

fn diamond_views(alloc: Global, table: &Table, class: ClassId) -> Read<Items<MethodView>> {
    let ids = constructor_ids(alloc, table, class)?;
    let mut views = Items::new(alloc);
    for m in ids.slice() {
        views.push(diamond_view(alloc, table, class, *m)?)?;
    }
    Ok(views)
}

fn creation_site(
    alloc: Global,
    scope: &Scope,
    table: &Table,
    word: &str,
    words: &str,
) -> Read<CallSite> {
    let ty = read_type(alloc, scope, word)?;
    let views = constructor_views(alloc, table, &ty)?;
    let site = site_of(alloc, scope, words, views)?;
    Ok(apart_site(alloc, table, &ty, site)?)
}

fn constructor_views(alloc: Global, table: &Table, ty: &Ty) -> Read<Items<MethodView>> {
    let Some(class) = class_of(ty) else {
        return Err(Stop::Refused(Unreadable));
    };
    let ids = constructor_ids(alloc, table, class)?;
    let mut views = Items::new(alloc);
    for m in ids.slice() {
        if let Some(view) = view_of_method(alloc, table, ty, *m)? {
            views.push(view)?;
        }
    }
    Ok(views)
}

fn put_types(alloc: Global, out: &mut String, table: &Table, types: &[Ty]) -> Read<()> {
    for ty in types {
        out.push_str(" ")?;
        put_type(alloc, out, table, ty)?;
    }
    Ok(())
}

fn phase_word(phase: Phase) -> &'static str {
    match phase {
        Phase::Subtyping => "subtyping",
        Phase::Invocation => "invocation",
        Phase::VariableArity => "variable",
    }
}

/// The phase and the type arguments, and behind a colon the result, with ` unchecked` where a conversion is.
fn put_chosen(alloc: Global, out: &mut String, table: &Table, chosen: &Chosen) -> Read<()> {
    out.push_str(phase_word(chosen.phase))?;
    put_types(alloc, out, table, chosen.type_args.slice())?;
    out.push_str(" : ")?;
    put_result(alloc, out, table, chosen.result.as_ref())?;
    out.push_str(if chosen.unchecked { " unchecked" } else { "" })?;
    Ok(())
}

/// Behind bars the types to which the arguments go, the result as it is kept, and the thrown types.
fn put_more(alloc: Global, out: &mut String, table: &Table, chosen: &Chosen) -> Read<()> {
    out.push_str(" |")?;
    put_types(alloc, out, table, chosen.formals.slice())?;
    out.push_str(" | ")?;
    put_result(alloc, out, table, chosen.kept.as_ref())?;
    out.push_str(" |")?;
    put_types(alloc, out, table, chosen.thrown.slice())
}

/// `Chosen`, the label of the member, and all that is told of it; or why there is none.
fn told_words(alloc: Global, scope: &Scope, table: &Table, choice: &Choice) -> Read<String> {
    let Choice::Chosen(chosen) = choice else {
        return choice_words(alloc, table, choice);
    };
    let label = scope.label(chosen.member.id);
    let mut out = format!(in alloc; "Chosen {label} ")?;
    put_chosen(alloc, &mut out, table, chosen)?;
    put_more(alloc, &mut out, table, chosen)?;
    Ok(out)
}

/// `Chosen`, the number of the member, the phase, its type arguments, and behind a colon its result, with ` unchecked` where a conversion is; or why there is none.
fn choice_words(alloc: Global, table: &Table, choice: &Choice) -> Read<String> {
    match choice {
        Choice::Chosen(chosen) => {
            let number = chosen.member.id.0;
            let mut out = format!(in alloc; "Chosen {number} ")?;
            put_chosen(alloc, &mut out, table, chosen)?;
            Ok(out)
        }
        Choice::NoMember => Ok(String::from_str(alloc, "NoMember")?),
        Choice::NoneApplicable => Ok(String::from_str(alloc, "NoneApplicable")?),
        Choice::Ambiguous { first, second } => {
            let (a, b) = (first.0, second.0);
            Ok(format!(in alloc; "Ambiguous {a} {b}")?)
        }
        Choice::Deep => Ok(String::from_str(alloc, "Deep")?),
    }
}

//! Calls of generic methods in words, and what is inferred for them.
use crate::names::{Named, Scope};
use crate::types::read_type;
use crate::words::put_type;
use crate::{Read, Unreadable};
use jc_infer::{Inference, Why, infer};
use jc_overriding::MethodView;
use jc_rules::{Items, Stop};
use jc_types::{Env, MethodId, Phase, Table, Ty, VarId, copy_types, declared_bounds};
use std::alloc::Global;

fn phase_of(word: &str) -> Read<Phase> {
    match word {
        "subtyping" => Ok(Phase::Subtyping),
        "invocation" => Ok(Phase::Invocation),
        "variable" => Ok(Phase::VariableArity),
        _ => Err(Stop::Refused(Unreadable)),
    }
}

fn variable_of(scope: &Scope, word: &str) -> Read<VarId> {
    match scope.find(word) {
        Some(Named::Variable { number }) => Ok(VarId(number)),
        _ => Err(Stop::Refused(Unreadable)),
    }
}

/// A method with these type parameters, whose result and parameters are the types of the other words.
pub fn method_of(
    alloc: Global,
    scope: &Scope,
    table: &Table,
    variables: &str,
    types: &str,
) -> Read<MethodView> {
    let mut method = MethodView {
        id: MethodId(0),
        vars: Items::new(alloc),
        bounds: Items::new(alloc),
        params: Items::new(alloc),
        result: None,
        thrown: Items::new(alloc),
        variable: false,
    };
    for word in variables.split_whitespace() {
        let variable = variable_of(scope, word)?;
        method.vars.push(variable)?;
        let bounds = copy_types(alloc, declared_bounds(table, variable))?;
        method.bounds.push(bounds)?;
    }
    for (i, word) in types.split_whitespace().enumerate() {
        if i > 0 {
            method.params.push(read_type(alloc, scope, word)?)?;
        } else if word != "void" {
            method.result = Some(read_type(alloc, scope, word)?);
        }
    }
    Ok(method)
}

/// The types that words spell.
pub fn types_in(alloc: Global, scope: &Scope, words: &str) -> Read<Items<Ty>> {
    let mut types = Items::new(alloc);
    for word in words.split_whitespace() {
        types.push(read_type(alloc, scope, word)?)?;
    }
    Ok(types)
}

/// What is inferred for the call that a line's words behind the first one say.
pub fn inferred(
    alloc: Global,
    scope: &Scope,
    table: &Table,
    env: &Env,
    call: &str,
) -> Read<String> {
    let mut parts = call.split(':');
    let head = parts.next().unwrap_or("");
    let types = parts.next().unwrap_or("");
    let args = types_in(alloc, scope, parts.next().unwrap_or(""))?;
    let target = types_in(alloc, scope, parts.next().unwrap_or(""))?;
    let (word, variables) = match head.trim().split_once(' ') {
        Some(pair) => pair,
        None => (head.trim(), ""),
    };
    let phase = phase_of(word)?;
    let mut method = method_of(alloc, scope, table, variables, types)?;
    method.variable = phase == Phase::VariableArity;
    let target = target.slice().first();
    let found = infer(alloc, table, env, &method, phase, args.slice(), target)?;
    inference_words(alloc, table, found)
}

fn inference_words(alloc: Global, table: &Table, found: Inference) -> Read<String> {
    match found {
        Inference::Inferred { args } => {
            let mut out = String::from_str(alloc, "Inferred")?;
            for arg in args.slice() {
                out.push_str(" ")?;
                put_type(alloc, &mut out, table, arg)?;
            }
            Ok(out)
        }
        Inference::NotApplicable {
            why: Why::Bound { i },
        } => Ok(format!(in alloc; "Bound {i}")?),
        Inference::NotApplicable {
            why: Why::Ill { i },
        } => Ok(format!(in alloc; "Ill {i}")?),
        Inference::Deep => Ok(String::from_str(alloc, "Deep")?),
    }
}

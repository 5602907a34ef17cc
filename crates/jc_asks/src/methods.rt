//! Methods from their head lines.
use crate::heads::{MODIFIERS, NOWHERE, add_variable, class_of_name};
use crate::names::{Named, Scope};
use crate::types::read_type;
use crate::{Read, Unreadable};
use jc_rules::{Items, Stop, Text, WantOfMemory};
use jc_tables::push_method;
use jc_types::{
    Access, ClassId, MethodDecl, MethodId, MethodKind, Owner, ScopeId, Table, TypePlaces, Written,
    WrittenTypes,
};
use std::alloc::Global;

/// What the next word of a method's head is.
#[derive(Clone, Copy, Debug, PartialEq, Eq)]
enum Part {
    Modifier,
    Variable,
    Result,
    Parameter,
    Thrown,
}

/// Adds the method of a head line.
pub fn add_method(alloc: Global, scope: &Scope, table: &mut Table, line: &str) -> Read<()> {
    let mut words = line.split_whitespace();
    let _head = words.next();
    let _label = words.next();
    let class = class_of_name(scope, words.next().unwrap_or(""))?;
    let mut method = method_decl(alloc, class, words.next().unwrap_or(""))?;
    method.modifiers.access = Access::Package;
    let mut part = Part::Modifier;
    for word in words {
        part = put_word(alloc, scope, table, &mut method, part, word)?;
    }
    method.has_body = !method.modifiers.is_abstract;
    push_method(table, method)?;
    Ok(())
}

/// Puts a word of a head into the method, and tells what the one after it is.
fn put_word(
    alloc: Global,
    scope: &Scope,
    table: &mut Table,
    method: &mut MethodDecl,
    part: Part,
    word: &str,
) -> Read<Part> {
    match part {
        Part::Modifier => put_modifier(method, word),
        Part::Variable => {
            if word == ":" {
                return Ok(Part::Result);
            }
            let owner = Owner::Method(MethodId(table.methods.len() as u64));
            let variable = add_variable(alloc, scope, table, owner, word)?;
            method.vars.push(variable)?;
            Ok(Part::Variable)
        }
        Part::Result => {
            if word != "void" {
                let ty = read_type(alloc, scope, word)?;
                let places = nowhere(alloc);
                method.result = Some(Written { ty, places });
            }
            Ok(Part::Parameter)
        }
        Part::Parameter => {
            if word == "throws" {
                return Ok(Part::Thrown);
            }
            let ty = read_type(alloc, scope, word)?;
            method.params.types.push(ty)?;
            method.params.places.push(nowhere(alloc))?;
            Ok(Part::Parameter)
        }
        Part::Thrown => {
            let ty = read_type(alloc, scope, word)?;
            method.thrown.types.push(ty)?;
            method.thrown.places.push(nowhere(alloc))?;
            Ok(Part::Thrown)
        }
    }
}

fn put_modifier(method: &mut MethodDecl, word: &str) -> Read<Part> {
    match word {
        "public" => method.modifiers.access = Access::Public,
        "protected" => method.modifiers.access = Access::Protected,
        "private" => method.modifiers.access = Access::Private,
        "abstract" => method.modifiers.is_abstract = true,
        "static" => method.modifiers.is_static = true,
        "constructor" => method.kind = MethodKind::Constructor,
        "fixed" => return Ok(Part::Variable),
        "variable" => {
            method.is_variable_arity = true;
            return Ok(Part::Variable);
        }
        _ => return Err(Stop::Refused(Unreadable)),
    }
    Ok(Part::Modifier)
}

fn nowhere(alloc: Global) -> TypePlaces {
    TypePlaces {
        first: NOWHERE,
        classes: Items::new(alloc),
    }
}

fn nothing(alloc: Global) -> WrittenTypes {
    WrittenTypes {
        types: Items::new(alloc),
        places: Items::new(alloc),
    }
}

/// A public method of a class, without parameters.
pub fn method_decl(alloc: Global, class: ClassId, name: &str) -> Result<MethodDecl, WantOfMemory> {
    Ok(MethodDecl {
        place: NOWHERE,
        class,
        name: Text::copied(alloc, name)?,
        kind: MethodKind::Method,
        modifiers: MODIFIERS,
        scope: ScopeId(0),
        vars: Items::new(alloc),
        params: nothing(alloc),
        param_names: Items::new(alloc),
        result: None,
        thrown: nothing(alloc),
        is_variable_arity: false,
        has_body: true,
    })
}

/// The method of a label.
pub fn method_of_label(scope: &Scope, label: &str) -> Read<MethodId> {
    match scope.find(label) {
        Some(Named::Method { number }) => Ok(MethodId(number)),
        _ => Err(Stop::Refused(Unreadable)),
    }
}

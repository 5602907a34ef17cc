//! Tables from their head lines, which are read twice: for the names, and then for what the heads say of them.
use crate::methods::{add_method, method_decl};
use crate::names::{Named, Scope};
use crate::types::{read_bounds, read_type};
use crate::{Read, Unreadable};
use jc_rules::{Items, Place, Stop, Text, WantOfMemory};
use jc_tables::{empty_table, push_class, push_method, push_scope, push_variable};
use jc_types::{
    Access, ClassDecl, ClassId, Kind, MethodId, Modifiers, Names, Owner, ScopeId, ScopeOf, Table,
    Ty, TypePlaces, VarId, VariableDecl, WrittenTypes,
};
use std::alloc::Global;

pub const NOWHERE: Place = Place { file: 0, at: 0 };

/// Whether a line is a head, and no question.
pub fn is_head(line: &str) -> bool {
    match line.split_whitespace().next() {
        Some(word) => {
            word == "class"
                || word == "final"
                || word == "interface"
                || word == "variable"
                || word == "method"
        }
        None => false,
    }
}

/// The name of a parameter, and its bound if it has one.
fn parts_of_parameter(word: &str) -> (&str, Option<&str>) {
    match word.split_once(':') {
        Some((name, bound)) => (name, Some(bound)),
        None => (word, None),
    }
}

/// The names that the lines declare.
pub fn scope_of(alloc: Global, lines: &[&str]) -> Read<Scope> {
    let mut scope = Scope::new(alloc)?;
    for line in lines {
        if is_head(line) {
            add_names(alloc, &mut scope, line)?;
        }
    }
    Ok(scope)
}

fn add_names(alloc: Global, scope: &mut Scope, line: &str) -> Read<()> {
    if line.starts_with("method ") {
        return add_method_names(alloc, scope, line);
    }
    let mut class = None;
    let mut generic = false;
    let is_variable = line.starts_with("variable ");
    if is_variable {
        scope.add_label(alloc, "")?;
    }
    for (i, word) in line.split_whitespace().enumerate() {
        if word == ":" {
            break;
        }
        if i == 1 && !is_variable {
            class = Some(word);
        } else if i > 0 {
            generic = true;
            scope.add_variable(alloc, parts_of_parameter(word).0)?;
        }
    }
    if let Some(name) = class {
        scope.add_class(alloc, name, generic)?;
    }
    Ok(())
}

/// A method's label and its type parameters, which stand between `fixed` or `variable` and the colon.
fn add_method_names(alloc: Global, scope: &mut Scope, line: &str) -> Read<()> {
    let mut words = line.split_whitespace();
    let _head = words.next();
    let label = words.next().unwrap_or("");
    let class = class_of_name(scope, words.next().unwrap_or(""))?;
    let _name = words.next();
    scope.add_method(alloc, label, class)?;
    let mut is_parameter = false;
    for word in words {
        if word == ":" {
            break;
        }
        if is_parameter {
            scope.add_variable(alloc, parts_of_parameter(word).0)?;
        } else {
            is_parameter = word == "fixed" || word == "variable";
        }
    }
    Ok(())
}

/// The table that the lines declare.
pub fn table_of(alloc: Global, scope: &Scope, lines: &[&str]) -> Read<Table> {
    let mut table = empty_table(alloc);
    push_scope(&mut table, only_scope(alloc))?;
    let object = class_decl(
        alloc,
        "Object",
        MODIFIERS,
        Kind::Class,
        Items::new(alloc),
        Items::new(alloc),
        scope.members_of(alloc, ClassId(0))?,
    )?;
    push_class(alloc, &mut table, object)?;
    for line in lines {
        if is_head(line) {
            add_head(alloc, scope, &mut table, line)?;
        }
    }
    Ok(table)
}

fn add_head(alloc: Global, scope: &Scope, table: &mut Table, line: &str) -> Read<()> {
    let mut words = line.split_whitespace();
    let head = words.next().unwrap_or("");
    let kind = match head {
        "variable" => return add_variables(alloc, scope, table, line),
        "method" => return add_method(alloc, scope, table, line),
        "interface" => Kind::Interface,
        _ => Kind::Class,
    };
    let name = words.next().unwrap_or("");
    let id = ClassId(table.classes.len() as u64);
    let owner = Owner::Class(id);
    let mut vars = Items::new(alloc);
    let mut supers = Items::new(alloc);
    let mut is_behind = false;
    for word in words {
        if word == ":" {
            is_behind = true;
        } else if is_behind {
            supers.push(read_type(alloc, scope, word)?)?;
        } else {
            vars.push(add_variable(alloc, scope, table, owner, word)?)?;
        }
    }
    let modifiers = modifiers_of(head == "final");
    let members = scope.members_of(alloc, id)?;
    let class = class_decl(alloc, name, modifiers, kind, vars, supers, members)?;
    push_class(alloc, table, class)?;
    Ok(())
}

/// Type variables of a method.
fn add_variables(alloc: Global, scope: &Scope, table: &mut Table, line: &str) -> Read<()> {
    let method = method_decl(alloc, ClassId(0), "")?;
    let owner = Owner::Method(push_method(table, method)?);
    for (i, word) in line.split_whitespace().enumerate() {
        if i > 0 {
            add_variable(alloc, scope, table, owner, word)?;
        }
    }
    Ok(())
}

pub fn add_variable(
    alloc: Global,
    scope: &Scope,
    table: &mut Table,
    owner: Owner,
    word: &str,
) -> Read<VarId> {
    let (name, bound) = parts_of_parameter(word);
    let bounds = read_bounds(alloc, scope, bound.unwrap_or("Object"))?;
    let variable = VariableDecl {
        place: NOWHERE,
        name: Text::copied(alloc, name)?,
        owner,
        bounds: implied(alloc, bounds)?,
    };
    Ok(push_variable(table, variable)?)
}

/// Types that nothing writes.
fn implied(alloc: Global, types: Items<Ty>) -> Result<WrittenTypes, WantOfMemory> {
    let mut places = Items::new(alloc);
    for _ in 0..types.len() {
        places.push(TypePlaces {
            first: NOWHERE,
            classes: Items::new(alloc),
        })?;
    }
    Ok(WrittenTypes { types, places })
}

pub const MODIFIERS: Modifiers = Modifiers {
    access: Access::Public,
    is_abstract: false,
    is_static: false,
    is_final: false,
    is_native: false,
    is_transient: false,
    is_volatile: false,
    says_override: false,
};

/// The modifiers of a class.
fn modifiers_of(is_final: bool) -> Modifiers {
    let mut modifiers = MODIFIERS;
    modifiers.is_final = is_final;
    modifiers
}

/// The scope of all classes.
fn only_scope(alloc: Global) -> jc_types::Scope {
    jc_types::Scope {
        outer: None,
        of: ScopeOf::Unit {
            own: Names::new(alloc),
            package: Text::empty(),
            demands: Items::new(alloc),
        },
    }
}

fn class_decl(
    alloc: Global,
    name: &str,
    modifiers: Modifiers,
    kind: Kind,
    vars: Items<VarId>,
    supers: Items<Ty>,
    methods: Items<MethodId>,
) -> Result<ClassDecl, WantOfMemory> {
    Ok(ClassDecl {
        place: NOWHERE,
        name: Text::copied(alloc, name)?,
        binary: Text::copied(alloc, name)?,
        package: Text::empty(),
        outer: None,
        members: Items::new(alloc),
        scope: ScopeId(0),
        modifiers,
        kind,
        vars,
        supers: implied(alloc, supers)?,
        methods,
        fields: Items::new(alloc),
    })
}

/// The class of a name.
pub fn class_of_name(scope: &Scope, name: &str) -> Read<ClassId> {
    match scope.find(name) {
        Some(Named::Class { number, .. }) => Ok(ClassId(number)),
        _ => Err(Stop::Refused(Unreadable)),
    }
}

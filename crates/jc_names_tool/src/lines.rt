//! Heads of declarations as lines of text.
use jc_declares::{ClassHead, Heads, ImportHead, Path, ScopeForm, ScopeHead};
use jc_rules::{Text, WantOfMemory};
use jc_types::{Access, Kind, Owner};
use std::alloc::Global;

fn push_path(line: &mut String, path: &Path) -> Result<(), WantOfMemory> {
    line.push_str(path.first.str())?;
    for part in path.more.slice() {
        line.push_str(".")?;
        line.push_str(part.str())?;
    }
    Ok(())
}

fn push_paths(line: &mut String, word: &str, paths: &[Path]) -> Result<(), WantOfMemory> {
    for path in paths {
        line.push_str(word)?;
        push_path(line, path)?;
    }
    Ok(())
}

fn access_word(access: Access) -> &'static str {
    match access {
        Access::Public => "public ",
        Access::Protected => "protected ",
        Access::Package => "",
        Access::Private => "private ",
    }
}

fn kind_word(kind: Kind) -> &'static str {
    match kind {
        Kind::Class => "class ",
        Kind::Interface => "interface ",
    }
}

fn class_line(alloc: Global, class: &ClassHead) -> Result<String, WantOfMemory> {
    let mut line = String::from_str(alloc, access_word(class.access))?;
    if class.is_final {
        line.push_str("final ")?;
    }
    line.push_str(kind_word(class.kind))?;
    line.push_str(class.name.str())?;
    push_paths(&mut line, " extends ", class.superclass.slice())?;
    push_paths(&mut line, " with ", class.interfaces.slice())?;
    for outer in class.round.slice() {
        let word = format!(in alloc; " in {outer}")?;
        line.push_str(word.as_str())?;
    }
    let at = class.at;
    let unit = class.unit;
    let scope = class.scope;
    let word = format!(in alloc; " at {at} unit {unit} scope {scope}\n")?;
    line.push_str(word.as_str())?;
    Ok(line)
}

fn import_line(alloc: Global, import: &ImportHead) -> Result<String, WantOfMemory> {
    let mut line = String::from_str(alloc, "import ")?;
    push_path(&mut line, &import.path)?;
    if import.on_demand {
        line.push_str(".*")?;
    }
    line.push_str("\n")?;
    Ok(line)
}

fn variable_line(alloc: Global, owner: Owner, name: &Text) -> Result<String, WantOfMemory> {
    let name = name.str();
    match owner {
        Owner::Class(class) => {
            let number = class.0;
            Ok(format!(in alloc; "parameter {name} of class {number}\n")?)
        }
        Owner::Method(method) => {
            let number = method.0;
            Ok(format!(in alloc; "parameter {name} of method {number}\n")?)
        }
    }
}

fn scope_line(alloc: Global, scope: &ScopeHead) -> Result<String, WantOfMemory> {
    let outer = match scope.outer {
        Some(outer) => format!(in alloc; " in {outer}")?,
        None => String::new(alloc),
    };
    match scope.form {
        ScopeForm::Unit(unit) => Ok(format!(in alloc; "scope of unit {unit}{outer}\n")?),
        ScopeForm::Class(class) => Ok(format!(in alloc; "scope of class {class}{outer}\n")?),
        ScopeForm::Method(method) => Ok(format!(in alloc; "scope of method {method}{outer}\n")?),
    }
}

fn unit_lines(alloc: Global, heads: &Heads, lines: &mut String) -> Result<(), WantOfMemory> {
    for unit in heads.units.slice() {
        let file = unit.file;
        let package = unit.package.str();
        let line = format!(in alloc; "file {file} package {package}\n")?;
        lines.push_str(line.as_str())?;
        for import in unit.imports.slice() {
            lines.push_str(import_line(alloc, import)?.as_str())?;
        }
    }
    Ok(())
}

fn class_lines(alloc: Global, heads: &Heads, lines: &mut String) -> Result<(), WantOfMemory> {
    for class in heads.classes.slice() {
        lines.push_str(class_line(alloc, class)?.as_str())?;
    }
    Ok(())
}

fn member_lines(alloc: Global, heads: &Heads, lines: &mut String) -> Result<(), WantOfMemory> {
    for method in heads.methods.slice() {
        let class = method.class;
        let scope = method.scope;
        let line = format!(in alloc; "method of class {class} scope {scope}\n")?;
        lines.push_str(line.as_str())?;
    }
    for field in heads.fields.slice() {
        let class = field.class;
        let name = field.name.str();
        let line = format!(in alloc; "field {name} of class {class}\n")?;
        lines.push_str(line.as_str())?;
    }
    Ok(())
}

fn scope_lines(alloc: Global, heads: &Heads, lines: &mut String) -> Result<(), WantOfMemory> {
    for variable in heads.variables.slice() {
        let line = variable_line(alloc, variable.owner, &variable.name)?;
        lines.push_str(line.as_str())?;
    }
    for scope in heads.scopes.slice() {
        lines.push_str(scope_line(alloc, scope)?.as_str())?;
    }
    Ok(())
}

/// A line for each declaration.
pub fn head_lines(alloc: Global, heads: &Heads) -> Result<String, WantOfMemory> {
    let mut lines = String::new(alloc);
    unit_lines(alloc, heads, &mut lines)?;
    class_lines(alloc, heads, &mut lines)?;
    member_lines(alloc, heads, &mut lines)?;
    scope_lines(alloc, heads, &mut lines)?;
    Ok(lines)
}

//! Source files.
ghost use Rattle.std.specs.Prelude.{◌≡◌, IfOk};

use crate::plain::copy_idents;
use crate::statements::copy_declaration;
use crate::together::{added, both};
use jc_rules::{Items, WantOfMemory};
use jc_tree::{Import, Package, SourceFile, TopLevel, copy_ident};
use std::alloc::Global;

fn copy_top(alloc: Global, top: &TopLevel) -> Result<TopLevel, WantOfMemory>
    ensures { IfOk result (λ copy. copy ≡ top.now) }
{
    match top {
        TopLevel::Declaration(declaration) => match copy_declaration(alloc, declaration) {
            Ok(declaration) => Ok(TopLevel::Declaration(declaration)),
            Err(fault) => Err(fault),
        },
        TopLevel::Semicolon { at } => Ok(TopLevel::Semicolon { at: *at }),
    }
}

fn copy_tops(alloc: Global, tops: &[TopLevel]) -> Result<Items<TopLevel>, WantOfMemory>
    ensures { IfOk result (λ copy. copy ≡ tops.now) }
{
    let mut copies = Items::new(alloc);
    for i in 0..tops.len() {
        copies = added(copies, copy_top(alloc, &tops[i]))?;
    }
    Ok(copies)
}

fn copy_package(alloc: Global, node: &Package) -> Result<Package, WantOfMemory>
    ensures { IfOk result (λ copy. copy ≡ node.now) }
{
    let first = copy_ident(alloc, &node.first);
    match both(first, copy_idents(alloc, node.more.slice())) {
        Ok((first, more)) => Ok(Package {
            at: node.at,
            first,
            more,
        }),
        Err(fault) => Err(fault),
    }
}

fn copy_some_package(alloc: Global, node: &Option<Package>) -> Result<Option<Package>, WantOfMemory>
    ensures { IfOk result (λ copy. copy ≡ node.now) }
{
    match node {
        Some(node) => Ok(Some(copy_package(alloc, node)?)),
        None => Ok(None),
    }
}

fn copy_import(alloc: Global, import: &Import) -> Result<Import, WantOfMemory>
    ensures { IfOk result (λ copy. copy ≡ import.now) }
{
    let first = copy_ident(alloc, &import.first);
    match both(first, copy_idents(alloc, import.more.slice())) {
        Ok((first, more)) => Ok(Import {
            at: import.at,
            is_static: import.is_static,
            first,
            more,
            on_demand: import.on_demand,
        }),
        Err(fault) => Err(fault),
    }
}

fn copy_imports(alloc: Global, imports: &[Import]) -> Result<Items<Import>, WantOfMemory>
    ensures { IfOk result (λ copy. copy ≡ imports.now) }
{
    let mut copies = Items::new(alloc);
    for i in 0..imports.len() {
        copies = added(copies, copy_import(alloc, &imports[i]))?;
    }
    Ok(copies)
}

/// A copy of a source file.
pub fn copy_file(alloc: Global, file: &SourceFile) -> Result<SourceFile, WantOfMemory>
    ensures { IfOk result (λ copy. copy ≡ file.now) }
{
    let package = copy_some_package(alloc, &file.package);
    let imports = copy_imports(alloc, file.imports.slice());
    match both(package, both(imports, copy_tops(alloc, file.types.slice()))) {
        Ok((package, (imports, types))) => Ok(SourceFile {
            package,
            imports,
            types,
        }),
        Err(fault) => Err(fault),
    }
}

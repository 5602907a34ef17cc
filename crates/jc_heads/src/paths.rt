//! Names of one part or several.
ghost use Rattle.std.specs.Prelude.{◌≡◌, IfOk, map};
ghost use Rattle.jc_declares.specs.Heads.{text_of, part_name, path_of_class, package_name, with_points, import_head};

use jc_declares::{ImportHead, Path};
use jc_rules::{Items, Text, WantOfMemory};
use jc_tree::{ClassTree, Ident, Import, Package, TypePart, copy_text, first_offset_of_class};
use std::alloc::Global;

/// The texts of identifiers.
pub fn texts(alloc: Global, names: &[Ident]) -> Result<Items<Text>, WantOfMemory>
    ensures { IfOk result (λ list. list ≡ map text_of names.now) }
{
    let mut list = Items::new(alloc);
    for name in names {
        list.push(copy_text(alloc, &name.text)?)?;
    }
    Ok(list)
}

/// The names of the parts of a class type.
fn part_names(alloc: Global, parts: &[TypePart]) -> Result<Items<Text>, WantOfMemory>
    ensures { IfOk result (λ list. list ≡ map part_name parts.now) }
{
    let mut list = Items::new(alloc);
    for part in parts {
        list.push(copy_text(alloc, &part.name.text)?)?;
    }
    Ok(list)
}

/// The name of a class type.
pub fn path_of_class(alloc: Global, tree: &ClassTree) -> Result<Path, WantOfMemory>
    ensures { IfOk result (λ path. path ≡ path_of_class tree.now) }
{
    Ok(Path {
        at: first_offset_of_class(tree),
        first: copy_text(alloc, &tree.first.name.text)?,
        more: part_names(alloc, tree.more.slice())?,
    })
}

/// The names of class types.
pub fn paths(alloc: Global, trees: &[ClassTree]) -> Result<Items<Path>, WantOfMemory>
    ensures { IfOk result (λ list. list ≡ map path_of_class trees.now) }
{
    let mut list = Items::new(alloc);
    for tree in trees {
        list.push(path_of_class(alloc, tree)?)?;
    }
    Ok(list)
}

/// The name of a package, with points.
fn pointed(alloc: Global, declared: &Package) -> Result<Text, WantOfMemory>
    ensures { IfOk result (λ name. name ≡ with_points declared.now.first.text (map text_of declared.now.more)) }
{
    let mut name = String::from_str(alloc, declared.first.text.str())?;
    for part in declared.more.slice() {
        name.push_str(".")?;
        name.push_str(part.text.str())?;
    }
    Text::copied(alloc, name.as_str())
}

/// The name of a package with points, empty for the unnamed one.
pub fn package_name(alloc: Global, declared: &Option<Package>) -> Result<Text, WantOfMemory>
    ensures { IfOk result (λ name. name ≡ package_name declared.now) }
{
    match declared {
        None => Ok(Text::empty()),
        Some(declared) => pointed(alloc, declared),
    }
}

/// What names need of an import.
pub fn import_head(alloc: Global, import: &Import) -> Result<ImportHead, WantOfMemory>
    ensures { IfOk result (λ head. head ≡ import_head import.now) }
{
    Ok(ImportHead {
        at: import.at,
        path: Path {
            at: import.first.at,
            first: copy_text(alloc, &import.first.text)?,
            more: texts(alloc, import.more.slice())?,
        },
        on_demand: import.on_demand,
    })
}

pub fn import_heads(alloc: Global, imports: &[Import]) -> Result<Items<ImportHead>, WantOfMemory>
    ensures { IfOk result (λ list. list ≡ map import_head imports.now) }
{
    let mut list = Items::new(alloc);
    for import in imports {
        list.push(import_head(alloc, import)?)?;
    }
    Ok(list)
}

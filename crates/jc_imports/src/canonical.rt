//! Canonical names.
ghost use Rattle.std.specs.Prelude.{◌≡◌, ◌++◌, IfOk, codes};
ghost use Rattle.jc_declares.specs.Looking.{InPackage, next_part, imported};
ghost use Rattle.jc_name_index.specs.Index.{IsIndex};
ghost use Rattle.jc_imports.specs.Founds.{found_of};

use jc_declares::ImportHead;
use jc_name_index::Indexed;
use jc_rules::{Text, WantOfMemory};
use std::alloc::Global;

/// What a canonical name names so far: a package, which may have no types, a class by its number, or nothing.
#[derive(Drop)]
pub enum Found {
    InPackage(Text),
    AtClass(u64),
    Nowhere,
}

/// A longer package.
fn longer(alloc: Global, package: &Text, name: &Text) -> Result<Text, WantOfMemory>
    ensures { IfOk result (λ it. it ≡ «package».now ++ codes "." ++ name.now) }
{
    let mut text = String::from_str(alloc, package.str())?;
    text.push_str(".")?;
    text.push_str(name.str())?;
    Text::copied(alloc, text.as_str())
}

fn next_in_package(
    alloc: Global,
    declared: &Indexed,
    package: &Text,
    name: &Text,
) -> Result<Found, WantOfMemory>
    requires { IsIndex declared.now.heads.now declared.now.index.now }
    ensures { IfOk result (λ it. found_of it ≡ next_part declared.now.heads.now (InPackage «package».now) name.now) }
{
    match declared.type_of_package(package.str(), name.str()) {
        Some(class) => Ok(Found::AtClass(class)),
        None => Ok(Found::InPackage(longer(alloc, package, name)?)),
    }
}

/// What a further part names.
fn next_found(
    alloc: Global,
    declared: &Indexed,
    found: &Found,
    name: &Text,
) -> Result<Found, WantOfMemory>
    requires { IsIndex declared.now.heads.now declared.now.index.now }
    ensures { IfOk result (λ it. found_of it ≡ next_part declared.now.heads.now (found_of found.now) name.now) }
{
    match found {
        Found::InPackage(package) => next_in_package(alloc, declared, package, name),
        Found::AtClass(class) => match declared.member(*class, name.str()) {
            Some(member) => Ok(Found::AtClass(member)),
            None => Ok(Found::Nowhere),
        },
        Found::Nowhere => Ok(Found::Nowhere),
    }
}

/// What an import names: its first part is a package, since no type of the unnamed one can be imported (JLS 7.5).
pub fn imported(
    alloc: Global,
    declared: &Indexed,
    import: &ImportHead,
) -> Result<Found, WantOfMemory>
    requires { IsIndex declared.now.heads.now declared.now.index.now }
    ensures { IfOk result (λ it. found_of it ≡ imported declared.now.heads.now import.now) }
{
    let mut found = Found::InPackage(Text::copied(alloc, import.path.first.str())?);
    for name in import.path.more.slice() {
        found = next_found(alloc, declared, &found, name)?;
    }
    Ok(found)
}

//! The index of a program's heads.
ghost use Rattle.std.specs.Prelude.{◌≡◌, ℕ, List, [], slice_get, IfOk, OnOk};
ghost use Rattle.jc_name_index.specs.Spaces.{space_named, noted_as, noted_all};
ghost use Rattle.jc_name_index.specs.Index.{IsIndex, as_member, as_top, as_package, as_packaged, in_unit_package, package_number, as_class_variable, as_method_variable};

use crate::spaces::Spaces;
use jc_declares::{ClassHead, Heads, UnitHead, VariableHead};
use jc_rules::WantOfMemory;
use jc_types::Owner;
use std::alloc::Global;

/// The first place of each name: of the member types of classes, of the types of units, of packages, of the types of these, of the
/// type parameters of classes and of methods, each by its number. The one space of `packages` has their numbers.
#[derive(Drop)]
pub struct Index {
    pub members: Spaces,
    pub tops: Spaces,
    pub packages: Spaces,
    pub package_types: Spaces,
    pub class_variables: Spaces,
    pub method_variables: Spaces,
}

fn note_member(
    alloc: Global,
    spaces: &mut Spaces,
    class: &ClassHead,
    number: u64,
) -> Result<(), WantOfMemory>
    ensures { OnOk result (spaces.new ≡ noted_as (as_member class.now) number spaces.old) }
{
    match class.round.slice().first() {
        Some(outer) => spaces.note(alloc, *outer, &class.name, number),
        None => Ok(()),
    }
}

fn note_members(
    alloc: Global,
    spaces: &mut Spaces,
    classes: &[ClassHead],
) -> Result<(), WantOfMemory>
    ensures { OnOk result (spaces.new ≡ noted_all as_member 0 classes.now spaces.old) }
{
    for number in 0..classes.len() {
        note_member(alloc, spaces, &classes[number], number as u64)?;
    }
    Ok(())
}

fn note_top(
    alloc: Global,
    spaces: &mut Spaces,
    class: &ClassHead,
    number: u64,
) -> Result<(), WantOfMemory>
    ensures { OnOk result (spaces.new ≡ noted_as (as_top class.now) number spaces.old) }
{
    match class.round.slice().first() {
        Some(_) => Ok(()),
        None => spaces.note(alloc, class.unit, &class.name, number),
    }
}

fn note_tops(alloc: Global, spaces: &mut Spaces, classes: &[ClassHead]) -> Result<(), WantOfMemory>
    ensures { OnOk result (spaces.new ≡ noted_all as_top 0 classes.now spaces.old) }
{
    for number in 0..classes.len() {
        note_top(alloc, spaces, &classes[number], number as u64)?;
    }
    Ok(())
}

fn note_packages(alloc: Global, spaces: &mut Spaces, units: &[UnitHead]) -> Result<(), WantOfMemory>
    ensures { OnOk result (spaces.new ≡ noted_all as_package 0 units.now spaces.old) }
{
    for number in 0..units.len() {
        spaces.note(alloc, 0, &units[number].package, number as u64)?;
    }
    Ok(())
}

/// Notes a type in the package of its unit, by the number of that.
fn note_in_unit(
    alloc: Global,
    spaces: &mut Spaces,
    heads: &Heads,
    packages: &Spaces,
    class: &ClassHead,
    number: u64,
) -> Result<(), WantOfMemory>
    requires { (p : List ℕ) → space_named packages.now 0 p ≡ package_number heads.now p }
    ensures { OnOk result (spaces.new ≡ noted_as (in_unit_package heads.now (slice_get heads.now.units class.now.unit) class.now.name) number spaces.old) }
{
    let Some(unit) = heads.units.get(class.unit as usize) else {
        return Ok(());
    };
    match packages.find(0, unit.package.str()) {
        Some(space) => spaces.note(alloc, space, &class.name, number),
        None => Ok(()),
    }
}

fn note_packaged(
    alloc: Global,
    spaces: &mut Spaces,
    heads: &Heads,
    packages: &Spaces,
    class: &ClassHead,
    number: u64,
) -> Result<(), WantOfMemory>
    requires { (p : List ℕ) → space_named packages.now 0 p ≡ package_number heads.now p }
    ensures { OnOk result (spaces.new ≡ noted_as (as_packaged heads.now class.now) number spaces.old) }
{
    match class.round.slice().first() {
        Some(_) => Ok(()),
        None => note_in_unit(alloc, spaces, heads, packages, class, number),
    }
}

fn note_package_types(
    alloc: Global,
    spaces: &mut Spaces,
    heads: &Heads,
    packages: &Spaces,
    classes: &[ClassHead],
) -> Result<(), WantOfMemory>
    requires { (p : List ℕ) → space_named packages.now 0 p ≡ package_number heads.now p }
    ensures { OnOk result (spaces.new ≡ noted_all (as_packaged heads.now) 0 classes.now spaces.old) }
{
    for number in 0..classes.len() {
        note_packaged(
            alloc,
            spaces,
            heads,
            packages,
            &classes[number],
            number as u64,
        )?;
    }
    Ok(())
}

/// The packages of units with their numbers.
fn packages_of(alloc: Global, heads: &Heads) -> Result<Spaces, WantOfMemory>
    ensures { IfOk result (λ it. (p : List ℕ) → space_named it 0 p ≡ package_number heads.now p) }
{
    let mut packages = Spaces::new(alloc, 1)?;
    note_packages(alloc, &mut packages, heads.units.slice())?;
    Ok(packages)
}

fn note_class_variable(
    alloc: Global,
    spaces: &mut Spaces,
    variable: &VariableHead,
    number: u64,
) -> Result<(), WantOfMemory>
    ensures { OnOk result (spaces.new ≡ noted_as (as_class_variable variable.now) number spaces.old) }
{
    match variable.owner {
        Owner::Class(class) => spaces.note(alloc, class.0, &variable.name, number),
        Owner::Method(_) => Ok(()),
    }
}

fn note_class_variables(
    alloc: Global,
    spaces: &mut Spaces,
    variables: &[VariableHead],
) -> Result<(), WantOfMemory>
    ensures { OnOk result (spaces.new ≡ noted_all as_class_variable 0 variables.now spaces.old) }
{
    for number in 0..variables.len() {
        note_class_variable(alloc, spaces, &variables[number], number as u64)?;
    }
    Ok(())
}

fn note_method_variable(
    alloc: Global,
    spaces: &mut Spaces,
    variable: &VariableHead,
    number: u64,
) -> Result<(), WantOfMemory>
    ensures { OnOk result (spaces.new ≡ noted_as (as_method_variable variable.now) number spaces.old) }
{
    match variable.owner {
        Owner::Class(_) => Ok(()),
        Owner::Method(method) => spaces.note(alloc, method.0, &variable.name, number),
    }
}

fn note_method_variables(
    alloc: Global,
    spaces: &mut Spaces,
    variables: &[VariableHead],
) -> Result<(), WantOfMemory>
    ensures { OnOk result (spaces.new ≡ noted_all as_method_variable 0 variables.now spaces.old) }
{
    for number in 0..variables.len() {
        note_method_variable(alloc, spaces, &variables[number], number as u64)?;
    }
    Ok(())
}

/// The index of these heads.
pub fn index_of(alloc: Global, heads: &Heads) -> Result<Index, WantOfMemory>
    ensures { IfOk result (λ index. IsIndex heads.now index) }
{
    let mut members = Spaces::new(alloc, heads.classes.len())?;
    note_members(alloc, &mut members, heads.classes.slice())?;
    let mut tops = Spaces::new(alloc, heads.units.len())?;
    note_tops(alloc, &mut tops, heads.classes.slice())?;
    let packages = packages_of(alloc, heads)?;
    let mut package_types = Spaces::new(alloc, heads.units.len())?;
    note_package_types(
        alloc,
        &mut package_types,
        heads,
        &packages,
        heads.classes.slice(),
    )?;
    let mut class_variables = Spaces::new(alloc, heads.classes.len())?;
    note_class_variables(alloc, &mut class_variables, heads.variables.slice())?;
    let mut method_variables = Spaces::new(alloc, heads.methods.len())?;
    note_method_variables(alloc, &mut method_variables, heads.variables.slice())?;
    Ok(Index {
        members,
        tops,
        packages,
        package_types,
        class_variables,
        method_variables,
    })
}

//! What each class, unit and method declares, by numbers.
ghost use Rattle.std.specs.Prelude.{◌≡◌, [], IfOk, OnOk};
ghost use Rattle.jc_groups.specs.Groups.{grouped_as, grouped_all};
ghost use Rattle.jc_groups.specs.Members.{in_class, in_unit, of_class, field_of_class, variable_of_class, variable_of_method, AreMembers};

use crate::groups::Groups;
use jc_declares::{ClassHead, FieldHead, Heads, MethodPlace, VariableHead};
use jc_rules::WantOfMemory;
use jc_types::Owner;
use std::alloc::Global;

/// The member types of classes, the types of units, the methods and fields of classes, and the type parameters of classes and methods: of
/// each by its number those that it declares, in their order.
#[derive(Drop)]
pub struct Members {
    pub types: Groups,
    pub tops: Groups,
    pub methods: Groups,
    pub fields: Groups,
    pub class_variables: Groups,
    pub method_variables: Groups,
}

fn add_type(
    alloc: Global,
    groups: &mut Groups,
    class: &ClassHead,
    number: u64,
) -> Result<(), WantOfMemory>
    ensures { OnOk result (groups.new ≡ grouped_as (in_class class.now) number groups.old) }
{
    match class.round.slice().first() {
        Some(outer) => groups.add(alloc, *outer, number),
        None => Ok(()),
    }
}

fn types(alloc: Global, classes: &[ClassHead]) -> Result<Groups, WantOfMemory>
    ensures { IfOk result (λ it. it ≡ grouped_all in_class 0 classes.now []) }
{
    let mut groups = Groups::new(alloc);
    for number in 0..classes.len() {
        add_type(alloc, &mut groups, &classes[number], number as u64)?;
    }
    Ok(groups)
}

fn add_top(
    alloc: Global,
    groups: &mut Groups,
    class: &ClassHead,
    number: u64,
) -> Result<(), WantOfMemory>
    ensures { OnOk result (groups.new ≡ grouped_as (in_unit class.now) number groups.old) }
{
    match class.round.slice().first() {
        Some(_) => Ok(()),
        None => groups.add(alloc, class.unit, number),
    }
}

fn tops(alloc: Global, classes: &[ClassHead]) -> Result<Groups, WantOfMemory>
    ensures { IfOk result (λ it. it ≡ grouped_all in_unit 0 classes.now []) }
{
    let mut groups = Groups::new(alloc);
    for number in 0..classes.len() {
        add_top(alloc, &mut groups, &classes[number], number as u64)?;
    }
    Ok(groups)
}

fn methods(alloc: Global, places: &[MethodPlace]) -> Result<Groups, WantOfMemory>
    ensures { IfOk result (λ it. it ≡ grouped_all of_class 0 places.now []) }
{
    let mut groups = Groups::new(alloc);
    for number in 0..places.len() {
        groups.add(alloc, places[number].class, number as u64)?;
    }
    Ok(groups)
}

fn fields(alloc: Global, heads: &[FieldHead]) -> Result<Groups, WantOfMemory>
    ensures { IfOk result (λ it. it ≡ grouped_all field_of_class 0 heads.now []) }
{
    let mut groups = Groups::new(alloc);
    for number in 0..heads.len() {
        groups.add(alloc, heads[number].class, number as u64)?;
    }
    Ok(groups)
}

fn add_class_variable(
    alloc: Global,
    groups: &mut Groups,
    variable: &VariableHead,
    number: u64,
) -> Result<(), WantOfMemory>
    ensures { OnOk result (groups.new ≡ grouped_as (variable_of_class variable.now) number groups.old) }
{
    match variable.owner {
        Owner::Class(class) => groups.add(alloc, class.0, number),
        Owner::Method(_) => Ok(()),
    }
}

fn class_variables(alloc: Global, variables: &[VariableHead]) -> Result<Groups, WantOfMemory>
    ensures { IfOk result (λ it. it ≡ grouped_all variable_of_class 0 variables.now []) }
{
    let mut groups = Groups::new(alloc);
    for number in 0..variables.len() {
        add_class_variable(alloc, &mut groups, &variables[number], number as u64)?;
    }
    Ok(groups)
}

fn add_method_variable(
    alloc: Global,
    groups: &mut Groups,
    variable: &VariableHead,
    number: u64,
) -> Result<(), WantOfMemory>
    ensures { OnOk result (groups.new ≡ grouped_as (variable_of_method variable.now) number groups.old) }
{
    match variable.owner {
        Owner::Class(_) => Ok(()),
        Owner::Method(method) => groups.add(alloc, method.0, number),
    }
}

fn method_variables(alloc: Global, variables: &[VariableHead]) -> Result<Groups, WantOfMemory>
    ensures { IfOk result (λ it. it ≡ grouped_all variable_of_method 0 variables.now []) }
{
    let mut groups = Groups::new(alloc);
    for number in 0..variables.len() {
        add_method_variable(alloc, &mut groups, &variables[number], number as u64)?;
    }
    Ok(groups)
}

/// What the classes, units and methods of these heads declare.
#[tactic(auto, using(crate::proofs::Told::members_told))]
pub fn members_of(alloc: Global, heads: &Heads) -> Result<Members, WantOfMemory>
    ensures { IfOk result (λ it. AreMembers heads.now it) }
{
    let classes = heads.classes.slice();
    let variables = heads.variables.slice();
    Ok(Members {
        types: types(alloc, classes)?,
        tops: tops(alloc, classes)?,
        methods: methods(alloc, heads.methods.slice())?,
        fields: fields(alloc, heads.fields.slice())?,
        class_variables: class_variables(alloc, variables)?,
        method_variables: method_variables(alloc, variables)?,
    })
}

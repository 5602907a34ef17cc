//! Classes whose instructions are read once.
ghost use Rattle.std.specs.Prelude.{◌≡◌, IfOk};
ghost use Rattle.jc_machine.specs.Names.{placed_at};
ghost use Rattle.jc_machine.specs.Places.{places_of_code, places_of_methods, places_of_classes};

use crate::places::{CodePlaces, places};
use crate::rows::Placed;
use jc_class_out::{ClassModel, CodeModel, MethodModel};
use jc_rules::{Items, WantOfMemory};
use std::alloc::Global;
use std::marker::Model;

/// Classes, whose instructions are read once. Contracts see the list of the classes.
#[derive(Debug, Drop)]
pub struct Program {
    classes: Items<ClassModel>,
    places: Items<Items<CodePlaces>>,
}

impl Model for Program {
    ghost use Rattle.std.specs.Prelude.{◌≡◌, List};
    ghost use Rattle.jc_class_out.specs.declared.model.ClassModel.{ClassModel};
    ghost use Rattle.jc_machine.specs.Places.{places_of_classes};

    ghost Value = { List ClassModel };

    ghost view = { λ p. p.classes };

    ghost invariant = { λ p. p.places ≡ places_of_classes p.classes };
}

fn code_places(alloc: Global, code: &Option<CodeModel>) -> Result<CodePlaces, WantOfMemory>
    ensures { IfOk result (λ found. found ≡ places_of_code code.now) }
{
    match code {
        Some(code) => places(alloc, code.ins.slice()),
        None => Ok(Items::new(alloc)),
    }
}

fn method_places(alloc: Global, methods: &[MethodModel]) -> Result<Items<CodePlaces>, WantOfMemory>
    ensures { IfOk result (λ found. found ≡ places_of_methods methods.now) }
{
    let mut found = Items::new(alloc);
    for method in methods {
        found.push(code_places(alloc, &method.code)?)?;
    }
    Ok(found)
}

fn class_places(
    alloc: Global,
    classes: &[ClassModel],
) -> Result<Items<Items<CodePlaces>>, WantOfMemory>
    ensures { IfOk result (λ found. found ≡ places_of_classes classes.now) }
{
    let mut found = Items::new(alloc);
    for class in classes {
        found.push(method_places(alloc, class.methods.slice())?)?;
    }
    Ok(found)
}

impl Program {
    /// Reads the instructions of the classes.
    pub fn new(alloc: Global, classes: Items<ClassModel>) -> Result<Program, WantOfMemory>
        ensures { IfOk result (λ p. p ≡ classes) }
    {
        let places = class_places(alloc, classes.slice())?;
        Ok(Program { classes, places })
    }

    pub fn classes(&self) -> &[ClassModel]
        ensures { result.now ≡ self.now }
    {
        self.classes.slice()
    }

    /// The row at a byte offset of the method of this number in the class of that number.
    pub fn placed(&self, class: u64, method: u64, at: u32) -> Option<Placed>
        ensures { result ≡ placed_at self.now class method at }
    {
        let methods = self.places.get(class as usize)?;
        let places = methods.get(method as usize)?;
        let placed = places.get(at as usize)?;
        *placed
    }
}

//! Classes whose instructions are read once.
ghost use Rattle.std.specs.Prelude.{◌≡◌, IfOk};
ghost use Rattle.std.specs.Option.{option_copied};
ghost use Rattle.jc_rows.specs.Laid.{method_rows as rows_of_method, class_rows as rows_of_class, all_rows as rows_of_all, row_at};

use crate::Placed;
use crate::places::{CodePlaces, places};
use jc_calls::{code_of, methods_in};
use jc_class_out::ClassModel;
use jc_heap::{Classes, NamedClasses};
use jc_rules::{Items, WantOfMemory};
use std::alloc::Global;
use std::marker::Model;

/// Classes, whose instructions are read once. Contracts see the list of the classes.
#[derive(Drop)]
pub struct Program {
    classes: Classes,
    rows: Items<Items<CodePlaces>>,
}

impl Model for Program {
    ghost use Rattle.std.specs.Prelude.{◌≡◌, List};
    ghost use Rattle.jc_class_out.specs.declared.model.ClassModel.{ClassModel};
    ghost use Rattle.jc_rows.specs.Laid.{all_rows};

    ghost Value = { List ClassModel };

    ghost view = { λ p. p.classes };

    ghost invariant = { λ p. p.rows ≡ all_rows p.classes };
}

fn method_rows(
    alloc: Global,
    classes: &NamedClasses,
    class: u64,
    method: u64,
) -> Result<CodePlaces, WantOfMemory>
    ensures { IfOk result (λ found. found ≡ rows_of_method classes.now class method) }
{
    match code_of(classes.models(), class, method) {
        Some(code) => places(alloc, classes, class, method, code.ins.slice()),
        None => Ok(Items::new(alloc)),
    }
}

#[tactic(auto, using(crate::proofs::Ranges::method_rows_more))]
fn class_rows(
    alloc: Global,
    classes: &NamedClasses,
    class: u64,
) -> Result<Items<CodePlaces>, WantOfMemory>
    ensures { IfOk result (λ found. found ≡ rows_of_class classes.now class) }
{
    let mut found = Items::new(alloc);
    for method in 0..methods_in(classes.models(), class).len() {
        found.push(method_rows(alloc, classes, class, method as u64)?)?;
    }
    Ok(found)
}

#[tactic(auto, using(crate::proofs::Ranges::class_rows_more), unfolding(crate::specs::Laid::all_rows))]
fn all_rows(alloc: Global, classes: &NamedClasses) -> Result<Items<Items<CodePlaces>>, WantOfMemory>
    ensures { IfOk result (λ found. found ≡ rows_of_all classes.now) }
{
    let mut found = Items::new(alloc);
    for class in 0..classes.len() {
        found.push(class_rows(alloc, classes, class as u64)?)?;
    }
    Ok(found)
}

impl Program {
    /// Reads the instructions of the classes.
    pub fn of(alloc: Global, models: Items<ClassModel>) -> Result<Program, WantOfMemory>
        ensures { IfOk result (λ p. p ≡ models) }
    {
        let classes = Classes::of(alloc, models)?;
        let rows = all_rows(alloc, classes.named())?;
        Ok(Program { classes, rows })
    }

    pub fn classes(&self) -> &Classes
        ensures { result.now ≡ self.now }
    {
        &self.classes
    }

    /// The row at a byte offset of the method of this number in the class of that number.
    pub fn placed(&self, class: u64, method: u64, at: u32) -> Option<&Placed>
        ensures { option_copied result ≡ row_at self.now class method at }
    {
        let methods = self.rows.get(class as usize)?;
        let places = methods.get(method as usize)?;
        let placed = places.get(at as usize)?;
        placed.as_ref()
    }
}

//! Classes by their names.
ghost use Rattle.std.specs.Prelude.{◌≡◌, ℕ, List, IfOk, OnOk, length};
ghost use Rattle.std.specs.Option.{option_copied};
ghost use Rattle.jc_jvm.specs.Classes.{class_named};
ghost use Rattle.jc_frames_types.specs.Indexed.{AreNumbers, NamesMore};
ghost use Rattle.jc_frames_types.specs.Names.{class_by_name};

use jc_class_out::ClassModel;
use jc_jvm::Texts;
use jc_rules::WantOfMemory;
use std::alloc::Global;
use std::marker::Model;

/// The classes whose superclasses decide which types stand for which. They are found by their names without walking over them. Contracts
/// see the list of the classes.
#[derive(Drop)]
pub struct Supertypes<'a> {
    models: &'a [ClassModel],
    numbers: Texts,
}

impl<'a> Model for Supertypes<'a> {
    ghost use Rattle.std.specs.Prelude.{List};
    ghost use Rattle.jc_class_out.specs.declared.model.ClassModel.{ClassModel};
    ghost use Rattle.jc_frames_types.specs.Indexed.{AreNumbers};

    ghost Value = { List ClassModel };

    ghost view = { λ s. s.models.now };

    ghost invariant = { λ s. AreNumbers s.models.now s.numbers };
}

/// Adds a number for a name, unless it has one.
#[tactic(auto, using(crate::proofs::Numbering::name_rules))]
fn add_name(
    alloc: Global,
    numbers: &mut Texts,
    name: &[u16],
    number: u64,
) -> Result<(), WantOfMemory>
    ensures { OnOk result (NamesMore numbers.old numbers.new name.now number) }
{
    match numbers.find(name) {
        Some(_) => Ok(()),
        None => numbers.add(name.to_vec(alloc)?, number),
    }
}

#[tactic(auto, using(crate::proofs::Numbering::first_numbers))]
fn numbers_of(alloc: Global, classes: &[ClassModel]) -> Result<Texts, WantOfMemory>
    ensures { IfOk result (λ numbers. AreNumbers classes.now numbers) }
{
    let mut numbers = Texts::new(alloc);
    for (number, class) in classes.iter().enumerate() {
        add_name(alloc, &mut numbers, class.name.slice(), number as u64)?;
    }
    Ok(numbers)
}

impl<'a> Supertypes<'a> {
    pub fn of(alloc: Global, models: &'a [ClassModel]) -> Result<Supertypes<'a>, WantOfMemory>
        ensures { IfOk result (λ s. s ≡ models.now) }
    {
        let numbers = numbers_of(alloc, models)?;
        Ok(Supertypes { models, numbers })
    }

    pub fn count(&self) -> usize
        ensures { result ≡ length self.now }
    {
        self.models.len()
    }

    /// The first class of a name.
    #[tactic(auto, using(crate::proofs::Numbering::number_is))]
    pub fn named(&self, name: &[u16]) -> Option<&'a ClassModel>
        ensures { option_copied result ≡ class_by_name self.now name.now }
    {
        match self.numbers.find(name) {
            Some(number) => self.models.get(number as usize),
            None => None,
        }
    }
}

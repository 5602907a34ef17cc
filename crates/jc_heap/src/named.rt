//! Classes by their names.
ghost use Rattle.std.specs.Prelude.{◌≡◌, ℕ, List, IfOk, length, slice_get};
ghost use Rattle.std.specs.Option.{option_copied};
ghost use Rattle.jc_jvm.specs.Classes.{class_named as class_by_name};
ghost use Rattle.jc_heap.specs.Named.{AreNumbers};
ghost use Rattle.jc_heap.specs.Signatures.{joined, signature_of};

use crate::numbers::add_name;
use crate::signatures::signatures_of;
use jc_class_out::ClassModel;
use jc_jvm::Texts;
use jc_rules::{Items, WantOfMemory};
use std::alloc::Global;
use std::marker::Model;

/// Classes that are found by their names without walking over them, as are the numbers of names and descriptors of methods. Contracts see
/// the list of the classes.
#[derive(Drop)]
pub struct NamedClasses {
    models: Items<ClassModel>,
    numbers: Texts,
    signatures: Texts,
}

impl Model for NamedClasses {
    ghost use Rattle.std.specs.Prelude.{List};
    ghost use Rattle.jc_class_out.specs.declared.model.ClassModel.{ClassModel};
    ghost use Rattle.jc_heap.specs.Named.{AreNumbers};
    ghost use Rattle.jc_heap.specs.Signatures.{AreSignatures, all_methods};

    ghost Value = { List ClassModel };

    ghost view = { λ c. c.models };

    ghost invariant = { λ c. AreNumbers c.models c.numbers × AreSignatures (all_methods c.models) c.signatures };
}

#[tactic(auto, using(crate::proofs::Numbering::first_numbers))]
fn numbers_of(alloc: Global, classes: &[ClassModel]) -> Result<Texts, WantOfMemory>
    ensures { IfOk result (λ numbers. AreNumbers classes.now numbers) }
{
    let mut numbers = Texts::new(alloc);
    for (number, class) in classes.iter().enumerate() {
        add_name(alloc, &mut numbers, class.name.slice(), number as u64)?;
    }
    Ok(numbers)
}

impl NamedClasses {
    pub fn of(alloc: Global, models: Items<ClassModel>) -> Result<NamedClasses, WantOfMemory>
        ensures { IfOk result (λ c. c ≡ models) }
    {
        let numbers = numbers_of(alloc, models.slice())?;
        let signatures = signatures_of(alloc, models.slice())?;
        Ok(NamedClasses {
            models,
            numbers,
            signatures,
        })
    }

    pub fn models(&self) -> &[ClassModel]
        ensures { result.now ≡ self.now }
    {
        self.models.slice()
    }

    pub fn len(&self) -> usize
        ensures { result ≡ length self.now }
    {
        self.models.len()
    }

    pub fn get(&self, class: usize) -> Option<&ClassModel>
        ensures { option_copied result ≡ slice_get self.now class }
    {
        self.models.get(class)
    }

    /// The number that stands for a name and a descriptor, by the text of both.
    pub fn number_for(&self, text: &[u16]) -> Option<u64>
        ensures { (name descriptor : List ℕ) → text.now ≡ joined name descriptor → result ≡ signature_of self.now name descriptor }
    {
        self.signatures.find(text)
    }
}

/// The first class of a name.
#[tactic(auto, using(crate::proofs::Numbering::number_is))]
pub fn class_named(classes: &NamedClasses, name: &[u16]) -> Option<u64>
    ensures { result ≡ class_by_name classes.now name.now }
{
    classes.numbers.find(name)
}

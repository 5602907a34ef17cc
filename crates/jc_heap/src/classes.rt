//! Classes with their supertypes and fields, looked up once.
ghost use Rattle.std.specs.Prelude.{◌≡◌, IfOk, codes};
ghost use Rattle.jc_jvm.specs.Classes.{class_named as class_by_name, is_class_below as class_below, super_of};
ghost use Rattle.jc_jvm.specs.Thrown.{fault_class as class_of_fault};
ghost use Rattle.jc_jvm.specs.Types.{is_base_below as base_below, is_object as object_of, is_shape_below as shape_below, deeper, new_fields as fields_of_new};
ghost use Rattle.jc_heap.specs.Signatures.{all_numbers, selected_as};
ghost use Rattle.jc_heap.specs.Strings.{string_place};
ghost use Rattle.jc_heap.specs.Supers.{all_parents};

use crate::StringPlace;
use crate::above::above_all;
use crate::layouts::{find_string, zeros_of_all};
use crate::named::NamedClasses;
use crate::selection::numbers_of_all;
use crate::special::{SpecialClasses, find_special};
use crate::supers::{parents_of_all, supers_of_all};
use jc_class_out::ClassModel;
use jc_jvm::{Base, Fault, Shape, Value};
use jc_rules::{Items, WantOfMemory};
use jc_selecting::Selecting;
use std::alloc::Global;
use std::marker::Model;

/// Classes, whose supertypes and fields are looked up once. Contracts see the list of the classes.
#[derive(Drop)]
pub struct Classes {
    named: NamedClasses,
    parents: Items<Option<u64>>,
    above: Items<Items<u64>>,
    zeros: Items<Items<Value>>,
    string: Option<StringPlace>,
    special: SpecialClasses,
    selecting: Selecting,
}

impl Model for Classes {
    ghost use Rattle.std.specs.Prelude.{◌≡◌, List};
    ghost use Rattle.jc_class_out.specs.declared.model.ClassModel.{ClassModel};
    ghost use Rattle.jc_heap.specs.Above.{AllAbove};
    ghost use Rattle.jc_heap.specs.Layouts.{all_fields};
    ghost use Rattle.jc_heap.specs.Signatures.{all_numbers};
    ghost use Rattle.jc_heap.specs.Special.{AreSpecial};
    ghost use Rattle.jc_heap.specs.Strings.{string_place};
    ghost use Rattle.jc_heap.specs.Supers.{all_parents, all_supers};

    ghost Value = { List ClassModel };

    ghost view = { λ c. c.named };

    ghost invariant = { λ c. (c.parents ≡ all_parents c.named) × AllAbove (all_supers c.named) c.above × (c.zeros ≡ all_fields c.named) × (c.string ≡ string_place c.named) × AreSpecial c.named c.special × (c.selecting ≡ (all_parents c.named, all_numbers c.named)) };
}

impl Classes {
    /// Looks up what the classes say of each other.
    #[tactic(auto, using(crate::proofs::Closed::closed_supers))]
    pub fn of(alloc: Global, models: Items<ClassModel>) -> Result<Classes, WantOfMemory>
        ensures { IfOk result (λ c. c ≡ models) }
    {
        let named = NamedClasses::of(alloc, models)?;
        let parents = parents_of_all(alloc, &named)?;
        let supers = supers_of_all(alloc, &named)?;
        let above = above_all(alloc, supers.slice())?;
        let zeros = zeros_of_all(alloc, &named)?;
        let special = find_special(named.models());
        let string = find_string(alloc, &named)?;
        let selecting = selecting_of(alloc, &named)?;
        Ok(Classes {
            named,
            parents,
            above,
            zeros,
            string,
            special,
            selecting,
        })
    }

    pub fn models(&self) -> &[ClassModel]
        ensures { result.now ≡ self.now }
    {
        self.named.models()
    }

    /// The classes, which are found by their names.
    pub fn named(&self) -> &NamedClasses
        ensures { result.now ≡ self.now }
    {
        &self.named
    }

    /// The superclass of a class, where the classes have it.
    #[tactic(auto, using(crate::proofs::Closed::parent_rules))]
    pub fn superclass(&self, class: u64) -> Option<u64>
        ensures { result ≡ super_of self.now class }
    {
        match self.parents.get(class as usize) {
            Some(parent) => *parent,
            None => None,
        }
    }

    /// Whether a class or interface is another one or below it.
    #[tactic(auto, using(crate::proofs::Closed::below_rules))]
    pub fn is_class_below(&self, class: u64, wanted: u64) -> bool
        ensures { result ≡ class_below self.now class wanted }
    {
        match self.above.get(class as usize) {
            Some(above) => above.slice().contains(&wanted),
            None => self.named.len() > 0 && class == wanted,
        }
    }

    /// The values with which the fields of a new object begin.
    #[tactic(auto, using(crate::proofs::FieldLayouts::zeros_rules))]
    pub fn new_fields(&self, class: u64) -> &[Value]
        ensures { result.now ≡ fields_of_new self.now class }
    {
        match self.zeros.get(class as usize) {
            Some(zeros) => zeros.slice(),
            None => &[],
        }
    }

    /// Where strings are.
    pub fn string(&self) -> Option<StringPlace>
        ensures { result ≡ string_place self.now }
    {
        self.string
    }

    /// The class Object.
    pub fn object(&self) -> Option<u64>
        ensures { result ≡ class_by_name self.now (codes "java/lang/Object") }
    {
        self.special.object
    }

    /// The class of an exception that the machine makes.
    pub fn fault_class(&self, fault: Fault) -> Option<u64>
        ensures { result ≡ class_of_fault self.now fault }
    {
        match fault {
            Fault::Arithmetic => self.special.arithmetic,
            Fault::ArrayIndexOutOfBounds => self.special.array_index,
            Fault::ArrayStore => self.special.array_store,
            Fault::ClassCast => self.special.class_cast,
            Fault::ExceptionInInitializer => self.special.in_initializer,
            Fault::NegativeArraySize => self.special.negative_size,
            Fault::NoClassDefFound => self.special.no_class_def,
            Fault::NullPointer => self.special.null_pointer,
        }
    }

    /// The class Error.
    pub fn error(&self) -> Option<u64>
        ensures { result ≡ class_by_name self.now (codes "java/lang/Error") }
    {
        self.special.error
    }

    /// The class Throwable.
    pub fn throwable(&self) -> Option<u64>
        ensures { result ≡ class_by_name self.now (codes "java/lang/Throwable") }
    {
        self.special.throwable
    }

    /// The method that an object of a class selects by the number of a name and a descriptor.
    #[tactic(auto, using(crate::proofs::Signing::select_rules))]
    pub fn select(&self, class: u64, signature: Option<u64>) -> Option<(u64, u64)>
        ensures { result ≡ selected_as self.now signature class }
    {
        match signature {
            Some(number) => self.selecting.select(class, number),
            None => None,
        }
    }

    fn is_object(&self, base: Base) -> bool
        ensures { result ≡ object_of self.now base }
    {
        match (base, self.special.object) {
            (Base::Class(class), Some(object)) => class == object,
            _ => false,
        }
    }

    fn is_base_below(&self, base: Base, wanted: Base) -> bool
        ensures { result ≡ base_below self.now base wanted }
    {
        match (base, wanted) {
            (Base::Class(class), Base::Class(wanted)) => self.is_class_below(class, wanted),
            (Base::Boolean, Base::Boolean)
            | (Base::Char, Base::Char)
            | (Base::Byte, Base::Byte)
            | (Base::Short, Base::Short)
            | (Base::Int, Base::Int)
            | (Base::Long, Base::Long) => true,
            _ => false,
        }
    }

    /// Whether an array with elements of a type is of another type or below it.
    pub fn is_array_below(&self, of: Shape, wanted: Shape) -> bool
        ensures { result ≡ shape_below self.now (deeper of) wanted }
    {
        if wanted.dims > 0 && of.dims == wanted.dims - 1 {
            self.is_base_below(of.base, wanted.base)
        } else {
            wanted.dims <= of.dims && self.is_object(wanted.base)
        }
    }

    /// Whether a type is another one or below it.
    pub fn is_shape_below(&self, shape: Shape, wanted: Shape) -> bool
        ensures { result ≡ shape_below self.now shape wanted }
    {
        if shape.dims == wanted.dims {
            self.is_base_below(shape.base, wanted.base)
        } else {
            wanted.dims < shape.dims && self.is_object(wanted.base)
        }
    }
}

fn selecting_of(alloc: Global, classes: &NamedClasses) -> Result<Selecting, WantOfMemory>
    ensures { IfOk result (λ s. s ≡ (all_parents classes.now, all_numbers classes.now)) }
{
    let parents = parents_of_all(alloc, classes)?;
    let own = numbers_of_all(alloc, classes)?;
    Selecting::of(alloc, parents, own)
}

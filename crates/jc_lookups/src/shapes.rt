//! Types of objects and arrays by their names and descriptors (JVMS 4.3.2).
ghost use Rattle.std.specs.Prelude.{◌≡◌, ◌-◌, IfSome, length, take};
ghost use Rattle.std.specs.Option.{option_map};
ghost use Rattle.jc_jvm.specs.Classes.{class_named as class_by_name};
ghost use Rattle.jc_jvm.specs.Types.{primitive_of, shape_of_class, based, shape_of_descriptor, shape_named};
ghost use Rattle.jc_jvm.specs.Table.{type_of_code};
ghost use Rattle.jc_lookups.specs.Deepened.{deepened, bare_shape};

use jc_heap::{NamedClasses, class_named};
use jc_jvm::{Base, Shape};

fn primitive(unit: u16) -> Option<Base>
    ensures { result ≡ primitive_of unit }
{
    if unit == 90 {
        Some(Base::Boolean)
    } else if unit == 67 {
        Some(Base::Char)
    } else if unit == 66 {
        Some(Base::Byte)
    } else if unit == 83 {
        Some(Base::Short)
    } else if unit == 73 {
        Some(Base::Int)
    } else if unit == 74 {
        Some(Base::Long)
    } else {
        None
    }
}

fn plain_shape(base: Option<Base>) -> Option<Shape>
    ensures dims { IfSome result (λ s. s.dims ≡ 0) }
    ensures value { result ≡ option_map based base }
{
    match base {
        Some(base) => Some(Shape { base, dims: 0 }),
        None => None,
    }
}

fn class_shape(classes: &NamedClasses, name: &[u16]) -> Option<Shape>
    ensures dims { IfSome result (λ s. s.dims ≡ 0) }
    ensures value { result ≡ option_map shape_of_class (class_by_name classes.now name.now) }
{
    match class_named(classes, name) {
        Some(class) => Some(Shape {
            base: Base::Class(class),
            dims: 0,
        }),
        None => None,
    }
}

// With so many dimensions more.
fn wrapped(dims: usize, shape: Option<Shape>) -> Option<Shape>
    requires { IfSome shape (λ s. s.dims ≡ 0) }
    ensures { result ≡ deepened dims shape }
{
    match shape {
        Some(shape) => Some(Shape {
            base: shape.base,
            dims: shape.dims + dims as u64,
        }),
        None => None,
    }
}

fn without_last(units: &[u16]) -> &[u16]
    ensures { result.now ≡ take (length units.now - 1) units.now }
{
    if units.is_empty() {
        units
    } else {
        &units[..units.len() - 1]
    }
}

// The type of a descriptor that is no array's: its first unit, and what is behind.
fn shape_without_dims(classes: &NamedClasses, unit: u16, rest: &[u16]) -> Option<Shape>
    ensures value { result ≡ bare_shape classes.now unit rest.now }
    ensures dims { IfSome result (λ s. s.dims ≡ 0) }
{
    if unit == 76 {
        class_shape(classes, without_last(rest))
    } else {
        plain_shape(primitive(unit))
    }
}

/// The type of a field descriptor, where the classes have its class.
#[tactic(auto, using(crate::proofs::Depths::begins, crate::proofs::Depths::one_deeper, crate::proofs::Depths::bare_at, crate::proofs::Depths::no_element))]
pub fn shape_by_descriptor(classes: &NamedClasses, descriptor: &[u16]) -> Option<Shape>
    ensures { result ≡ shape_of_descriptor classes.now descriptor.now }
{
    for dims in 0..descriptor.len() {
        let unit = descriptor[dims];
        if unit != 91 {
            return wrapped(
                dims,
                shape_without_dims(classes, unit, &descriptor[dims + 1..]),
            );
        }
    }
    None
}

/// The class or array type that a name in an instruction means: arrays stand as descriptors.
pub fn shape_by_name(classes: &NamedClasses, name: &[u16]) -> Option<Shape>
    ensures { result ≡ shape_named classes.now name.now }
{
    match name {
        [] => None,
        [unit, ..] => {
            if *unit == 91 {
                shape_by_descriptor(classes, name)
            } else {
                class_shape(classes, name)
            }
        }
    }
}

/// The type of newarray's elements, by its code.
pub fn shape_by_code(code: i32) -> Option<Shape>
    ensures { result ≡ option_map based (type_of_code code) }
{
    match code {
        4 => plain_shape(Some(Base::Boolean)),
        5 => plain_shape(Some(Base::Char)),
        8 => plain_shape(Some(Base::Byte)),
        9 => plain_shape(Some(Base::Short)),
        10 => plain_shape(Some(Base::Int)),
        11 => plain_shape(Some(Base::Long)),
        _ => None,
    }
}

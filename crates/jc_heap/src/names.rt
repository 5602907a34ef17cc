//! What names and descriptors mean.
ghost use Rattle.std.specs.Prelude.{◌≡◌};
ghost use Rattle.std.specs.Str.{bytes_eq};
ghost use Rattle.jc_jvm.specs.Classes.{class_named as class_by_name, has_flag as flag_in};
ghost use Rattle.jc_jvm.specs.Types.{sort_of_descriptor, sort_of_base, sort_of_shape};

use jc_class_out::ClassModel;
use jc_jvm::{Base, Shape, Sort};

/// Whether flags have one.
pub fn has_flag(flag: u16, flags: u16) -> bool
    ensures { result ≡ flag_in flag flags }
{
    flags & flag != 0
}

/// Whether units spell a text of ASCII.
pub fn spells(units: &[u16], text: &str) -> bool
    ensures { result ≡ bytes_eq units.now text.now }
{
    let bytes = text.as_bytes();
    if units.len() != bytes.len() {
        return false;
    }
    for (i, unit) in units.iter().enumerate() {
        if *unit != u16::from(bytes[i]) {
            return false;
        }
    }
    true
}

/// The first class whose name is a text of ASCII.
pub fn class_spelled(classes: &[ClassModel], name: &str) -> Option<usize>
    ensures { result ≡ class_by_name classes.now name.now }
{
    classes
        .iter()
        .position(|class| spells(class.name.slice(), name))
}

/// The sort of a field's values, by its descriptor.
pub fn field_sort(descriptor: &[u16]) -> Sort
    ensures { result ≡ sort_of_descriptor descriptor.now }
{
    match descriptor {
        [] => Sort::WholeSort,
        [unit, ..] => {
            if *unit == 74 {
                Sort::LongSort
            } else if *unit == 76 || *unit == 91 {
                Sort::ReferenceSort
            } else {
                Sort::WholeSort
            }
        }
    }
}

fn base_sort(base: Base) -> Sort
    ensures { result ≡ sort_of_base base }
{
    match base {
        Base::Long => Sort::LongSort,
        Base::Class(_) => Sort::ReferenceSort,
        Base::Boolean | Base::Char | Base::Byte | Base::Short | Base::Int => Sort::WholeSort,
    }
}

/// The sort of the values of a type.
pub fn shape_sort(shape: Shape) -> Sort
    ensures { result ≡ sort_of_shape shape }
{
    if shape.dims == 0 {
        base_sort(shape.base)
    } else {
        Sort::ReferenceSort
    }
}

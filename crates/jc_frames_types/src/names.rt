//! Names of classes and of arrays (JVMS 4.2.1, 4.4.1).
ghost use Rattle.std.specs.Prelude.{◌≡◌, ◌-◌, ◌≤◌, IfOk, length, take, drop, codes};
ghost use Rattle.std.specs.Str.{bytes_eq};
ghost use Rattle.jc_frames_types.specs.Names.{is_object as is_object_name, is_array_name, is_above_arrays, class_in, dims_of as dims_by, array_of as array_by};

use jc_rules::{Items, WantOfMemory};
use std::alloc::Global;

static OBJECT: [u16; 16] = [
    106, 97, 118, 97, 47, 108, 97, 110, 103, 47, 79, 98, 106, 101, 99, 116,
];

static CLONEABLE: [u16; 19] = [
    106, 97, 118, 97, 47, 108, 97, 110, 103, 47, 67, 108, 111, 110, 101, 97, 98, 108, 101,
];

static SERIALIZABLE: [u16; 20] = [
    106, 97, 118, 97, 47, 105, 111, 47, 83, 101, 114, 105, 97, 108, 105, 122, 97, 98, 108, 101,
];

/// Whether it is the name of Object.
pub fn is_object(name: &[u16]) -> bool
    ensures { result ≡ is_object_name name.now }
{
    name == OBJECT.as_slice()
}

/// Whether every array is below the class of this name.
pub fn is_array_super(name: &[u16]) -> bool
    ensures { result ≡ is_above_arrays name.now }
{
    is_object(name) || (name == CLONEABLE.as_slice() || name == SERIALIZABLE.as_slice())
}

/// Whether the name means an array type.
pub fn names_array(name: &[u16]) -> bool
    ensures { result ≡ is_array_name name.now }
{
    match name {
        [] => false,
        [unit, ..] => *unit == 91,
    }
}

/// The class name behind the `L` of a descriptor.
pub fn class_part(units: &[u16]) -> &[u16]
    ensures { result.now ≡ class_in units.now }
{
    &units[..units.len().saturating_sub(1)]
}

/// How many dimensions the name has.
#[tactic(auto, unfolding(crate::specs::Names::dims_of))]
pub fn dims_of(name: &[u16]) -> usize
    ensures value { result ≡ dims_by name.now }
    ensures few { result ≤ length name.now }
{
    let mut rest = name;
    let mut dims = 0;
    while let [unit, behind @ ..] = rest {
        if *unit != 91 {
            return dims;
        }
        dims += 1;
        rest = behind;
    }
    dims
}

/// The name of the array type whose elements are of this class or array type.
pub fn array_of(alloc: Global, name: &[u16]) -> Result<Items<u16>, WantOfMemory>
    ensures { IfOk result (λ text. text ≡ array_by name.now) }
{
    let mut text = Items::new(alloc);
    text.push(91)?;
    let whole = Items::of(name.to_vec(alloc)?);
    if names_array(name) {
        text.append(whole)?;
        return Ok(text);
    }
    text.push(76)?;
    text.append(whole)?;
    text.push(59)?;
    Ok(text)
}

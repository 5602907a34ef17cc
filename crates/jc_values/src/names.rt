//! The names of classes as `Class.getName` gives them.
ghost use Rattle.std.specs.Prelude.{◌≡◌, ◌++◌, IfOk, OnOk, replicate, string_bytes};
ghost use Rattle.std.specs.Char.Escape.{encode_utf16};
ghost use Rattle.std.specs.List.{flat_map};
ghost use Rattle.std.specs.Str.{chars};
ghost use Rattle.jc_heaps.specs.Making.{units_of_text};
ghost use Rattle.jc_meaning.specs.Natives.{element_name, letter_of, name_of, plain_name};

use jc_rules::{Items, WantOfMemory};
use jc_types::{Base, Erased, Primitive, Table, class_binary};
use std::alloc::Global;

fn letter_of(p: Primitive) -> &'static str
    ensures { result.now ≡ letter_of p }
{
    match p {
        Primitive::Boolean => "Z",
        Primitive::Byte => "B",
        Primitive::Short => "S",
        Primitive::Char => "C",
        Primitive::Int => "I",
        Primitive::Long => "J",
    }
}

fn add(out: &mut String, text: &str) -> Result<(), WantOfMemory>
    ensures { OnOk result (string_bytes out.new ≡ string_bytes out.old ++ text.now) }
{
    out.push_str(text)?;
    Ok(())
}

fn add_element_name(table: &Table, out: &mut String, base: Base) -> Result<(), WantOfMemory>
    ensures { OnOk result (string_bytes out.new ≡ string_bytes out.old ++ element_name table.now base) }
{
    match base {
        Base::Prim(p) => add(out, letter_of(p)),
        Base::Class(k) => {
            add(out, "L")?;
            add(out, class_binary(table, k))?;
            add(out, ";")
        }
        Base::NullTy => Ok(()),
    }
}

fn add_plain_name(table: &Table, out: &mut String, base: Base) -> Result<(), WantOfMemory>
    ensures { OnOk result (string_bytes out.new ≡ string_bytes out.old ++ plain_name table.now base) }
{
    match base {
        Base::Class(k) => add(out, class_binary(table, k)),
        Base::Prim(_) => Ok(()),
        Base::NullTy => Ok(()),
    }
}

fn brackets(alloc: Global, count: u32) -> Result<String, WantOfMemory>
    ensures { IfOk result (λ r. string_bytes r ≡ replicate count 91) }
{
    let mut out = String::new(alloc);
    for i in 0..count {
        add(&mut out, "[")?;
    }
    Ok(out)
}

/// The binary name of a class with dots (JLS 13.1), and that of an array class by its dimensions and elements.
pub fn name_of(alloc: Global, table: &Table, e: Erased) -> Result<String, WantOfMemory>
    ensures { IfOk result (λ r. string_bytes r ≡ name_of table.now e) }
{
    let mut out = brackets(alloc, e.dims)?;
    if e.dims == 0 {
        add_plain_name(table, &mut out, e.base)?;
    } else {
        add_element_name(table, &mut out, e.base)?;
    }
    Ok(out)
}

fn encoded(alloc: Global, text: &[char]) -> Result<Items<u16>, WantOfMemory>
    ensures { IfOk result (λ r. r ≡ flat_map encode_utf16 text.now) }
{
    let mut found = Vec::new(alloc);
    for c in text {
        let mut pair = [0u16; 2];
        found.extend_from_slice(c.encode_utf16(&mut pair))?;
    }
    Ok(Items::of(found))
}

#[tactic(auto, using(crate::proofs::Texts::map_same))]
fn chars_of(alloc: Global, text: &str) -> Result<Vec<char>, WantOfMemory>
    ensures { IfOk result (λ r. r.items ≡ chars text.now) }
{
    let found = text.chars().map(|c| c).collect(alloc)?;
    Ok(found)
}

/// The UTF-16 units of a text (JLS 3.1).
pub fn units_of(alloc: Global, text: &str) -> Result<Items<u16>, WantOfMemory>
    ensures { IfOk result (λ r. r ≡ units_of_text text.now) }
{
    let chars = chars_of(alloc, text)?;
    encoded(alloc, &chars)
}

//! The constant pool that a class is written with (JVMS 4.4).
ghost use Rattle.std.specs.Prelude.{◌≡◌, ◌++◌, ◌∷◌, [], OnOk};
ghost use Rattle.std.specs.Int.{w32, w64, to_be_bytes, cast_unsigned};
ghost use Rattle.jc_class_out.specs.Pool.{KnownText};
ghost use Rattle.jc_class_out.specs.Spelling.{knowns, known, add, number, index, spell_entry, spell_text, spell_member_entry, spell_pool, spell_head};

use crate::Constant;
use crate::texts::put_units;
use crate::writing::{put_count, put_index, put_u8, put_u16, put_u32, put_u64};
use indexmap::IndexSet;
use jc_rules::WantOfMemory;
use std::alloc::Global;

/// The major version of the format (JVMS 4.1): Java SE 7.
const MAJOR: u16 = 51;

/// The constants of a pool, each once; the index and 1 is the number.
pub type Pool<'a> = IndexSet<Constant<'a>>;

pub static CODE: [u16; 4] = [67, 111, 100, 101];

pub static STACK_MAP_TABLE: [u16; 13] = [83, 116, 97, 99, 107, 77, 97, 112, 84, 97, 98, 108, 101];

pub static INNER_CLASSES: [u16; 12] = [73, 110, 110, 101, 114, 67, 108, 97, 115, 115, 101, 115];

#[tactic(auto, unfolding(crate::specs::Spelling::number))]
pub fn number<'a>(pool: &Pool<'a>, wanted: Constant<'a>) -> u16
    ensures { result ≡ number (knowns pool.now.keys) (known wanted.entry) }
{
    match pool.get_index_of(&wanted) {
        Some(place) if place < 65535 => place as u16 + 1,
        _ => 0,
    }
}

/// Adds the constant where it isn't there.
#[tactic(auto, unfolding(crate::specs::Spelling::has))]
pub fn intern<'a>(pool: &mut Pool<'a>, wanted: Constant<'a>) -> Result<(), WantOfMemory>
    ensures { OnOk result (knowns pool.new.keys ≡ add (knowns pool.old.keys) (known wanted.entry)) }
{
    pool.insert_full(wanted)?;
    Ok(())
}

#[tactic(auto, unfolding(crate::specs::Spelling::spell_text))]
fn put_text(alloc: Global, out: &mut Vec<u8>, text: &[u16]) -> Result<(), WantOfMemory>
    ensures { OnOk result (out.new.items ≡ out.old.items ++ spell_text text.now) }
{
    let mut bytes = Vec::new(alloc);
    put_units(&mut bytes, text)?;
    put_u8(out, 1)?;
    put_count(out, bytes.len())?;
    out.extend_from_slice(&bytes)?;
    Ok(())
}

#[tactic(auto, unfolding(crate::specs::Spelling::spell_member_entry))]
fn put_member_entry<'a>(
    out: &mut Vec<u8>,
    pool: &Pool<'a>,
    tag: u8,
    class: &'a [u16],
    name: &'a [u16],
    descriptor: &'a [u16],
) -> Result<(), WantOfMemory>
    ensures { OnOk result (out.new.items ≡ out.old.items ++ spell_member_entry (knowns pool.now.keys) tag class.now name.now descriptor.now) }
{
    put_u8(out, tag)?;
    put_index(out, pool, Constant::Class(class))?;
    put_index(out, pool, Constant::Pair(name, descriptor))?;
    Ok(())
}

fn put_naming_entry<'a>(
    out: &mut Vec<u8>,
    pool: &Pool<'a>,
    tag: u8,
    text: &'a [u16],
) -> Result<(), WantOfMemory>
    ensures { OnOk result (out.new.items ≡ out.old.items ++ tag ∷ index (knowns pool.now.keys) (KnownText text.now)) }
{
    put_u8(out, tag)?;
    put_index(out, pool, Constant::Text(text))?;
    Ok(())
}

fn put_pair_entry<'a>(
    out: &mut Vec<u8>,
    pool: &Pool<'a>,
    name: &'a [u16],
    descriptor: &'a [u16],
) -> Result<(), WantOfMemory>
    ensures { OnOk result (out.new.items ≡ out.old.items ++ 12 ∷ (index (knowns pool.now.keys) (KnownText name.now) ++ index (knowns pool.now.keys) (KnownText descriptor.now))) }
{
    put_u8(out, 12)?;
    put_index(out, pool, Constant::Text(name))?;
    put_index(out, pool, Constant::Text(descriptor))?;
    Ok(())
}

fn put_whole(out: &mut Vec<u8>, n: i32) -> Result<(), WantOfMemory>
    ensures { OnOk result (out.new.items ≡ out.old.items ++ 3 ∷ to_be_bytes w32 (cast_unsigned w32 n)) }
{
    put_u8(out, 3)?;
    put_u32(out, n.cast_unsigned())?;
    Ok(())
}

fn put_long(out: &mut Vec<u8>, n: i64) -> Result<(), WantOfMemory>
    ensures { OnOk result (out.new.items ≡ out.old.items ++ 5 ∷ to_be_bytes w64 (cast_unsigned w64 n)) }
{
    put_u8(out, 5)?;
    put_u64(out, n.cast_unsigned())?;
    Ok(())
}

#[tactic(auto, unfolding(crate::specs::Spelling::spell_entry))]
fn put_entry<'a>(
    alloc: Global,
    out: &mut Vec<u8>,
    pool: &Pool<'a>,
    constant: &Constant<'a>,
) -> Result<(), WantOfMemory>
    ensures { OnOk result (out.new.items ≡ out.old.items ++ spell_entry (knowns pool.now.keys) (known constant.now)) }
{
    match *constant {
        Constant::Text(text) => put_text(alloc, out, text),
        Constant::Whole(n) => put_whole(out, n),
        Constant::Long(n) => put_long(out, n),
        Constant::Behind(_) => Ok(()),
        Constant::Class(name) => put_naming_entry(out, pool, 7, name),
        Constant::Literal(text) => put_naming_entry(out, pool, 8, text),
        Constant::Field {
            class,
            name,
            descriptor,
        } => put_member_entry(out, pool, 9, class, name, descriptor),
        Constant::Method {
            class,
            name,
            descriptor,
        } => put_member_entry(out, pool, 10, class, name, descriptor),
        Constant::Interface {
            class,
            name,
            descriptor,
        } => put_member_entry(out, pool, 11, class, name, descriptor),
        Constant::Pair(name, descriptor) => put_pair_entry(out, pool, name, descriptor),
    }
}

#[tactic(auto, unfolding(crate::specs::Spelling::spell_pool))]
fn put_pool<'a>(alloc: Global, out: &mut Vec<u8>, pool: &Pool<'a>) -> Result<(), WantOfMemory>
    ensures { OnOk result (out.new.items ≡ out.old.items ++ spell_pool (knowns pool.now.keys)) }
{
    put_count(out, pool.len() + 1)?;
    for constant in pool {
        put_entry(alloc, out, pool, constant)?;
    }
    Ok(())
}

/// The file up to the end of the pool.
#[tactic(auto, unfolding(crate::specs::Spelling::spell_head))]
pub fn put_head<'a>(alloc: Global, out: &mut Vec<u8>, pool: &Pool<'a>) -> Result<(), WantOfMemory>
    ensures { OnOk result (out.new.items ≡ out.old.items ++ spell_head (knowns pool.now.keys)) }
{
    put_u32(out, 0xCAFE_BABE)?;
    put_u16(out, 0)?;
    put_u16(out, MAJOR)?;
    put_pool(alloc, out, pool)?;
    Ok(())
}

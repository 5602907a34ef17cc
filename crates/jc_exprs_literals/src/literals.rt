//! Literals (JLS 3.10, 15.8.1).
ghost use Rattle.std.specs.Prelude.{◌≡◌, ◌<◌, ◌^◌, [], length, pos, IfOk, OnOk};
ghost use Rattle.std.specs.Int.{cast_signed, w32};
ghost use Rattle.jc_types.specs.declared.constant.Constant.TheVariants as constant;
ghost use Rattle.jc_types.specs.declared.form.Primitive.TheVariants.{Boolean, Char};
ghost use Rattle.jc_types.specs.declared.form.Ty.TheVariants.{NullTy};
ghost use Rattle.jc_typed.specs.Parts.{Grows};
ghost use Rattle.jc_typed.specs.Trees.{Null};
ghost use Rattle.jc_exprs_nodes_spec.specs.Told.{fine, ran};
ghost use Rattle.jc_exprs_nodes_spec.specs.Typeds.{fixed, node};
ghost use Rattle.jc_exprs_parts_spec.specs.Operators.{string_type};
ghost use Rattle.jc_exprs_spec.specs.Typing.{negated_number, number, truth, whole_fixed};
ghost use Rattle.jc_exprs_nodes.specs.Walks.{has, now};

use crate::pushing::push_fixed;
use jc_exprs_nodes::{Walk, broken, uncaptured};
use jc_rules::{Items, Place, WantOfMemory};
use jc_typed::ExprForm;
use jc_types::{Constant, Primitive, Table, Ty, class_named};
use std::alloc::Global;

/// A number as a literal writes it: its digits' value, whether an `L` stands behind it, and whether it is decimal.
#[derive(Clone, Copy, Debug)]
pub struct WrittenNumber {
    pub value: u64,
    pub is_long: bool,
    pub is_decimal: bool,
}

// A whole value of a primitive type.
fn whole(walk: &mut Walk, place: Place, value: i64, of: Primitive) -> Result<u32, WantOfMemory>
    ensures state { OnOk result ((ran (fine (whole_fixed place (constant.Whole value of))) (now walk.old)).state ≡ now walk.new) }
    ensures value { IfOk result (λ at. (ran (fine (whole_fixed place (constant.Whole value of))) (now walk.old)).has ≡ has walk.new.nodes at) }
    ensures within { IfOk result (λ at. at < length walk.new.nodes) }
    ensures grows { Grows walk.old.nodes walk.new.nodes }
{
    push_fixed(walk, place, Ty::Prim(of), Constant::Whole { value, of })
}

// The low 32 bits of a value as a number.
fn low_bits(value: u64) -> i64
    requires { value < 2 ^ 32 }
    ensures { result ≡ cast_signed w32 value }
{
    i64::from((value as u32).cast_signed())
}

/// A number: a decimal one is no negative number, and one of another base stands for bits; 601 where it is out of range.
pub fn number_literal(
    walk: &mut Walk,
    place: Place,
    written: WrittenNumber,
) -> Result<u32, WantOfMemory>
    ensures state { OnOk result ((ran (number place written.value written.is_long written.is_decimal) (now walk.old)).state ≡ now walk.new) }
    ensures value { IfOk result (λ at. (ran (number place written.value written.is_long written.is_decimal) (now walk.old)).has ≡ has walk.new.nodes at) }
    ensures within { IfOk result (λ at. at < length walk.new.nodes) }
    ensures grows { Grows walk.old.nodes walk.new.nodes }
{
    match (written.is_long, written.is_decimal) {
        (true, true) if written.value < 9223372036854775808 => {
            whole(walk, place, written.value as i64, Primitive::Long)
        }
        (true, false) => whole(walk, place, written.value.cast_signed(), Primitive::Long),
        (false, true) if written.value < 2147483648 => {
            whole(walk, place, written.value as i64, Primitive::Int)
        }
        (false, false) if written.value < 4294967296 => {
            whole(walk, place, low_bits(written.value), Primitive::Int)
        }
        _ => broken(walk, 601, place),
    }
}

/// The same behind a minus, where the greatest decimal number is one more.
pub fn negated_number(
    walk: &mut Walk,
    place: Place,
    written: WrittenNumber,
) -> Result<u32, WantOfMemory>
    ensures state { OnOk result ((ran (negated_number place written.value written.is_long written.is_decimal) (now walk.old)).state ≡ now walk.new) }
    ensures value { IfOk result (λ at. (ran (negated_number place written.value written.is_long written.is_decimal) (now walk.old)).has ≡ has walk.new.nodes at) }
    ensures within { IfOk result (λ at. at < length walk.new.nodes) }
    ensures grows { Grows walk.old.nodes walk.new.nodes }
{
    if !written.is_decimal {
        return number_literal(walk, place, written);
    }
    if written.is_long {
        return match written.value <= 9223372036854775808 {
            true => whole(walk, place, written.value.cast_signed(), Primitive::Long),
            false => broken(walk, 601, place),
        };
    }
    match written.value <= 2147483648 {
        true => whole(walk, place, low_bits(written.value), Primitive::Int),
        false => broken(walk, 601, place),
    }
}

/// A character.
pub fn char_literal(walk: &mut Walk, place: Place, unit: u16) -> Result<u32, WantOfMemory>
    ensures state { OnOk result ((ran (fine (whole_fixed place (constant.Whole (pos unit) Char))) (now walk.old)).state ≡ now walk.new) }
    ensures value { IfOk result (λ at. (ran (fine (whole_fixed place (constant.Whole (pos unit) Char))) (now walk.old)).has ≡ has walk.new.nodes at) }
    ensures within { IfOk result (λ at. at < length walk.new.nodes) }
    ensures grows { Grows walk.old.nodes walk.new.nodes }
{
    whole(walk, place, i64::from(unit), Primitive::Char)
}

/// `true` or `false`.
pub fn boolean_literal(walk: &mut Walk, place: Place, value: bool) -> Result<u32, WantOfMemory>
    ensures state { OnOk result ((ran (fine (whole_fixed place (constant.Whole (truth value) Boolean))) (now walk.old)).state ≡ now walk.new) }
    ensures value { IfOk result (λ at. (ran (fine (whole_fixed place (constant.Whole (truth value) Boolean))) (now walk.old)).has ≡ has walk.new.nodes at) }
    ensures within { IfOk result (λ at. at < length walk.new.nodes) }
    ensures grows { Grows walk.old.nodes walk.new.nodes }
{
    match value {
        true => whole(walk, place, 1, Primitive::Boolean),
        false => whole(walk, place, 0, Primitive::Boolean),
    }
}

/// A string, by its UTF-16 units.
pub fn text_literal(
    alloc: Global,
    table: &Table,
    walk: &mut Walk,
    place: Place,
    units: &[u16],
) -> Result<u32, WantOfMemory>
    ensures state { OnOk result ((ran (fine (fixed place (string_type table.now) (record { value = constant.Text units.now; named = []; casts = [] }))) (now walk.old)).state ≡ now walk.new) }
    ensures value { IfOk result (λ at. (ran (fine (fixed place (string_type table.now) (record { value = constant.Text units.now; named = []; casts = [] }))) (now walk.old)).has ≡ has walk.new.nodes at) }
    ensures within { IfOk result (λ at. at < length walk.new.nodes) }
    ensures grows { Grows walk.old.nodes walk.new.nodes }
{
    let ty = Ty::Class {
        id: class_named(table, "java.lang.String"),
        args: Items::new(alloc),
    };
    let text = Constant::Text(Items::of(units.to_vec(alloc)?));
    push_fixed(walk, place, ty, text)
}

/// `null`.
#[tactic(auto, using(jc_typed::proofs::Growing::growing))]
pub fn null_literal(walk: &mut Walk, place: Place) -> Result<u32, WantOfMemory>
    ensures state { OnOk result ((ran (fine (node place NullTy Null)) (now walk.old)).state ≡ now walk.new) }
    ensures value { IfOk result (λ at. (ran (fine (node place NullTy Null)) (now walk.old)).has ≡ has walk.new.nodes at) }
    ensures within { IfOk result (λ at. at < length walk.new.nodes) }
    ensures grows { Grows walk.old.nodes walk.new.nodes }
{
    let ty = walk.nodes.push_type(Ty::NullTy)?;
    uncaptured(walk, place, ty, ExprForm::Null)
}

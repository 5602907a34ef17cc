//! Literals (JLS 3.10, 15.8.1).
ghost use Rattle.std.specs.Prelude.{◌≡◌, ◌<◌, length, IfOk, OnOk};
ghost use Rattle.jc_typed.specs.Parts.{Grows};
ghost use Rattle.jc_exprs_nodes_spec.specs.Told.{ran};
ghost use Rattle.jc_exprs_spec.specs.Typing.{literal_value, negated_literal};
ghost use Rattle.jc_exprs_nodes.specs.Walks.{has, now};
ghost use Rattle.jc_exprs_worlds.specs.Scenes.{world_of};

use jc_exprs_literals::{
    WrittenNumber, boolean_literal, char_literal, negated_number, null_literal, number_literal,
    text_literal,
};
use jc_exprs_nodes::Walk;
use jc_exprs_worlds::Scene;
use jc_rules::{Place, WantOfMemory};
use jc_tree::Literal;
use std::alloc::Global;

/// A literal.
#[tactic(auto, unfolding(jc_exprs_worlds::specs::Scenes::world_of))]
pub fn literal(
    alloc: Global,
    scene: &Scene,
    walk: &mut Walk,
    place: Place,
    value: &Literal,
) -> Result<u32, WantOfMemory>
    ensures state { OnOk result ((ran (literal_value (world_of scene.now) place value.now) (now walk.old)).state ≡ now walk.new) }
    ensures value { IfOk result (λ at. (ran (literal_value (world_of scene.now) place value.now) (now walk.old)).has ≡ has walk.new.nodes at) }
    ensures within { IfOk result (λ at. at < length walk.new.nodes) }
    ensures grows { Grows walk.old.nodes walk.new.nodes }
{
    match value {
        Literal::Number {
            value,
            long,
            decimal,
        } => {
            let number = WrittenNumber {
                value: *value,
                is_long: *long,
                is_decimal: *decimal,
            };
            number_literal(walk, place, number)
        }
        Literal::Char(unit) => char_literal(walk, place, *unit),
        Literal::String(units) => text_literal(alloc, scene.table, walk, place, units.slice()),
        Literal::Boolean(value) => boolean_literal(walk, place, *value),
        Literal::Null => null_literal(walk, place),
    }
}

/// A literal at which a minus stands.
#[tactic(auto, unfolding(jc_exprs_worlds::specs::Scenes::world_of))]
pub fn negated_literal(
    alloc: Global,
    scene: &Scene,
    walk: &mut Walk,
    place: Place,
    value: &Literal,
) -> Result<u32, WantOfMemory>
    ensures state { OnOk result ((ran (negated_literal (world_of scene.now) place value.now) (now walk.old)).state ≡ now walk.new) }
    ensures value { IfOk result (λ at. (ran (negated_literal (world_of scene.now) place value.now) (now walk.old)).has ≡ has walk.new.nodes at) }
    ensures within { IfOk result (λ at. at < length walk.new.nodes) }
    ensures grows { Grows walk.old.nodes walk.new.nodes }
{
    match value {
        Literal::Number {
            value,
            long,
            decimal,
        } => {
            let number = WrittenNumber {
                value: *value,
                is_long: *long,
                is_decimal: *decimal,
            };
            negated_number(walk, place, number)
        }
        _ => literal(alloc, scene, walk, place, value),
    }
}

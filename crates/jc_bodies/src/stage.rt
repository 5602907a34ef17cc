//! All that is asked of the bodies of a program.
ghost use Rattle.std.specs.Prelude.{IfErr, IfOk};
ghost use Rattle.jc_looking.specs.Members.{known_in};
ghost use Rattle.jc_looking.specs.Scenes.{IsScene};
ghost use Rattle.jc_bodies.specs.Typed.{AreTyped, IsBodiesStop};

use crate::checking::{Typing, check_all};
use crate::gathering::bodies_of;
use crate::ordering::in_order;
use jc_declares::SourceUnit;
use jc_exprs_known_fields::{Program as Fields, constants_of};
use jc_looking::Scene;
use jc_members::method_index;
use jc_rules::{Items, Refusal, Stop};
use jc_stmts::Program;
use jc_typed::TypedMethod;
use jc_types::Table;
use std::alloc::Global;

/// The methods of a program with the typing of their bodies, in the order of the table, or the least of the rules (601 to 626) that are broken in the bodies of all
/// units, by file, offset and number.
pub fn type_bodies<'a>(
    alloc: Global,
    table: &'a Table,
    names: Scene<'a>,
    units: &[SourceUnit],
) -> Result<Items<TypedMethod>, Stop<Refusal>>
    requires { IsScene names.declared.heads.now names.declared.index.now names.imports.now }
    ensures typed { IfOk result (λ ms. AreTyped table.now names.entry.declared.heads.now (known_in names.entry.known.now) units.now ms) }
    ensures refused { IfErr result (λ stop. IsBodiesStop table.now names.entry.declared.heads.now (known_in names.entry.known.now) units.now stop) }
{
    let bodies = bodies_of(alloc, table, names.declared.heads, units)?;
    let constants = constants_of(alloc, &Fields { table, names })?;
    let index = method_index(alloc, table)?;
    let program = Program {
        table,
        names,
        constants: constants.slice(),
        index: &index,
    };
    let Typing { found, slots } = check_all(alloc, &program, bodies.slice())?;
    match found {
        Some(refusal) => Err(Stop::Refused(refusal)),
        None => Ok(in_order(alloc, &program, slots)?),
    }
}

//! Type parameters that depend on themselves (JLS 8.1.2).
ghost use Rattle.std.specs.Prelude.{◌≡◌, ◌++◌, IfOk, OnOk};
ghost use Rattle.jc_types.specs.declared.form.Ty.{out-Ty};
ghost use Rattle.jc_components.specs.Marks.{is_marked};
ghost use Rattle.jc_type_rules.specs.Depending.{AreDepending, rows_below, variable_below, variables_below};

use jc_components::on_cycles;
use jc_rules::{Items, WantOfMemory};
use jc_types::{Table, Ty, VarId, declared_bounds};
use std::alloc::Global;

// Adds the number of a type variable, where it is below `count`.
#[tactic(auto, using(jc_types::proofs::Opened::opened))]
fn push_variable(t: &Ty, count: u64, out: &mut Items<u64>) -> Result<(), WantOfMemory>
    ensures { OnOk result (out.new ≡ out.old ++ variable_below count (out-Ty t.now)) }
{
    match t {
        Ty::Variable(v) => {
            if v.0 < count {
                return out.push(v.0);
            }
            Ok(())
        }
        Ty::Prim(_) => Ok(()),
        Ty::Class { .. } => Ok(()),
        Ty::Raw { .. } => Ok(()),
        Ty::Array { .. } => Ok(()),
        Ty::Captured(_) => Ok(()),
        Ty::Meet { .. } => Ok(()),
        Ty::NullTy => Ok(()),
    }
}

// The numbers below `count` of the type variables among these bounds.
fn variables_below(alloc: Global, bounds: &[Ty], count: u64) -> Result<Items<u64>, WantOfMemory>
    ensures { IfOk result (λ r. r ≡ variables_below count bounds.now) }
{
    let mut out = Items::new(alloc);
    let mut rest = bounds;
    while let [t, more @ ..] = rest {
        push_variable(t, count, &mut out)?;
        rest = more;
    }
    Ok(out)
}

// The type variables that are bounds of each type variable.
#[tactic(auto, using(crate::proofs::Rowed::row_pushed))]
fn rows(alloc: Global, table: &Table, count: usize) -> Result<Items<Items<u64>>, WantOfMemory>
    ensures { IfOk result (λ r. r ≡ rows_below table.now count count) }
{
    let mut rows = Items::new(alloc);
    for number in 0..count {
        let bounds = declared_bounds(table, VarId(number as u64));
        rows.push(variables_below(alloc, bounds, count as u64)?)?;
    }
    Ok(rows)
}

/// Of each type variable whether it depends on itself.
pub fn depending(alloc: Global, table: &Table) -> Result<Items<bool>, WantOfMemory>
    ensures { IfOk result (λ r. AreDepending table.now r) }
{
    let rows = rows(alloc, table, table.variables.len())?;
    let marks = on_cycles(alloc, rows.slice())?;
    Ok(marks)
}

/// The mark of a number, and none where there is no such number.
pub fn is_marked(marks: &[bool], number: usize) -> bool
    ensures { result ≡ is_marked marks.now number }
{
    match marks.get(number) {
        Some(mark) => *mark,
        None => false,
    }
}

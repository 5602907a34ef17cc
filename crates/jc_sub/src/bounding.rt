//! Greatest lower bounds (JLS 5.1.10).
ghost use Rattle.std.specs.Prelude.{◌≡◌, ◌++◌, ◌∷◌, [], false, None, IfOk, IfErr, OnOk};
ghost use Rattle.jc_types.specs.declared.form.Ty.{out-Ty};
ghost use Rattle.jc_judge.specs.Meeting.{glb, parts_at, clashes_before, brings_clash, unrelated};
ghost use Rattle.jc_judge.specs.Capturing.{IsCaptureStop};

use crate::capturing::moved_on;
use crate::meeting::{as_one, clash, glb_parts, parts_of};
use jc_judge::CaptureFault;
use jc_rules::{Items, Stop, WantOfMemory};
use jc_types::{Table, Ty, copy_type};
use std::alloc::Global;

/// The greatest lower bound of types (JLS 5.1.10). It is refused where two classes, neither a subclass of the other, are among
/// the types and the parts of the intersections among them, by the first type with a class that is unrelated to an earlier one,
/// counted from 0.
pub fn glb(alloc: Global, table: &Table, types: &[Ty]) -> Result<Ty, Stop<CaptureFault>>
    ensures ty { IfOk result (λ r. r ≡ glb table.now types.now) }
    ensures fine { OnOk result (unrelated table.now types.now ≡ None) }
    ensures fault { IfErr result (IsCaptureStop (unrelated table.now types.now)) }
{
    if let Some(i) = unrelated(alloc, table, types)? {
        return Err(Stop::Refused(CaptureFault::ClassesMeet { i }));
    }
    let parts = glb_parts(alloc, table, types)?;
    Ok(as_one(alloc, parts))
}

#[tactic(auto, unfolding(jc_judge::specs::Meeting::unrelated))]
fn unrelated(alloc: Global, table: &Table, types: &[Ty]) -> Result<Option<u64>, WantOfMemory>
    ensures { IfOk result (λ r. r ≡ unrelated table.now types.now) }
{
    let mut earlier = Items::new(alloc);
    let mut i: u64 = 0;
    let mut rest = types;
    while let [t, more @ ..] = rest {
        if adds_clash(alloc, table, &mut earlier, t)? {
            return Ok(Some(i));
        }
        i = moved_on(i, 1)?;
        rest = more;
    }
    Ok(None)
}

// Whether a class among the parts of a type is unrelated to an earlier one. Else the parts are added to the earlier types.
fn adds_clash(
    alloc: Global,
    table: &Table,
    earlier: &mut Items<Ty>,
    t: &Ty,
) -> Result<bool, WantOfMemory>
    ensures clash { IfOk result (λ r. r ≡ brings_clash table.now earlier.old (parts_at t.now (out-Ty t.now))) }
    ensures added { IfOk result (λ r. r ≡ false → earlier.new ≡ earlier.old ++ parts_at t.now (out-Ty t.now)) }
{
    let parts = parts_of(alloc, t)?;
    add_parts(alloc, table, earlier, parts.slice())
}

fn add_parts(
    alloc: Global,
    table: &Table,
    earlier: &mut Items<Ty>,
    parts: &[Ty],
) -> Result<bool, WantOfMemory>
    ensures clash { IfOk result (λ r. r ≡ brings_clash table.now earlier.old parts.now) }
    ensures added { IfOk result (λ r. r ≡ false → earlier.new ≡ earlier.old ++ parts.now) }
{
    let mut rest = parts;
    while let [t, more @ ..] = rest {
        if clashes_before(alloc, table, earlier.slice(), t)? {
            return Ok(true);
        }
        let t = copy_type(alloc, t)?;
        earlier.push(t)?;
        rest = more;
    }
    Ok(false)
}

// Whether a type is of a class that is unrelated to that of an earlier one.
fn clashes_before(
    alloc: Global,
    table: &Table,
    earlier: &[Ty],
    t: &Ty,
) -> Result<bool, WantOfMemory>
    ensures { IfOk result (λ r. r ≡ clashes_before table.now earlier.now t.now) }
{
    let mut rest = earlier;
    while let [e, more @ ..] = rest {
        if clash(alloc, table, e, t)? {
            return Ok(true);
        }
        rest = more;
    }
    Ok(false)
}

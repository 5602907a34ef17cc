//! The stage of clashes.
ghost use Rattle.std.specs.Prelude.{◌≡◌, None, IfErr, IfOk, OnOk};
ghost use Rattle.jc_types.specs.Breaks.{least};
ghost use Rattle.jc_header_rules.specs.Places.{of_each};
ghost use Rattle.jc_clashes.specs.Clashing.{class_clashes};
ghost use Rattle.jc_clashes.specs.Clear.{AreClear};
ghost use Rattle.jc_clashes.specs.Shapes.{groups};
ghost use Rattle.jc_clashes.specs.Stage.{HasNoClash, IsClashesStop, IsFirstClash};

use crate::clashing::Setting;
use crate::clear::clear_marks;
use crate::constructors::constructors_broken;
use crate::marks::is_marked;
use crate::shapes::{Shape, groups};
use jc_members::{method_index, own_supertypes};
use jc_rules::{Items, Refusal, Stop, WantOfMemory};
use jc_types::{ClassDecl, ClassId, Table};
use std::alloc::Global;

/// The methods of each name that may clash, with marks for the classes that have none of them.
#[derive(Clone, Copy)]
struct Compared<'a> {
    table: &'a Table,
    groups: &'a [Items<Shape>],
    marks: &'a [bool],
}

impl<'a> Compared<'a> {
    // What a class breaks: nothing, where it is marked.
    #[tactic(auto, using(crate::proofs::Marked::clear_told))]
    fn class_broken(
        &self,
        alloc: Global,
        found: Option<Refusal>,
        k: ClassId,
        class: &ClassDecl,
    ) -> Result<Option<Refusal>, WantOfMemory>
        requires { AreClear self.now.table.now self.now.marks.now self.now.groups.now }
        ensures { IfOk result (λ r. r ≡ least found (class_clashes self.now.table.now self.now.groups.now k.0 class.now)) }
    {
        if is_marked(self.marks, k.0) {
            return Ok(found);
        }
        let above = own_supertypes(alloc, self.table, k)?;
        let setting = Setting {
            alloc,
            table: self.table,
            above: &above,
            class: k,
            place: class.place,
        };
        setting.groups_broken(found, self.groups)
    }

    fn classes_broken(&self, alloc: Global) -> Result<Option<Refusal>, WantOfMemory>
        requires { AreClear self.now.table.now self.now.marks.now self.now.groups.now }
        ensures { IfOk result (λ r. r ≡ least None (of_each (class_clashes self.now.table.now self.now.groups.now) 0 self.now.table.now.classes)) }
    {
        let mut found = None;
        let classes = self.table.classes.slice();
        for number in 0..classes.len() {
            let k = ClassId(number as u64);
            found = self.class_broken(alloc, found, k, &classes[number])?;
        }
        Ok(found)
    }
}

// The first clash.
#[tactic(auto, using(crate::proofs::Told::clashes_told))]
fn first_clash(alloc: Global, table: &Table) -> Result<Option<Refusal>, WantOfMemory>
    ensures { IfOk result (λ r. IsFirstClash table.now r) }
{
    let index = method_index(alloc, table)?;
    let groups = groups(alloc, table, &index)?;
    let marks = clear_marks(alloc, table, groups.slice())?;
    let compared = Compared {
        table,
        groups: groups.slice(),
        marks: marks.slice(),
    };
    let found = compared.classes_broken(alloc)?;
    constructors_broken(alloc, table, found)
}

/// Refuses a table by the first of its clashes.
pub fn check_clashes(alloc: Global, table: &Table) -> Result<(), Stop<Refusal>>
    ensures clear { OnOk result (HasNoClash table.now) }
    ensures refused { IfErr result (λ stop. IsClashesStop table.now stop) }
{
    match first_clash(alloc, table)? {
        Some(refusal) => Err(Stop::Refused(refusal)),
        None => Ok(()),
    }
}

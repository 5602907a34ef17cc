//! Declared member types.
ghost use Rattle.std.specs.Prelude.{◌≡◌, ◌∷◌, [], ◌++◌, IfOk, OnOk};
ghost use Rattle.jc_name_index.specs.Spaces.{padded};
ghost use Rattle.jc_name_index.specs.Index.{as_member};
ghost use Rattle.jc_settling.specs.Members.{list_at, appended, appended_as, appended_all, AreMembers};

use jc_declares::{ClassHead, Heads};
use jc_rules::{Items, Text, WantOfMemory};
use jc_tree::copy_text;
use std::alloc::Global;

/// Of each class the member types that it declares (JLS 8.5, 9.5), with their names, in their order.
#[derive(Drop)]
pub struct Members {
    pub lists: Vec<Items<(Text, u64)>>,
}

impl Members {
    /// The member types of a class.
    pub fn of(&self, class: u64) -> &[(Text, u64)]
        ensures { result.now ≡ list_at self.now.lists.items class }
    {
        match self.lists.get(class as usize) {
            Some(list) => list.slice(),
            None => &[],
        }
    }
}

/// Makes empty lists until there is one of this number.
#[tactic(auto, using(crate::proofs::Listed::padded_push))]
fn make(alloc: Global, lists: &mut Vec<Items<(Text, u64)>>, number: u64) -> Result<(), WantOfMemory>
    ensures { OnOk result (lists.new.items ≡ padded number lists.old.items) }
{
    'lists: while lists.len() as u64 <= number {
        lists.push(Items::new(alloc))?;
    }
    Ok(())
}

fn push_member(
    alloc: Global,
    list: &mut Items<(Text, u64)>,
    name: &Text,
    class: u64,
) -> Result<(), WantOfMemory>
    ensures { OnOk result (list.new ≡ list.old ++ (name.now, class) ∷ []) }
{
    let name = copy_text(alloc, name)?;
    list.push((name, class))
}

fn append(
    alloc: Global,
    lists: &mut Vec<Items<(Text, u64)>>,
    outer: u64,
    name: &Text,
    class: u64,
) -> Result<(), WantOfMemory>
    ensures { OnOk result (lists.new.items ≡ appended outer (name.now, class) lists.old.items) }
{
    make(alloc, lists, outer)?;
    match lists.get_mut(outer as usize) {
        Some(list) => push_member(alloc, list, name, class),
        None => Ok(()),
    }
}

fn append_class(
    alloc: Global,
    lists: &mut Vec<Items<(Text, u64)>>,
    class: &ClassHead,
    number: u64,
) -> Result<(), WantOfMemory>
    ensures { OnOk result (lists.new.items ≡ appended_as (as_member class.now) number lists.old.items) }
{
    match class.round.slice().first() {
        Some(outer) => append(alloc, lists, *outer, &class.name, number),
        None => Ok(()),
    }
}

fn append_classes(
    alloc: Global,
    lists: &mut Vec<Items<(Text, u64)>>,
    classes: &[ClassHead],
) -> Result<(), WantOfMemory>
    ensures { OnOk result (lists.new.items ≡ appended_all 0 classes.now lists.old.items) }
{
    for number in 0..classes.len() {
        append_class(alloc, lists, &classes[number], number as u64)?;
    }
    Ok(())
}

/// The member types that the classes of these heads declare.
pub fn members_of(alloc: Global, heads: &Heads) -> Result<Members, WantOfMemory>
    ensures { IfOk result (λ it. AreMembers heads.now it.lists.items) }
{
    let mut lists = Vec::new(alloc);
    append_classes(alloc, &mut lists, heads.classes.slice())?;
    Ok(Members { lists })
}

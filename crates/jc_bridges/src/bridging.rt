//! The bridges of a class.
ghost use Rattle.std.specs.Prelude.{◌≡◌, false, length, Some, IfOk, OnOk};
ghost use Rattle.jc_types.specs.declared.ids.ClassId.{ClassId};
ghost use Rattle.jc_overriding.specs.Overriding.{superclass};
ghost use Rattle.jc_overriding.specs.Viewing.{own_type};
ghost use Rattle.jc_members.specs.Named.{IsMethodIndex};
ghost use Rattle.jc_members.specs.Supertypes.{IsSupertypes};
ghost use Rattle.jc_bridges_spec.specs.Bridging.{bridges, bridges_for, bridges_if, goes_across, goes_on, is_at, is_bridged, is_led_astray, leads_among, leads_by, leads_in, with_bridge, with_bridge_to};
ghost use Rattle.jc_bridges.specs.All.{all_bridges};

use crate::descriptors::{is_called_as, is_selectable, same_descriptor};
use jc_bridges_spec::Bridge;
use jc_members::{
    MethodIndex, Supertypes, is_above, method_index, own_supertypes, owner, same_class, select_in,
};
use jc_rules::{Items, WantOfMemory};
use jc_sub::class_of;
use jc_types::{ClassId, MethodId, Table, class_supers, is_interface, method_name};
use std::alloc::Global;

/// A class with its supertypes, and its superclass with those of that.
#[derive(Clone, Copy)]
struct Scene<'a> {
    alloc: Global,
    table: &'a Table,
    index: &'a MethodIndex,
    class: ClassId,
    above: &'a Supertypes,
    up: Option<ClassId>,
    further: &'a Supertypes,
}

fn superclass(table: &Table, k: ClassId) -> Option<ClassId>
    ensures { result ≡ superclass table.now k }
{
    match class_supers(table, k) {
        [] => None,
        [first, ..] => class_of(first),
    }
}

fn is_bridged(alloc: Global, table: &Table, m: MethodId, list: &[Bridge]) -> bool
    ensures { result ≡ is_bridged table.now m list.now }
{
    let mut rest = list;
    while let [b, more @ ..] = rest {
        if is_called_as(alloc, table, b.called, m) {
            return true;
        }
        rest = more;
    }
    false
}

fn push_to(m: MethodId, own: Option<MethodId>, out: &mut Items<Bridge>) -> Result<(), WantOfMemory>
    ensures { OnOk result (out.new ≡ with_bridge_to m out.old own) }
{
    match own {
        None => Ok(()),
        Some(own) => out.push(Bridge { called: m, own }),
    }
}

impl<'a> Scene<'a> {
    // Whether a method is declared in the superclass or above it.
    fn is_at(&self, c: ClassId, n: MethodId) -> Result<bool, WantOfMemory>
        requires known { IsSupertypes self.now.table.now self.now.further.now }
        requires own { self.now.further.now.of ≡ own_type self.now.table.now c }
        ensures { IfOk result (λ r. r ≡ is_at self.now.table.now c n) }
    {
        if same_class(owner(self.table, n), c) {
            return Ok(true);
        }
        is_above(
            self.alloc,
            self.table,
            self.further,
            c,
            owner(self.table, n),
        )
    }

    fn goes_on(&self, own: MethodId, old: MethodId) -> bool
        ensures { result ≡ goes_on self.now.table.now self.now.class own old }
    {
        old.0 == own.0
            || (same_class(owner(self.table, own), self.class)
                && is_called_as(self.alloc, self.table, own, old))
    }

    fn goes_across(&self, m: MethodId, own: MethodId, old: Option<MethodId>) -> bool
        ensures { result ≡ goes_across self.now.table.now self.now.class m own old }
    {
        match old {
            None => false,
            Some(old) => {
                !same_descriptor(self.alloc, self.table, m, old) && self.goes_on(own, old)
            }
        }
    }

    // Whether by the superclass's body for method n a call of m comes to `own`.
    fn leads_by(
        &self,
        c: ClassId,
        m: MethodId,
        own: MethodId,
        n: MethodId,
    ) -> Result<bool, WantOfMemory>
        requires known { IsSupertypes self.now.table.now self.now.further.now }
        requires own { self.now.further.now.of ≡ own_type self.now.table.now c }
        ensures { IfOk result (λ r. r ≡ leads_by self.now.table.now self.now.class c m own n) }
    {
        if !is_selectable(self.table, n) || !is_called_as(self.alloc, self.table, n, m) {
            return Ok(false);
        }
        if !self.is_at(c, n)? {
            return Ok(false);
        }
        let old = select_in(self.alloc, self.table, self.further, c, n)?;
        Ok(self.goes_across(m, own, old))
    }

    fn leads_among(
        &self,
        c: ClassId,
        m: MethodId,
        own: MethodId,
        ids: &[MethodId],
    ) -> Result<bool, WantOfMemory>
        requires known { IsSupertypes self.now.table.now self.now.further.now }
        requires own { self.now.further.now.of ≡ own_type self.now.table.now c }
        ensures { IfOk result (λ r. r ≡ leads_among self.now.table.now self.now.class c m own ids.now) }
    {
        let mut rest = ids;
        while let [n, more @ ..] = rest {
            if self.leads_by(c, m, own, *n)? {
                return Ok(true);
            }
            rest = more;
        }
        Ok(false)
    }

    // Whether inherited bridges already lead to `own`.
    fn leads_in(&self, m: MethodId, own: MethodId) -> Result<bool, WantOfMemory>
        requires methods { IsMethodIndex self.now.table.now self.now.index.now }
        requires known { IsSupertypes self.now.table.now self.now.further.now }
        requires own { (c : ClassId) → self.now.up ≡ Some c → self.now.further.now.of ≡ own_type self.now.table.now c }
        ensures { IfOk result (λ r. r ≡ leads_in self.now.table.now self.now.class m own self.now.up) }
    {
        match self.up {
            None => Ok(false),
            Some(c) => {
                let ids = self.index.named(method_name(self.table, m));
                self.leads_among(c, m, own, ids)
            }
        }
    }

    fn is_led_astray(&self, m: MethodId, own: Option<MethodId>) -> Result<bool, WantOfMemory>
        requires methods { IsMethodIndex self.now.table.now self.now.index.now }
        requires known { IsSupertypes self.now.table.now self.now.further.now }
        requires own { (c : ClassId) → self.now.up ≡ Some c → self.now.further.now.of ≡ own_type self.now.table.now c }
        requires up { self.now.up ≡ superclass self.now.table.now self.now.class }
        ensures { IfOk result (λ r. r ≡ is_led_astray self.now.table.now self.now.class m own) }
    {
        let Some(own) = own else {
            return Ok(false);
        };
        if same_descriptor(self.alloc, self.table, m, own) {
            return Ok(false);
        }
        let leads = self.leads_in(m, own)?;
        Ok(!leads)
    }

    // Adds the bridge for a method, where it wants one that isn't there.
    #[tactic(auto, unfolding(jc_bridges_spec::specs::Bridging::wants_bridge))]
    fn add(&self, m: MethodId, out: &mut Items<Bridge>) -> Result<(), WantOfMemory>
        requires methods { IsMethodIndex self.now.table.now self.now.index.now }
        requires known { IsSupertypes self.now.table.now self.now.above.now }
        requires own { self.now.above.now.of ≡ own_type self.now.table.now self.now.class }
        requires known_further { IsSupertypes self.now.table.now self.now.further.now }
        requires own_further { (c : ClassId) → self.now.up ≡ Some c → self.now.further.now.of ≡ own_type self.now.table.now c }
        requires up { self.now.up ≡ superclass self.now.table.now self.now.class }
        ensures { OnOk result (out.new ≡ with_bridge self.now.table.now self.now.class out.old m) }
    {
        if !is_selectable(self.table, m) {
            return Ok(());
        }
        if !is_above(
            self.alloc,
            self.table,
            self.above,
            self.class,
            owner(self.table, m),
        )? {
            return Ok(());
        }
        let body = select_in(self.alloc, self.table, self.above, self.class, m)?;
        if !self.is_led_astray(m, body)? || is_bridged(self.alloc, self.table, m, out.slice()) {
            return Ok(());
        }
        push_to(m, body, out)
    }

    fn bridges(&self) -> Result<Items<Bridge>, WantOfMemory>
        requires methods { IsMethodIndex self.now.table.now self.now.index.now }
        requires known { IsSupertypes self.now.table.now self.now.above.now }
        requires own { self.now.above.now.of ≡ own_type self.now.table.now self.now.class }
        requires known_further { IsSupertypes self.now.table.now self.now.further.now }
        requires own_further { (c : ClassId) → self.now.up ≡ Some c → self.now.further.now.of ≡ own_type self.now.table.now c }
        requires up { self.now.up ≡ superclass self.now.table.now self.now.class }
        ensures { IfOk result (λ r. r ≡ bridges_for self.now.table.now self.now.class (length self.now.table.now.methods)) }
    {
        let mut out = Items::new(self.alloc);
        for i in 0..self.table.methods.len() {
            self.add(MethodId(i as u64), &mut out)?;
        }
        Ok(out)
    }
}

// The bridges of a class that is no interface.
fn class_bridges(
    alloc: Global,
    table: &Table,
    index: &MethodIndex,
    class: ClassId,
) -> Result<Items<Bridge>, WantOfMemory>
    requires { IsMethodIndex table.now index.now }
    ensures { IfOk result (λ r. r ≡ bridges_if table.now class false) }
{
    let above = own_supertypes(alloc, table, class)?;
    let up = superclass(table, class);
    let further = own_supertypes(alloc, table, up.unwrap_or(class))?;
    let scene = Scene {
        alloc,
        table,
        index,
        class,
        above: &above,
        up,
        further: &further,
    };
    scene.bridges()
}

/// The bridges of a class. `index` has the table's methods by their names.
#[tactic(auto, unfolding(jc_bridges_spec::specs::Bridging::bridges))]
pub fn bridges(
    alloc: Global,
    table: &Table,
    index: &MethodIndex,
    class: ClassId,
) -> Result<Items<Bridge>, WantOfMemory>
    requires { IsMethodIndex table.now index.now }
    ensures { IfOk result (λ r. r ≡ bridges table.now class) }
{
    if is_interface(table, class) {
        return Ok(Items::new(alloc));
    }
    class_bridges(alloc, table, index, class)
}

/// The bridges of each class of a table.
pub fn all_bridges(alloc: Global, table: &Table) -> Result<Items<Items<Bridge>>, WantOfMemory>
    ensures { IfOk result (λ r. r ≡ all_bridges table.now) }
{
    let index = method_index(alloc, table)?;
    let mut out = Items::new(alloc);
    for i in 0..table.classes.len() {
        out.push(bridges(alloc, table, &index, ClassId(i as u64))?)?;
    }
    Ok(out)
}

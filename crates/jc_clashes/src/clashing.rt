//! The clashes in a class, among methods of one name.
ghost use Rattle.std.specs.Prelude.{◌≡◌, [], Some, IfOk, cond};
ghost use Rattle.std.specs.Option.{option_copied};
ghost use Rattle.jc_types.specs.Breaks.{least};
ghost use Rattle.jc_overriding.specs.Viewing.{class_view, own_type};
ghost use Rattle.jc_members.specs.Listing.{has_method};
ghost use Rattle.jc_members.specs.Supertypes.{IsSupertypes};
ghost use Rattle.jc_clashes.specs.Clashing.{belongs, beside_broken, clash_at, group_broken, groups_broken, is_member, is_replaced, member_broken, pair_broken, passed_over, settles, views_clash};

use crate::erasures::share_some;
use crate::marks::{behind_first, first_mark};
use crate::places::shape_place;
use crate::shapes::Shape;
use jc_header_rules::or_break;
use jc_members::{
    MethodView, Supertypes, has_view, is_abstract, is_inheritable, is_method, method_in, owner,
    same_class, subsignature,
};
use jc_rules::{Items, Place, Refusal, Rule, WantOfMemory};
use jc_types::{ClassId, MethodId, Table, method_owner};
use std::alloc::Global;

/// A class whose methods are compared, with its supertypes, and the place where clashes of inherited methods are named.
#[derive(Clone, Copy)]
pub struct Setting<'a> {
    pub alloc: Global,
    pub table: &'a Table,
    pub above: &'a Supertypes,
    pub class: ClassId,
    pub place: Place,
}

impl<'a> Setting<'a> {
    fn has_method(&self, m: MethodId) -> Result<bool, WantOfMemory>
        requires { IsSupertypes self.now.table.now self.now.above.now }
        ensures { IfOk result (λ r. r ≡ has_method self.now.table.now self.now.above.now.of m) }
    {
        match method_owner(self.table, m) {
            None => Ok(false),
            Some(k) => has_view(self.alloc, self.table, self.above, k),
        }
    }

    // Whether the class declares a method or may inherit it.
    fn belongs(&self, m: MethodId) -> Result<bool, WantOfMemory>
        requires known { IsSupertypes self.now.table.now self.now.above.now }
        requires own { self.now.above.now.of ≡ own_type self.now.table.now self.now.class }
        ensures { IfOk result (λ r. r ≡ belongs self.now.table.now self.now.class m) }
    {
        let k = self.class;
        if !is_method(self.table, m) {
            return Ok(false);
        }
        if !same_class(k, owner(self.table, m)) && !is_inheritable(self.table, k, m) {
            return Ok(false);
        }
        self.has_method(m)
    }

    // Whether one that the class has overrides or hides this method.
    fn is_replaced(&self, s: &Shape) -> Result<bool, WantOfMemory>
        requires known { IsSupertypes self.now.table.now self.now.above.now }
        requires own { self.now.above.now.of ≡ own_type self.now.table.now self.now.class }
        ensures { IfOk result (λ r. r ≡ is_replaced self.now.table.now self.now.class s.now) }
    {
        let mut rest = s.above.slice();
        while let [m, more @ ..] = rest {
            if self.belongs(*m)? {
                return Ok(true);
            }
            rest = more;
        }
        Ok(false)
    }

    fn is_member(&self, s: &Shape) -> Result<bool, WantOfMemory>
        requires known { IsSupertypes self.now.table.now self.now.above.now }
        requires own { self.now.above.now.of ≡ own_type self.now.table.now self.now.class }
        ensures { IfOk result (λ r. r ≡ is_member self.now.table.now self.now.class s.now) }
    {
        if !self.belongs(s.id)? {
            return Ok(false);
        }
        let replaced = self.is_replaced(s)?;
        Ok(!replaced)
    }

    // Whether of two inherited members b, whose shape is u, stands in a's place.
    fn settles(&self, u: &Shape, a: &MethodView, b: &MethodView) -> Result<bool, WantOfMemory>
        requires known { IsSupertypes self.now.table.now self.now.above.now }
        requires own { self.now.above.now.of ≡ own_type self.now.table.now self.now.class }
        ensures { IfOk result (λ r. r ≡ settles self.now.table.now self.now.class u.now a.now b.now) }
    {
        if same_class(owner(self.table, a.id), self.class) {
            return Ok(false);
        }
        if self.is_replaced(u)? {
            return Ok(false);
        }
        if !subsignature(self.alloc, self.table, b, a)? {
            return Ok(false);
        }
        Ok(is_abstract(self.table, a.id) || !is_abstract(self.table, b.id))
    }

    fn both_clash(&self, u: &Shape, a: &MethodView, b: &MethodView) -> Result<bool, WantOfMemory>
        requires known { IsSupertypes self.now.table.now self.now.above.now }
        requires own { self.now.above.now.of ≡ own_type self.now.table.now self.now.class }
        ensures { IfOk result (λ r. r ≡ views_clash self.now.table.now self.now.class u.now (Some a.now) (Some b.now)) }
    {
        if subsignature(self.alloc, self.table, a, b)? {
            return Ok(false);
        }
        let settled = self.settles(u, a, b)?;
        Ok(!settled)
    }

    fn views_clash(
        &self,
        u: &Shape,
        a: Option<&MethodView>,
        b: Option<&MethodView>,
    ) -> Result<bool, WantOfMemory>
        requires known { IsSupertypes self.now.table.now self.now.above.now }
        requires own { self.now.above.now.of ≡ own_type self.now.table.now self.now.class }
        ensures { IfOk result (λ r. r ≡ views_clash self.now.table.now self.now.class u.now (option_copied a.entry) (option_copied b.entry)) }
    {
        match a {
            None => Ok(false),
            Some(a) => match b {
                None => Ok(false),
                Some(b) => self.both_clash(u, a, b),
            },
        }
    }

    // Whether a member, which the class has as `a`, clashes with another method that the class has.
    #[tactic(auto, unfolding(crate::specs::Clashing::clash_at))]
    fn clash_at(&self, s: &Shape, a: Option<&MethodView>, u: &Shape) -> Result<bool, WantOfMemory>
        requires known { IsSupertypes self.now.table.now self.now.above.now }
        requires own { self.now.above.now.of ≡ own_type self.now.table.now self.now.class }
        requires is { option_copied a ≡ class_view self.now.table.now self.now.class s.now.id }
        ensures { IfOk result (λ r. r ≡ clash_at self.now.table.now self.now.class s.now u.now) }
    {
        if s.id.0 == u.id.0 || !share_some(s.erasures.slice(), u.erasures.slice()) {
            return Ok(false);
        }
        if !self.belongs(u.id)? {
            return Ok(false);
        }
        let b = method_in(self.alloc, self.table, self.above, u.id)?;
        self.views_clash(u, a, b.as_ref())
    }

    // What a member, which the class has as `a`, breaks beside another method, unless that is passed over.
    fn pair_broken(
        &self,
        found: Option<Refusal>,
        s: &Shape,
        a: Option<&MethodView>,
        u: &Shape,
        is_passed: bool,
    ) -> Result<Option<Refusal>, WantOfMemory>
        requires known { IsSupertypes self.now.table.now self.now.above.now }
        requires own { self.now.above.now.of ≡ own_type self.now.table.now self.now.class }
        requires is { option_copied a ≡ class_view self.now.table.now self.now.class s.now.id }
        ensures { IfOk result (λ r. r ≡ least found (cond is_passed [] (pair_broken self.now.table.now self.now.class self.now.place s.now u.now))) }
    {
        if is_passed {
            return Ok(found);
        }
        if !self.clash_at(s, a, u)? {
            return Ok(found);
        }
        let at = shape_place(self.table, self.class, self.place, s.id, u);
        Ok(or_break(found, Rule::known(801), at))
    }

    // Marks for the methods of its name that a method overrides or hides, where the class declares it: these don't clash with it.
    fn passed_over<'b>(&self, s: &'b Shape) -> &'b [bool]
        ensures { result.now ≡ passed_over self.now.table.now self.now.class s.now }
    {
        if same_class(owner(self.table, s.id), self.class) {
            return s.below.slice();
        }
        &[]
    }

    // What a member, which the class has as `a`, breaks beside each of these.
    fn beside_broken(
        &self,
        found: Option<Refusal>,
        all: &[Shape],
        s: &Shape,
        a: Option<&MethodView>,
    ) -> Result<Option<Refusal>, WantOfMemory>
        requires known { IsSupertypes self.now.table.now self.now.above.now }
        requires own { self.now.above.now.of ≡ own_type self.now.table.now self.now.class }
        requires is { option_copied a ≡ class_view self.now.table.now self.now.class s.now.id }
        ensures { IfOk result (λ r. r ≡ least found (beside_broken self.now.table.now self.now.class self.now.place s.now (passed_over self.now.table.now self.now.class s.now) all.now)) }
    {
        let mut found = found;
        let mut rest = all;
        let mut marks = self.passed_over(s);
        while let [u, more @ ..] = rest {
            found = self.pair_broken(found, s, a, u, first_mark(marks))?;
            marks = behind_first(marks);
            rest = more;
        }
        Ok(found)
    }

    fn member_broken(
        &self,
        found: Option<Refusal>,
        all: &[Shape],
        s: &Shape,
    ) -> Result<Option<Refusal>, WantOfMemory>
        requires known { IsSupertypes self.now.table.now self.now.above.now }
        requires own { self.now.above.now.of ≡ own_type self.now.table.now self.now.class }
        ensures { IfOk result (λ r. r ≡ least found (member_broken self.now.table.now self.now.class self.now.place all.now s.now)) }
    {
        if !self.is_member(s)? {
            return Ok(found);
        }
        let a = method_in(self.alloc, self.table, self.above, s.id)?;
        self.beside_broken(found, all, s, a.as_ref())
    }

    // What these methods of one name break.
    fn group_broken(
        &self,
        found: Option<Refusal>,
        all: &[Shape],
    ) -> Result<Option<Refusal>, WantOfMemory>
        requires known { IsSupertypes self.now.table.now self.now.above.now }
        requires own { self.now.above.now.of ≡ own_type self.now.table.now self.now.class }
        ensures { IfOk result (λ r. r ≡ least found (group_broken self.now.table.now self.now.class self.now.place all.now all.now)) }
    {
        let mut found = found;
        let mut rest = all;
        while let [s, more @ ..] = rest {
            found = self.member_broken(found, all, s)?;
            rest = more;
        }
        Ok(found)
    }

    /// What the methods of each of these names break in the class.
    pub fn groups_broken(
        &self,
        found: Option<Refusal>,
        groups: &[Items<Shape>],
    ) -> Result<Option<Refusal>, WantOfMemory>
        requires known { IsSupertypes self.now.table.now self.now.above.now }
        requires own { self.now.above.now.of ≡ own_type self.now.table.now self.now.class }
        ensures { IfOk result (λ r. r ≡ least found (groups_broken self.now.table.now self.now.class self.now.place groups.now)) }
    {
        let mut found = found;
        let mut rest = groups;
        while let [group, more @ ..] = rest {
            found = self.group_broken(found, group.slice())?;
            rest = more;
        }
        Ok(found)
    }
}

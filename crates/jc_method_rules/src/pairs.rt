//! What a method breaks beside another one of its name (JLS 8.4.2, 8.4.3.3, 8.4.8, 8.8.2): 503 to 508 and 512.
ghost use Rattle.std.specs.Prelude.{◌≡◌, ◌&&◌, true, Some, IfOk};
ghost use Rattle.std.specs.Option.{option_copied};
ghost use Rattle.jc_types.specs.Breaks.{least};
ghost use Rattle.jc_types.specs.Sameness.{same};
ghost use Rattle.jc_overriding.specs.Overriding.{owner};
ghost use Rattle.jc_overriding.specs.Viewing.{class_view, declared_view, own_type};
ghost use Rattle.jc_members.specs.Fixed.{is_own_erasure};
ghost use Rattle.jc_members.specs.Supertypes.{IsSupertypes};
ghost use Rattle.jc_header_rules.specs.Headers.{answer_of_views, differ, is_before, is_final, is_same_sort, is_weaker, openness, repeats, replaces, replacing_broken, result_broken, statics_meet, views_throw};
ghost use Rattle.jc_method_rules.specs.Pairs.{keeps_result, pair_breaks};

use crate::results::result_answer;
use crate::throwing::thrown_fits;
use jc_header_rules::{if_broken, or_break};
use jc_judge::Answer;
use jc_members::{
    MethodView, Supertypes, access_of, declared_view, is_method, is_own_erasure, is_static,
    method_in, override_equivalent, owner, replaces, same_class, signature_below,
};
use jc_rules::{Place, Refusal, Rule, WantOfMemory};
use jc_types::{
    Access, ClassId, MethodId, Table, Ty, method_modifiers, method_name, method_result, same_type,
};
use std::alloc::Global;

fn is_final(table: &Table, m: MethodId) -> bool
    ensures { result ≡ is_final table.now m }
{
    match method_modifiers(table, m) {
        Some(modifiers) => modifiers.is_final,
        None => false,
    }
}

fn openness(access: Access) -> u8
    ensures { result ≡ openness access }
{
    match access {
        Access::Public => 3,
        Access::Protected => 2,
        Access::Package => 1,
        Access::Private => 0,
    }
}

/// Whether the first access is less open than the second.
pub fn is_weaker(a: Access, b: Access) -> bool
    ensures { result ≡ is_weaker a b }
{
    openness(a) < openness(b)
}

/// Whether the two differ.
pub fn differ(a: bool, b: bool) -> bool
    ensures { result ≡ differ a b }
{
    if a { !b } else { b }
}

fn result_broken(found: Option<Refusal>, answer: Answer, place: Place) -> Option<Refusal>
    ensures { result ≡ least found (result_broken answer place) }
{
    match answer {
        Answer::Yes => found,
        Answer::No => or_break(found, Rule::known(507), place),
        Answer::Deep => or_break(found, Rule::known(512), place),
    }
}

fn keeps_type(alloc: Global, table: &Table, s: &Ty, t: &Ty) -> Result<bool, WantOfMemory>
    ensures { IfOk result (λ r. r ≡ (same s.now t.now && is_own_erasure table.now t.now)) }
{
    if !same_type(s, t) {
        return Ok(false);
    }
    is_own_erasure(alloc, table, t)
}

fn keeps_result(
    alloc: Global,
    table: &Table,
    s: Option<&Ty>,
    t: Option<&Ty>,
) -> Result<bool, WantOfMemory>
    ensures { IfOk result (λ r. r ≡ keeps_result table.now (option_copied s.entry) (option_copied t.entry)) }
{
    match s {
        None => Ok(t.is_none()),
        Some(s) => match t {
            None => Ok(false),
            Some(t) => keeps_type(alloc, table, s, t),
        },
    }
}

// Whether a's result may stand for that of method n as class k has it.
#[tactic(auto, using(crate::proofs::Kept::kept_laws))]
fn answer_of_view(
    alloc: Global,
    table: &Table,
    above: &Supertypes,
    k: ClassId,
    a: &MethodView,
    n: MethodId,
) -> Result<Answer, WantOfMemory>
    requires known { IsSupertypes table.now above.now }
    requires own { above.now.of ≡ own_type table.now k }
    ensures { IfOk result (λ r. r ≡ answer_of_views table.now (Some a.now) (class_view table.now k n)) }
{
    if keeps_result(alloc, table, a.result.as_ref(), method_result(table, n))? {
        return Ok(Answer::Yes);
    }
    match method_in(alloc, table, above, n)? {
        None => Ok(Answer::Yes),
        Some(b) => result_answer(alloc, table, a, &b),
    }
}

fn answer_of_views(
    alloc: Global,
    table: &Table,
    above: &Supertypes,
    k: ClassId,
    a: Option<&MethodView>,
    n: MethodId,
) -> Result<Answer, WantOfMemory>
    requires known { IsSupertypes table.now above.now }
    requires own { above.now.of ≡ own_type table.now k }
    ensures { IfOk result (λ r. r ≡ answer_of_views table.now (option_copied a.entry) (class_view table.now k n)) }
{
    match a {
        None => Ok(Answer::Yes),
        Some(a) => answer_of_view(alloc, table, above, k, a, n),
    }
}

// Whether a throws what method n, as class k has it, doesn't.
#[tactic(auto, using(crate::proofs::Kept::kept_laws))]
fn view_throws(
    alloc: Global,
    table: &Table,
    above: &Supertypes,
    k: ClassId,
    a: &MethodView,
    n: MethodId,
) -> Result<bool, WantOfMemory>
    requires known { IsSupertypes table.now above.now }
    requires own { above.now.of ≡ own_type table.now k }
    ensures { IfOk result (λ r. r ≡ views_throw table.now (Some a.now) (class_view table.now k n)) }
{
    if a.thrown.is_empty() {
        return Ok(false);
    }
    match method_in(alloc, table, above, n)? {
        None => Ok(false),
        Some(b) => Ok(!thrown_fits(alloc, table, a, &b)?),
    }
}

fn views_throw(
    alloc: Global,
    table: &Table,
    above: &Supertypes,
    k: ClassId,
    a: Option<&MethodView>,
    n: MethodId,
) -> Result<bool, WantOfMemory>
    requires known { IsSupertypes table.now above.now }
    requires own { above.now.of ≡ own_type table.now k }
    ensures { IfOk result (λ r. r ≡ views_throw table.now (option_copied a.entry) (class_view table.now k n)) }
{
    match a {
        None => Ok(false),
        Some(a) => view_throws(alloc, table, above, k, a, n),
    }
}

// What a method breaks that overrides or hides another one.
#[tactic(auto, using(jc_header_rules::proofs::Turning::turning))]
fn replacing_broken(
    alloc: Global,
    table: &Table,
    found: Option<Refusal>,
    place: Place,
    above: &Supertypes,
    a: Option<&MethodView>,
    m: MethodId,
    n: MethodId,
) -> Result<Option<Refusal>, WantOfMemory>
    requires known { IsSupertypes table.now above.now }
    requires own { above.now.of ≡ own_type table.now (owner table.now m) }
    requires is { option_copied a ≡ class_view table.now (owner table.now m) m }
    ensures { IfOk result (λ r. r ≡ least found (replacing_broken table.now m n place true)) }
{
    let found = if_broken(found, is_final(table, n), Rule::known(504), place);
    let weaker = is_weaker(access_of(table, m), access_of(table, n));
    let found = if_broken(found, weaker, Rule::known(506), place);
    let k = owner(table, m);
    let answer = answer_of_views(alloc, table, above, k, a, n)?;
    let found = result_broken(found, answer, place);
    let throws = views_throw(alloc, table, above, k, a, n)?;
    Ok(if_broken(found, throws, Rule::known(508), place))
}

// Whether one of two methods is static, and it would override or hide the other one otherwise.
#[tactic(auto, using(crate::proofs::Paired::statics_told))]
fn statics_meet(
    alloc: Global,
    table: &Table,
    above: &Supertypes,
    a: Option<&MethodView>,
    m: MethodId,
    n: MethodId,
) -> Result<bool, WantOfMemory>
    requires known { IsSupertypes table.now above.now }
    requires own { above.now.of ≡ own_type table.now (owner table.now m) }
    requires is { option_copied a ≡ class_view table.now (owner table.now m) m }
    ensures { IfOk result (λ r. r ≡ statics_meet table.now m n) }
{
    if !is_method(table, m) || !is_method(table, n) {
        return Ok(false);
    }
    if is_static(table, m) == is_static(table, n) {
        return Ok(false);
    }
    signature_below(alloc, table, above, owner(table, m), a, n)
}

fn is_same_sort(table: &Table, n: MethodId, m: MethodId) -> bool
    ensures { result ≡ is_same_sort table.now n m }
{
    if is_method(table, n) {
        is_method(table, m)
    } else {
        !is_method(table, m)
    }
}

// Whether method n is an earlier one of the same class, and of the same sort.
fn is_earlier(table: &Table, n: MethodId, m: MethodId) -> bool
    ensures { result ≡ (is_before table.now n m && is_same_sort table.now n m) }
{
    n.0 < m.0 && same_class(owner(table, n), owner(table, m)) && is_same_sort(table, n, m)
}

// Whether an earlier method of the same class has an override-equivalent signature.
fn repeats(
    alloc: Global,
    table: &Table,
    declared: &MethodView,
    m: MethodId,
    n: MethodId,
) -> Result<bool, WantOfMemory>
    requires { declared.now ≡ declared_view table.now m }
    ensures { IfOk result (λ r. r ≡ repeats table.now m n) }
{
    if !is_earlier(table, n, m) {
        return Ok(false);
    }
    let earlier = declared_view(alloc, table, n)?;
    let same = override_equivalent(alloc, table, declared, &earlier)?;
    Ok(same)
}

// What method m breaks where it overrides or hides method n.
fn if_replacing_broken(
    alloc: Global,
    table: &Table,
    found: Option<Refusal>,
    place: Place,
    above: &Supertypes,
    a: Option<&MethodView>,
    m: MethodId,
    n: MethodId,
) -> Result<Option<Refusal>, WantOfMemory>
    requires known { IsSupertypes table.now above.now }
    requires own { above.now.of ≡ own_type table.now (owner table.now m) }
    requires is { option_copied a ≡ class_view table.now (owner table.now m) m }
    ensures { IfOk result (λ r. r ≡ least found (replacing_broken table.now m n place (replaces table.now m n))) }
{
    if !replaces(alloc, table, above, a, m, n)? {
        return Ok(found);
    }
    replacing_broken(alloc, table, found, place, above, a, m, n)
}

/// What method m breaks beside method n: nothing, if they have other names. The supertypes are those of its class, `a` is m as its class has
/// it, and `declared` as it is declared.
#[tactic(auto, using(jc_header_rules::proofs::Turning::turning))]
pub fn pair_broken(
    alloc: Global,
    table: &Table,
    found: Option<Refusal>,
    place: Place,
    above: &Supertypes,
    a: Option<&MethodView>,
    declared: &MethodView,
    m: MethodId,
    n: MethodId,
) -> Result<Option<Refusal>, WantOfMemory>
    requires known { IsSupertypes table.now above.now }
    requires own { above.now.of ≡ own_type table.now (owner table.now m) }
    requires is { option_copied a ≡ class_view table.now (owner table.now m) m }
    requires declared { declared.now ≡ declared_view table.now m }
    ensures { IfOk result (λ r. r ≡ least found (pair_breaks table.now m place n)) }
{
    if method_name(table, n) != method_name(table, m) {
        return Ok(found);
    }
    let again = repeats(alloc, table, declared, m, n)?;
    let found = if_broken(found, again, Rule::known(503), place);
    let meet = statics_meet(alloc, table, above, a, m, n)?;
    let found = if_broken(found, meet, Rule::known(505), place);
    if_replacing_broken(alloc, table, found, place, above, a, m, n)
}

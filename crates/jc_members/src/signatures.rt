//! Signatures of methods, and which is a subsignature of which (JLS 8.4.2).
ghost use Rattle.std.specs.Prelude.{◌≡◌, ◌||◌, IfOk, length, map};
ghost use Rattle.jc_overriding.specs.Signatures.{adapted, all_one_of, erased_in, is_erasure, is_one_of, override_equivalent, same_all, same_bounds, same_lists, same_name, same_signature, subsignature};

use crate::adapting::{adapted_all, erased_in};
use jc_overriding::MethodView;
use jc_rules::{Items, WantOfMemory};
use jc_types::{Table, Ty, method_name, same_type};
use std::alloc::Global;

/// Whether these are the same types, each for each.
pub fn same_all(left: &[Ty], right: &[Ty]) -> bool
    ensures { result ≡ same_all left.now right.now }
{
    let mut ss = left;
    let mut ts = right;
    while let [s, more @ ..] = ss {
        match ts {
            [] => return false,
            [t, others @ ..] => {
                if !same_type(s, t) {
                    return false;
                }
                ts = others;
            }
        }
        ss = more;
    }
    match ts {
        [] => true,
        [_, ..] => false,
    }
}

fn same_name(table: &Table, a: &MethodView, b: &MethodView) -> bool
    ensures { result ≡ same_name table.now a.now b.now }
{
    method_name(table, a.id) == method_name(table, b.id)
}

fn is_one_of(s: &Ty, types: &[Ty]) -> bool
    ensures { result ≡ is_one_of s.now types.now }
{
    let mut ts = types;
    while let [t, others @ ..] = ts {
        if same_type(s, t) {
            return true;
        }
        ts = others;
    }
    false
}

fn all_one_of(types: &[Ty], others: &[Ty]) -> bool
    ensures { result ≡ all_one_of types.now others.now }
{
    let mut ss = types;
    while let [s, more @ ..] = ss {
        if !is_one_of(s, others) {
            return false;
        }
        ss = more;
    }
    true
}

// Whether these are the bounds of one type parameter, in any order.
fn same_bounds(left: &[Ty], right: &[Ty]) -> bool
    ensures { result ≡ same_bounds left.now right.now }
{
    all_one_of(left, right) && all_one_of(right, left)
}

// Whether the bounds of a's type parameters are those of b's, after adapting these.
fn all_same_bounds(alloc: Global, a: &MethodView, b: &MethodView) -> Result<bool, WantOfMemory>
    requires { length b.now.vars ≡ length a.now.vars }
    ensures { IfOk result (λ r. r ≡ same_lists a.now.bounds (map (map (adapted a.now b.now)) b.now.bounds)) }
{
    let mut ss = a.bounds.slice();
    let mut ts = b.bounds.slice();
    while let [s, more @ ..] = ss {
        match ts {
            [] => return Ok(false),
            [t, others @ ..] => {
                let adapted = adapted_all(alloc, a, b, t.slice())?;
                if !same_bounds(s.slice(), adapted.slice()) {
                    return Ok(false);
                }
                ts = others;
            }
        }
        ss = more;
    }
    match ts {
        [] => Ok(true),
        [_, ..] => Ok(false),
    }
}

fn same_params(alloc: Global, a: &MethodView, b: &MethodView) -> Result<bool, WantOfMemory>
    requires { length b.now.vars ≡ length a.now.vars }
    ensures { IfOk result (λ r. r ≡ same_all a.now.params (map (adapted a.now b.now) b.now.params)) }
{
    let adapted = adapted_all(alloc, a, b, b.params.slice())?;
    Ok(same_all(a.params.slice(), adapted.slice()))
}

fn same_signature(alloc: Global, a: &MethodView, b: &MethodView) -> Result<bool, WantOfMemory>
    ensures { IfOk result (λ r. r ≡ same_signature a.now b.now) }
{
    if a.vars.len() != b.vars.len() {
        return Ok(false);
    }
    if !all_same_bounds(alloc, a, b)? {
        return Ok(false);
    }
    same_params(alloc, a, b)
}

fn erased_params(alloc: Global, table: &Table, b: &MethodView) -> Result<Items<Ty>, WantOfMemory>
    ensures { IfOk result (λ r. r ≡ map (erased_in table.now b.now) b.now.params) }
{
    let mut out = Items::new(alloc);
    let params = b.params.slice();
    for i in 0..params.len() {
        out.push(erased_in(alloc, table, b, &params[i])?)?;
    }
    Ok(out)
}

// Whether a's signature is the erasure of b's.
fn is_erasure(
    alloc: Global,
    table: &Table,
    a: &MethodView,
    b: &MethodView,
) -> Result<bool, WantOfMemory>
    ensures { IfOk result (λ r. r ≡ is_erasure table.now a.now b.now) }
{
    if a.vars.len() != 0 {
        return Ok(false);
    }
    let erased = erased_params(alloc, table, b)?;
    Ok(same_all(a.params.slice(), erased.slice()))
}

// Whether a's signature is a subsignature of b's, where these have as many parameters.
fn is_subsignature(
    alloc: Global,
    table: &Table,
    a: &MethodView,
    b: &MethodView,
) -> Result<bool, WantOfMemory>
    ensures { IfOk result (λ r. r ≡ (same_signature a.now b.now || is_erasure table.now a.now b.now)) }
{
    if same_signature(alloc, a, b)? {
        return Ok(true);
    }
    is_erasure(alloc, table, a, b)
}

/// Whether a's signature is a subsignature of b's: the same after adapting type parameters, or the erasure of it.
#[tactic(auto, using(crate::proofs::Lengths::no_subsignature))]
pub fn subsignature(
    alloc: Global,
    table: &Table,
    a: &MethodView,
    b: &MethodView,
) -> Result<bool, WantOfMemory>
    ensures { IfOk result (λ r. r ≡ subsignature table.now a.now b.now) }
{
    if a.params.len() != b.params.len() {
        return Ok(false);
    }
    if !same_name(table, a, b) {
        return Ok(false);
    }
    is_subsignature(alloc, table, a, b)
}

/// Whether one of two signatures is a subsignature of the other.
pub fn override_equivalent(
    alloc: Global,
    table: &Table,
    a: &MethodView,
    b: &MethodView,
) -> Result<bool, WantOfMemory>
    ensures { IfOk result (λ r. r ≡ override_equivalent table.now a.now b.now) }
{
    if subsignature(alloc, table, a, b)? {
        return Ok(true);
    }
    subsignature(alloc, table, b, a)
}

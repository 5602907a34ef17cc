//! How written types are read.
ghost use Rattle.std.specs.Prelude.{◌≡◌, slice_get};
ghost use Rattle.jc_declares.specs.declared.heads.Heads.{Heads};
ghost use Rattle.jc_declares.specs.Looking.{Knowledge};
ghost use Rattle.jc_declares.specs.Readings.{own_unless, head_reading, body_reading, method_reading, unit_reading, class_of_method, reading_of};
ghost use Rattle.jc_written.specs.At.{reading_at, form_reading};

use jc_declares::{Heads, ScopeForm};
use jc_looking::Standing;

/// Where a type is written, and the class whose type variables may be named there, which a static place has not (JLS 8.1.3).
#[derive(Clone, Copy)]
pub struct Reading {
    pub standing: Standing,
    pub own: Option<u64>,
}

fn own_unless(is_static: bool, class: u64) -> Option<u64>
    ensures { result ≡ own_unless is_static class }
{
    if is_static { None } else { Some(class) }
}

/// In the head of a class.
pub fn head_reading(class: u64) -> Reading
    ensures { (H : Heads) (K : Knowledge) → reading_at H K result ≡ head_reading H K class }
{
    Reading {
        standing: Standing::Head(class),
        own: Some(class),
    }
}

/// In the body of a class, in a static place or not.
pub fn body_reading(class: u64, is_static: bool) -> Reading
    ensures { (H : Heads) (K : Knowledge) → reading_at H K result ≡ body_reading H K class is_static }
{
    Reading {
        standing: Standing::Body(class),
        own: own_unless(is_static, class),
    }
}

/// In a method of a class.
pub fn method_reading(method: u64, class: u64, is_static: bool) -> Reading
    ensures { (H : Heads) (K : Knowledge) → reading_at H K result ≡ method_reading H K method class is_static }
{
    Reading {
        standing: Standing::Method { method, class },
        own: own_unless(is_static, class),
    }
}

fn unit_reading(unit: u64) -> Reading
    ensures { (H : Heads) (K : Knowledge) → reading_at H K result ≡ unit_reading H unit }
{
    Reading {
        standing: Standing::Unit(unit),
        own: None,
    }
}

fn class_of_method(heads: &Heads, method: u64) -> u64
    ensures { result ≡ class_of_method (slice_get heads.now.methods method) }
{
    match heads.methods.get(method as usize) {
        Some(place) => place.class,
        None => 0,
    }
}

/// In a scope of this form.
fn reading_in_form(heads: &Heads, form: ScopeForm, is_static: bool) -> Reading
    ensures { (K : Knowledge) → reading_at heads.now K result ≡ form_reading heads.now K form is_static }
{
    match form {
        ScopeForm::Unit(unit) => unit_reading(unit),
        ScopeForm::Class(class) => body_reading(class, is_static),
        ScopeForm::Method(method) => {
            method_reading(method, class_of_method(heads, method), is_static)
        }
    }
}

/// In a scope, in a static place or not.
pub fn reading_in_scope(heads: &Heads, scope: u64, is_static: bool) -> Reading
    ensures { (K : Knowledge) → reading_at heads.now K result ≡ reading_of heads.now K scope is_static }
{
    match heads.scopes.get(scope as usize) {
        Some(head) => reading_in_form(heads, head.form, is_static),
        None => unit_reading(0),
    }
}

//! Annotations, modifiers and the heads of declarations and statements.
ghost use Rattle.std.specs.Prelude.{◌≡◌, ◌↔◌, IsTrue};

use crate::expressions::{same_expr, same_exprs, same_some_expr, same_some_init};
use crate::plain::{same_ident, same_idents, same_some_ident};
use crate::types::{same_class, same_classes, same_some_class, same_type};
use jc_rules::Items;
use jc_tree::{
    Annotation, AnnotationValue, ClauseHead, DeclarationHead, ForHead, ForInit, Formal, LocalVars,
    MethodHead, Modifier, Pair, Resource, Resources, ResultType, TypeParam, TypeParams, Var,
};

#[cycle(same_values)]
fn same_value(a: &AnnotationValue, b: &AnnotationValue) -> bool
    ensures { IsTrue result ↔ (a.now ≡ b.now) }
{
    match (a, b) {
        (AnnotationValue::Value(it), AnnotationValue::Value(other)) => same_expr(it, other),
        (
            AnnotationValue::List {
                at,
                values,
                trailing,
            },
            AnnotationValue::List {
                at: other_at,
                values: other_values,
                trailing: other_trailing,
            },
        ) => at == other_at
            && trailing == other_trailing
            && same_values(values.slice(), other_values.slice()),
        _ => false,
    }
}

#[cycle(same_values)]
fn same_values(xs: &[AnnotationValue], ys: &[AnnotationValue]) -> bool
    ensures { IsTrue result ↔ (xs.now ≡ ys.now) }
{
    if xs.len() != ys.len() {
        return false;
    }
    for i in 0..xs.len() {
        if !same_value(&xs[i], &ys[i]) {
            return false;
        }
    }
    true
}

fn same_pair(a: &Pair, b: &Pair) -> bool
    ensures { IsTrue result ↔ (a.now ≡ b.now) }
{
    same_some_ident(&a.name, &b.name) && same_value(&a.value, &b.value)
}

fn same_pairs(xs: &[Pair], ys: &[Pair]) -> bool
    ensures { IsTrue result ↔ (xs.now ≡ ys.now) }
{
    if xs.len() != ys.len() {
        return false;
    }
    for i in 0..xs.len() {
        if !same_pair(&xs[i], &ys[i]) {
            return false;
        }
    }
    true
}

fn same_some_pairs(a: &Option<Items<Pair>>, b: &Option<Items<Pair>>) -> bool
    ensures { IsTrue result ↔ (a.now ≡ b.now) }
{
    match (a, b) {
        (Some(it), Some(other)) => same_pairs(it.slice(), other.slice()),
        (None, None) => true,
        _ => false,
    }
}

fn same_annotation(a: &Annotation, b: &Annotation) -> bool
    ensures { IsTrue result ↔ (a.now ≡ b.now) }
{
    a.at == b.at
        && same_ident(&a.first, &b.first)
        && same_idents(a.more.slice(), b.more.slice())
        && same_some_pairs(&a.pairs, &b.pairs)
}

fn same_modifier(a: &Modifier, b: &Modifier) -> bool
    ensures { IsTrue result ↔ (a.now ≡ b.now) }
{
    match (a, b) {
        (Modifier::Annotation(it), Modifier::Annotation(other)) => same_annotation(it, other),
        (
            Modifier::Word { at, word },
            Modifier::Word {
                at: other_at,
                word: other_word,
            },
        ) => at == other_at && word == other_word,
        _ => false,
    }
}

fn same_modifiers(xs: &[Modifier], ys: &[Modifier]) -> bool
    ensures { IsTrue result ↔ (xs.now ≡ ys.now) }
{
    if xs.len() != ys.len() {
        return false;
    }
    for i in 0..xs.len() {
        if !same_modifier(&xs[i], &ys[i]) {
            return false;
        }
    }
    true
}

fn same_param(a: &TypeParam, b: &TypeParam) -> bool
    ensures { IsTrue result ↔ (a.now ≡ b.now) }
{
    same_ident(&a.name, &b.name) && same_classes(a.bounds.slice(), b.bounds.slice())
}

fn same_params(xs: &[TypeParam], ys: &[TypeParam]) -> bool
    ensures { IsTrue result ↔ (xs.now ≡ ys.now) }
{
    if xs.len() != ys.len() {
        return false;
    }
    for i in 0..xs.len() {
        if !same_param(&xs[i], &ys[i]) {
            return false;
        }
    }
    true
}

fn same_params_of(a: &TypeParams, b: &TypeParams) -> bool
    ensures { IsTrue result ↔ (a.now ≡ b.now) }
{
    a.at == b.at && same_param(&a.first, &b.first) && same_params(a.more.slice(), b.more.slice())
}

fn same_some_params_of(a: &Option<TypeParams>, b: &Option<TypeParams>) -> bool
    ensures { IsTrue result ↔ (a.now ≡ b.now) }
{
    match (a, b) {
        (Some(it), Some(other)) => same_params_of(it, other),
        (None, None) => true,
        _ => false,
    }
}

fn same_formal(a: &Formal, b: &Formal) -> bool
    ensures { IsTrue result ↔ (a.now ≡ b.now) }
{
    a.variable_arity == b.variable_arity
        && a.dims == b.dims
        && same_modifiers(a.modifiers.slice(), b.modifiers.slice())
        && same_type(&a.ty, &b.ty)
        && same_ident(&a.name, &b.name)
}

fn same_formals(xs: &[Formal], ys: &[Formal]) -> bool
    ensures { IsTrue result ↔ (xs.now ≡ ys.now) }
{
    if xs.len() != ys.len() {
        return false;
    }
    for i in 0..xs.len() {
        if !same_formal(&xs[i], &ys[i]) {
            return false;
        }
    }
    true
}

fn same_var(a: &Var, b: &Var) -> bool
    ensures { IsTrue result ↔ (a.now ≡ b.now) }
{
    a.dims == b.dims && same_ident(&a.name, &b.name) && same_some_init(&a.init, &b.init)
}

fn same_vars(xs: &[Var], ys: &[Var]) -> bool
    ensures { IsTrue result ↔ (xs.now ≡ ys.now) }
{
    if xs.len() != ys.len() {
        return false;
    }
    for i in 0..xs.len() {
        if !same_var(&xs[i], &ys[i]) {
            return false;
        }
    }
    true
}

pub fn same_locals(a: &LocalVars, b: &LocalVars) -> bool
    ensures { IsTrue result ↔ (a.now ≡ b.now) }
{
    same_modifiers(a.modifiers.slice(), b.modifiers.slice())
        && same_type(&a.ty, &b.ty)
        && same_var(&a.first, &b.first)
        && same_vars(a.more.slice(), b.more.slice())
}

fn same_result(a: &ResultType, b: &ResultType) -> bool
    ensures { IsTrue result ↔ (a.now ≡ b.now) }
{
    match (a, b) {
        (ResultType::Void { at }, ResultType::Void { at: other }) => at == other,
        (ResultType::Type(it), ResultType::Type(other)) => same_type(it, other),
        _ => false,
    }
}

fn same_some_result(a: &Option<ResultType>, b: &Option<ResultType>) -> bool
    ensures { IsTrue result ↔ (a.now ≡ b.now) }
{
    match (a, b) {
        (Some(it), Some(other)) => same_result(it, other),
        (None, None) => true,
        _ => false,
    }
}

pub fn same_head(a: &DeclarationHead, b: &DeclarationHead) -> bool
    ensures { IsTrue result ↔ (a.now ≡ b.now) }
{
    match (a, b) {
        (
            DeclarationHead::Class {
                modifiers,
                at,
                name,
                params,
                extends,
                implements,
            },
            DeclarationHead::Class {
                modifiers: other_modifiers,
                at: other_at,
                name: other_name,
                params: other_params,
                extends: other_extends,
                implements: other_implements,
            },
        ) => at == other_at
            && same_modifiers(modifiers.slice(), other_modifiers.slice())
            && same_ident(name, other_name)
            && same_params(params.slice(), other_params.slice())
            && same_some_class(extends, other_extends)
            && same_classes(implements.slice(), other_implements.slice()),
        (
            DeclarationHead::Interface {
                modifiers,
                at,
                name,
                params,
                extends,
            },
            DeclarationHead::Interface {
                modifiers: other_modifiers,
                at: other_at,
                name: other_name,
                params: other_params,
                extends: other_extends,
            },
        ) => at == other_at
            && same_modifiers(modifiers.slice(), other_modifiers.slice())
            && same_ident(name, other_name)
            && same_params(params.slice(), other_params.slice())
            && same_classes(extends.slice(), other_extends.slice()),
        (
            DeclarationHead::Annotation {
                modifiers,
                at,
                name,
            },
            DeclarationHead::Annotation {
                modifiers: other_modifiers,
                at: other_at,
                name: other_name,
            },
        ) => at == other_at
            && same_modifiers(modifiers.slice(), other_modifiers.slice())
            && same_ident(name, other_name),
        _ => false,
    }
}

pub fn same_method(a: &MethodHead, b: &MethodHead) -> bool
    ensures { IsTrue result ↔ (a.now ≡ b.now) }
{
    same_modifiers(a.modifiers.slice(), b.modifiers.slice())
        && same_some_params_of(&a.params, &b.params)
        && same_some_result(&a.result, &b.result)
        && same_ident(&a.name, &b.name)
        && same_formals(a.formals.slice(), b.formals.slice())
        && same_classes(a.throws.slice(), b.throws.slice())
}

fn same_for_init(a: &ForInit, b: &ForInit) -> bool
    ensures { IsTrue result ↔ (a.now ≡ b.now) }
{
    match (a, b) {
        (ForInit::Local(it), ForInit::Local(other)) => same_locals(it, other),
        (ForInit::Effects(it), ForInit::Effects(other)) => same_exprs(it.slice(), other.slice()),
        _ => false,
    }
}

pub fn same_for(a: &ForHead, b: &ForHead) -> bool
    ensures { IsTrue result ↔ (a.now ≡ b.now) }
{
    match (a, b) {
        (
            ForHead::Basic { init, test, update },
            ForHead::Basic {
                init: other_init,
                test: other_test,
                update: other_update,
            },
        ) => same_for_init(init, other_init)
            && same_some_expr(test, other_test)
            && same_exprs(update.slice(), other_update.slice()),
        (
            ForHead::Enhanced {
                modifiers,
                ty,
                name,
                dims,
                iterable,
            },
            ForHead::Enhanced {
                modifiers: other_modifiers,
                ty: other_ty,
                name: other_name,
                dims: other_dims,
                iterable: other_iterable,
            },
        ) => dims == other_dims
            && same_modifiers(modifiers.slice(), other_modifiers.slice())
            && same_type(ty, other_ty)
            && same_ident(name, other_name)
            && same_expr(iterable, other_iterable),
        _ => false,
    }
}

fn same_resource(a: &Resource, b: &Resource) -> bool
    ensures { IsTrue result ↔ (a.now ≡ b.now) }
{
    same_modifiers(a.modifiers.slice(), b.modifiers.slice())
        && same_type(&a.ty, &b.ty)
        && same_ident(&a.name, &b.name)
        && same_expr(&a.value, &b.value)
}

fn same_resource_list(xs: &[Resource], ys: &[Resource]) -> bool
    ensures { IsTrue result ↔ (xs.now ≡ ys.now) }
{
    if xs.len() != ys.len() {
        return false;
    }
    for i in 0..xs.len() {
        if !same_resource(&xs[i], &ys[i]) {
            return false;
        }
    }
    true
}

fn same_resources(a: &Resources, b: &Resources) -> bool
    ensures { IsTrue result ↔ (a.now ≡ b.now) }
{
    a.trailing == b.trailing
        && same_resource(&a.first, &b.first)
        && same_resource_list(a.more.slice(), b.more.slice())
}

pub fn same_some_resources(a: &Option<Resources>, b: &Option<Resources>) -> bool
    ensures { IsTrue result ↔ (a.now ≡ b.now) }
{
    match (a, b) {
        (Some(it), Some(other)) => same_resources(it, other),
        (None, None) => true,
        _ => false,
    }
}

pub fn same_clause_head(a: &ClauseHead, b: &ClauseHead) -> bool
    ensures { IsTrue result ↔ (a.now ≡ b.now) }
{
    match (a, b) {
        (ClauseHead::If(it), ClauseHead::If(other)) => same_expr(it, other),
        (ClauseHead::Case(it), ClauseHead::Case(other)) => same_expr(it, other),
        (ClauseHead::Default, ClauseHead::Default) => true,
        (
            ClauseHead::Catch {
                modifiers,
                first,
                more,
                name,
            },
            ClauseHead::Catch {
                modifiers: other_modifiers,
                first: other_first,
                more: other_more,
                name: other_name,
            },
        ) => same_modifiers(modifiers.slice(), other_modifiers.slice())
            && same_class(first, other_first)
            && same_classes(more.slice(), other_more.slice())
            && same_ident(name, other_name),
        (ClauseHead::Finally, ClauseHead::Finally) => true,
        _ => false,
    }
}

//! The parts of declarations and statements that hold no statements.
ghost use Rattle.std.specs.Prelude.{◌≡◌, IfOk};

use crate::expressions::{copy_expr, copy_init};
use crate::plain::{copy_idents, copy_some_ident};
use crate::together::{added, both};
use jc_rules::{Items, WantOfMemory};
use jc_tree::{
    Annotation, AnnotationValue, ClassTree, Expr, Formal, Init, LocalVars, Modifier, Pair,
    ResultType, TypeParam, TypeParams, Var, copy_class, copy_ident, copy_type,
};
use std::alloc::Global;

pub fn copy_some_expr(alloc: Global, expr: &Option<Expr>) -> Result<Option<Expr>, WantOfMemory>
    ensures { IfOk result (λ copy. copy ≡ expr.now) }
{
    match expr {
        Some(expr) => Ok(Some(copy_expr(alloc, expr)?)),
        None => Ok(None),
    }
}

fn copy_some_init(alloc: Global, init: &Option<Init>) -> Result<Option<Init>, WantOfMemory>
    ensures { IfOk result (λ copy. copy ≡ init.now) }
{
    match init {
        Some(init) => Ok(Some(copy_init(alloc, init)?)),
        None => Ok(None),
    }
}

pub fn copy_classes(alloc: Global, classes: &[ClassTree]) -> Result<Items<ClassTree>, WantOfMemory>
    ensures { IfOk result (λ copy. copy ≡ classes.now) }
{
    let mut copies = Items::new(alloc);
    for i in 0..classes.len() {
        copies = added(copies, copy_class(alloc, &classes[i]))?;
    }
    Ok(copies)
}

pub fn copy_some_class(
    alloc: Global,
    class: &Option<ClassTree>,
) -> Result<Option<ClassTree>, WantOfMemory>
    ensures { IfOk result (λ copy. copy ≡ class.now) }
{
    match class {
        Some(class) => Ok(Some(copy_class(alloc, class)?)),
        None => Ok(None),
    }
}

#[cycle(value_copies)]
fn copy_value(alloc: Global, value: &AnnotationValue) -> Result<AnnotationValue, WantOfMemory>
    ensures { IfOk result (λ copy. copy ≡ value.now) }
{
    match value {
        AnnotationValue::Value(expr) => Ok(AnnotationValue::Value(copy_expr(alloc, expr)?)),
        AnnotationValue::List {
            at,
            values,
            trailing,
        } => match copy_values(alloc, values.slice()) {
            Ok(values) => Ok(AnnotationValue::List {
                at: *at,
                values,
                trailing: *trailing,
            }),
            Err(fault) => Err(fault),
        },
    }
}

#[cycle(value_copies)]
fn copy_values(
    alloc: Global,
    values: &[AnnotationValue],
) -> Result<Items<AnnotationValue>, WantOfMemory>
    ensures { IfOk result (λ copy. copy ≡ values.now) }
{
    let mut copies = Items::new(alloc);
    for i in 0..values.len() {
        copies = added(copies, copy_value(alloc, &values[i]))?;
    }
    Ok(copies)
}

fn copy_pair(alloc: Global, pair: &Pair) -> Result<Pair, WantOfMemory>
    ensures { IfOk result (λ copy. copy ≡ pair.now) }
{
    match both(
        copy_some_ident(alloc, &pair.name),
        copy_value(alloc, &pair.value),
    ) {
        Ok((name, value)) => Ok(Pair { name, value }),
        Err(fault) => Err(fault),
    }
}

fn copy_pairs(alloc: Global, pairs: &[Pair]) -> Result<Items<Pair>, WantOfMemory>
    ensures { IfOk result (λ copy. copy ≡ pairs.now) }
{
    let mut copies = Items::new(alloc);
    for i in 0..pairs.len() {
        copies = added(copies, copy_pair(alloc, &pairs[i]))?;
    }
    Ok(copies)
}

fn copy_some_pairs(
    alloc: Global,
    pairs: &Option<Items<Pair>>,
) -> Result<Option<Items<Pair>>, WantOfMemory>
    ensures { IfOk result (λ copy. copy ≡ pairs.now) }
{
    match pairs {
        Some(pairs) => Ok(Some(copy_pairs(alloc, pairs.slice())?)),
        None => Ok(None),
    }
}

fn copy_annotation(alloc: Global, annotation: &Annotation) -> Result<Annotation, WantOfMemory>
    ensures { IfOk result (λ copy. copy ≡ annotation.now) }
{
    let first = copy_ident(alloc, &annotation.first);
    let name = both(first, copy_idents(alloc, annotation.more.slice()));
    match both(name, copy_some_pairs(alloc, &annotation.pairs)) {
        Ok(((first, more), pairs)) => Ok(Annotation {
            at: annotation.at,
            first,
            more,
            pairs,
        }),
        Err(fault) => Err(fault),
    }
}

fn copy_modifier(alloc: Global, modifier: &Modifier) -> Result<Modifier, WantOfMemory>
    ensures { IfOk result (λ copy. copy ≡ modifier.now) }
{
    match modifier {
        Modifier::Annotation(annotation) => {
            Ok(Modifier::Annotation(copy_annotation(alloc, annotation)?))
        }
        Modifier::Word { at, word } => Ok(Modifier::Word {
            at: *at,
            word: *word,
        }),
    }
}

pub fn copy_modifiers(
    alloc: Global,
    modifiers: &[Modifier],
) -> Result<Items<Modifier>, WantOfMemory>
    ensures { IfOk result (λ copy. copy ≡ modifiers.now) }
{
    let mut copies = Items::new(alloc);
    for i in 0..modifiers.len() {
        copies = added(copies, copy_modifier(alloc, &modifiers[i]))?;
    }
    Ok(copies)
}

fn copy_param(alloc: Global, param: &TypeParam) -> Result<TypeParam, WantOfMemory>
    ensures { IfOk result (λ copy. copy ≡ param.now) }
{
    let name = copy_ident(alloc, &param.name);
    match both(name, copy_classes(alloc, param.bounds.slice())) {
        Ok((name, bounds)) => Ok(TypeParam { name, bounds }),
        Err(fault) => Err(fault),
    }
}

pub fn copy_params(alloc: Global, params: &[TypeParam]) -> Result<Items<TypeParam>, WantOfMemory>
    ensures { IfOk result (λ copy. copy ≡ params.now) }
{
    let mut copies = Items::new(alloc);
    for i in 0..params.len() {
        copies = added(copies, copy_param(alloc, &params[i]))?;
    }
    Ok(copies)
}

fn copy_params_of(alloc: Global, params: &TypeParams) -> Result<TypeParams, WantOfMemory>
    ensures { IfOk result (λ copy. copy ≡ params.now) }
{
    let first = copy_param(alloc, &params.first);
    match both(first, copy_params(alloc, params.more.slice())) {
        Ok((first, more)) => Ok(TypeParams {
            at: params.at,
            first,
            more,
        }),
        Err(fault) => Err(fault),
    }
}

pub fn copy_some_params_of(
    alloc: Global,
    params: &Option<TypeParams>,
) -> Result<Option<TypeParams>, WantOfMemory>
    ensures { IfOk result (λ copy. copy ≡ params.now) }
{
    match params {
        Some(params) => Ok(Some(copy_params_of(alloc, params)?)),
        None => Ok(None),
    }
}

fn copy_formal(alloc: Global, formal: &Formal) -> Result<Formal, WantOfMemory>
    ensures { IfOk result (λ copy. copy ≡ formal.now) }
{
    let modifiers = copy_modifiers(alloc, formal.modifiers.slice());
    let typed = both(modifiers, copy_type(alloc, &formal.ty));
    match both(typed, copy_ident(alloc, &formal.name)) {
        Ok(((modifiers, ty), name)) => Ok(Formal {
            modifiers,
            ty,
            variable_arity: formal.variable_arity,
            name,
            dims: formal.dims,
        }),
        Err(fault) => Err(fault),
    }
}

pub fn copy_formals(alloc: Global, formals: &[Formal]) -> Result<Items<Formal>, WantOfMemory>
    ensures { IfOk result (λ copy. copy ≡ formals.now) }
{
    let mut copies = Items::new(alloc);
    for i in 0..formals.len() {
        copies = added(copies, copy_formal(alloc, &formals[i]))?;
    }
    Ok(copies)
}

fn copy_var(alloc: Global, var: &Var) -> Result<Var, WantOfMemory>
    ensures { IfOk result (λ copy. copy ≡ var.now) }
{
    match both(
        copy_ident(alloc, &var.name),
        copy_some_init(alloc, &var.init),
    ) {
        Ok((name, init)) => Ok(Var {
            name,
            dims: var.dims,
            init,
        }),
        Err(fault) => Err(fault),
    }
}

fn copy_vars(alloc: Global, vars: &[Var]) -> Result<Items<Var>, WantOfMemory>
    ensures { IfOk result (λ copy. copy ≡ vars.now) }
{
    let mut copies = Items::new(alloc);
    for i in 0..vars.len() {
        copies = added(copies, copy_var(alloc, &vars[i]))?;
    }
    Ok(copies)
}

pub fn copy_locals(alloc: Global, locals: &LocalVars) -> Result<LocalVars, WantOfMemory>
    ensures { IfOk result (λ copy. copy ≡ locals.now) }
{
    let modifiers = copy_modifiers(alloc, locals.modifiers.slice());
    let typed = both(modifiers, copy_type(alloc, &locals.ty));
    let first = copy_var(alloc, &locals.first);
    let vars = both(first, copy_vars(alloc, locals.more.slice()));
    match both(typed, vars) {
        Ok(((modifiers, ty), (first, more))) => Ok(LocalVars {
            modifiers,
            ty,
            first,
            more,
        }),
        Err(fault) => Err(fault),
    }
}

fn copy_result(alloc: Global, node: &ResultType) -> Result<ResultType, WantOfMemory>
    ensures { IfOk result (λ copy. copy ≡ node.now) }
{
    match node {
        ResultType::Void { at } => Ok(ResultType::Void { at: *at }),
        ResultType::Type(ty) => Ok(ResultType::Type(copy_type(alloc, ty)?)),
    }
}

pub fn copy_some_result(
    alloc: Global,
    node: &Option<ResultType>,
) -> Result<Option<ResultType>, WantOfMemory>
    ensures { IfOk result (λ copy. copy ≡ node.now) }
{
    match node {
        Some(node) => Ok(Some(copy_result(alloc, node)?)),
        None => Ok(None),
    }
}

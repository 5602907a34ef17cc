//! Heights of annotations, modifiers, parameters and variables.
ghost use Rattle.std.specs.Prelude.{◌≡◌, map, List};
ghost use Rattle.jc_tree.specs.Heights.{annotation_height, capped, clause_head_height, for_height, for_init_height, formal_height, head_height, in_some, local_height, method_height, modifier_height, most, pair_height, param_height, params_of_height, resource_height, resources_of_height, result_height, value_height, var_height};
ghost use Rattle.jc_tree.specs.declared.statement.Pair.{Pair};

use super::expressions::{effects_height, expr_height, some_expr_height, some_init_height};
use super::types::{class_height, classes_height, some_class_height, type_height};
use crate::{
    Annotation, AnnotationValue, ClauseHead, DeclarationHead, ForHead, ForInit, Formal, LocalVars,
    MethodHead, Modifier, Pair, Resource, Resources, ResultType, TypeParam, TypeParams, Var,
};
use jc_rules::Items;

#[cycle(values_heights)]
#[tactic(auto, using(crate::proofs::Opened::values))]
pub fn value_height(node: &AnnotationValue) -> u32
    ensures { result ≡ capped (value_height node.now) }
{
    match node {
        AnnotationValue::Value(it) => expr_height(it),
        AnnotationValue::List { values, .. } => values_height(values.slice()).saturating_add(1),
    }
}

#[cycle(values_heights)]
#[tactic(auto, using(crate::proofs::Opened::values))]
pub fn values_height(nodes: &[AnnotationValue]) -> u32
    ensures { result ≡ capped (most (map value_height nodes.now)) }
{
    let mut most = 0;
    for node in nodes {
        most = most.max(value_height(node));
    }
    most
}

pub fn pair_height(node: &Pair) -> u32
    ensures { result ≡ capped (pair_height node.now) }
{
    value_height(&node.value)
}

pub fn pairs_height(nodes: &[Pair]) -> u32
    ensures { result ≡ capped (most (map pair_height nodes.now)) }
{
    let mut most = 0;
    for node in nodes {
        most = most.max(pair_height(node));
    }
    most
}

pub fn some_pairs_height(nodes: &Option<Items<Pair>>) -> u32
    ensures { result ≡ capped (in_some (λ (l : List Pair). most (map pair_height l)) nodes.now) }
{
    match nodes {
        Some(nodes) => pairs_height(nodes.slice()),
        None => 0,
    }
}

pub fn annotation_height(node: &Annotation) -> u32
    ensures { result ≡ capped (annotation_height node.now) }
{
    some_pairs_height(&node.pairs)
}

pub fn modifier_height(node: &Modifier) -> u32
    ensures { result ≡ capped (modifier_height node.now) }
{
    match node {
        Modifier::Annotation(it) => annotation_height(it),
        Modifier::Word { .. } => 0,
    }
}

pub fn modifiers_height(nodes: &[Modifier]) -> u32
    ensures { result ≡ capped (most (map modifier_height nodes.now)) }
{
    let mut most = 0;
    for node in nodes {
        most = most.max(modifier_height(node));
    }
    most
}

pub fn param_height(node: &TypeParam) -> u32
    ensures { result ≡ capped (param_height node.now) }
{
    classes_height(node.bounds.slice())
}

pub fn params_height(nodes: &[TypeParam]) -> u32
    ensures { result ≡ capped (most (map param_height nodes.now)) }
{
    let mut most = 0;
    for node in nodes {
        most = most.max(param_height(node));
    }
    most
}

pub fn params_of_height(node: &TypeParams) -> u32
    ensures { result ≡ capped (params_of_height node.now) }
{
    param_height(&node.first).max(params_height(node.more.slice()))
}

pub fn some_params_of_height(node: &Option<TypeParams>) -> u32
    ensures { result ≡ capped (in_some params_of_height node.now) }
{
    match node {
        Some(node) => params_of_height(node),
        None => 0,
    }
}

pub fn formal_height(node: &Formal) -> u32
    ensures { result ≡ capped (formal_height node.now) }
{
    modifiers_height(node.modifiers.slice()).max(type_height(&node.ty))
}

pub fn formals_height(nodes: &[Formal]) -> u32
    ensures { result ≡ capped (most (map formal_height nodes.now)) }
{
    let mut most = 0;
    for node in nodes {
        most = most.max(formal_height(node));
    }
    most
}

pub fn var_height(node: &Var) -> u32
    ensures { result ≡ capped (var_height node.now) }
{
    some_init_height(&node.init)
}

pub fn vars_height(nodes: &[Var]) -> u32
    ensures { result ≡ capped (most (map var_height nodes.now)) }
{
    let mut most = 0;
    for node in nodes {
        most = most.max(var_height(node));
    }
    most
}

pub fn local_height(node: &LocalVars) -> u32
    ensures { result ≡ capped (local_height node.now) }
{
    modifiers_height(node.modifiers.slice())
        .max(type_height(&node.ty))
        .max(var_height(&node.first))
        .max(vars_height(node.more.slice()))
}

pub fn result_height(node: &ResultType) -> u32
    ensures { result ≡ capped (result_height node.now) }
{
    match node {
        ResultType::Void { .. } => 0,
        ResultType::Type(it) => type_height(it),
    }
}

pub fn some_result_height(node: &Option<ResultType>) -> u32
    ensures { result ≡ capped (in_some result_height node.now) }
{
    match node {
        Some(node) => result_height(node),
        None => 0,
    }
}

pub fn head_height(node: &DeclarationHead) -> u32
    ensures { result ≡ capped (head_height node.now) }
{
    match node {
        DeclarationHead::Class {
            modifiers,
            params,
            extends,
            implements,
            ..
        } => modifiers_height(modifiers.slice())
            .max(params_height(params.slice()))
            .max(some_class_height(extends))
            .max(classes_height(implements.slice())),
        DeclarationHead::Interface {
            modifiers,
            params,
            extends,
            ..
        } => modifiers_height(modifiers.slice())
            .max(params_height(params.slice()))
            .max(classes_height(extends.slice())),
        DeclarationHead::Annotation { modifiers, .. } => modifiers_height(modifiers.slice()),
    }
}

pub fn method_height(node: &MethodHead) -> u32
    ensures { result ≡ capped (method_height node.now) }
{
    modifiers_height(node.modifiers.slice())
        .max(some_params_of_height(&node.params))
        .max(some_result_height(&node.result))
        .max(formals_height(node.formals.slice()))
        .max(classes_height(node.throws.slice()))
}

pub fn for_init_height(node: &ForInit) -> u32
    ensures { result ≡ capped (for_init_height node.now) }
{
    match node {
        ForInit::Local(it) => local_height(it),
        ForInit::Effects(it) => effects_height(it.slice()),
    }
}

pub fn for_height(node: &ForHead) -> u32
    ensures { result ≡ capped (for_height node.now) }
{
    match node {
        ForHead::Basic { init, test, update } => for_init_height(init)
            .max(some_expr_height(test))
            .max(effects_height(update.slice())),
        ForHead::Enhanced {
            modifiers,
            ty,
            iterable,
            ..
        } => modifiers_height(modifiers.slice())
            .max(type_height(ty))
            .max(expr_height(iterable)),
    }
}

pub fn resource_height(node: &Resource) -> u32
    ensures { result ≡ capped (resource_height node.now) }
{
    modifiers_height(node.modifiers.slice())
        .max(type_height(&node.ty))
        .max(expr_height(&node.value))
}

pub fn resources_height(nodes: &[Resource]) -> u32
    ensures { result ≡ capped (most (map resource_height nodes.now)) }
{
    let mut most = 0;
    for node in nodes {
        most = most.max(resource_height(node));
    }
    most
}

pub fn resources_of_height(node: &Resources) -> u32
    ensures { result ≡ capped (resources_of_height node.now) }
{
    resource_height(&node.first).max(resources_height(node.more.slice()))
}

pub fn some_resources_of_height(node: &Option<Resources>) -> u32
    ensures { result ≡ capped (in_some resources_of_height node.now) }
{
    match node {
        Some(node) => resources_of_height(node),
        None => 0,
    }
}

pub fn clause_head_height(node: &ClauseHead) -> u32
    ensures { result ≡ capped (clause_head_height node.now) }
{
    match node {
        ClauseHead::If(it) => expr_height(it),
        ClauseHead::Case(it) => expr_height(it),
        ClauseHead::Default => 0,
        ClauseHead::Catch {
            modifiers,
            first,
            more,
            ..
        } => modifiers_height(modifiers.slice())
            .max(class_height(first))
            .max(classes_height(more.slice())),
        ClauseHead::Finally => 0,
    }
}

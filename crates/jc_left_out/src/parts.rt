//! Left-out forms of what statements and declarations have but their statements and members.
ghost use Rattle.std.specs.Prelude.{◌≡◌};
ghost use Rattle.jc_left_out.specs.LeftOut.{in_each, in_some_of, is_known_annotation, is_static, least_of, left_out_of_clause_head, left_out_of_for, left_out_of_for_init, left_out_of_formals, left_out_of_locals, left_out_of_method, left_out_of_modifier, left_out_of_modifiers, left_out_of_pairs, left_out_of_resource, left_out_of_resources, left_out_of_value, left_out_of_var, some_static};

use crate::expressions::{in_expr, in_exprs, in_some_expr, in_some_init};
use crate::least::earlier;
use jc_rules::Items;
use jc_tree::{
    Annotation, AnnotationValue, ClauseHead, ForHead, ForInit, Formal, LocalVars, MethodHead,
    Modifier, ModifierWord, Pair, Resource, Resources, Var,
};

#[cycle(values_left_out)]
#[tactic(auto, using(crate::proofs::LeftOutRules::values))]
pub fn in_value(node: &AnnotationValue) -> Option<u32>
    ensures { result ≡ least_of (left_out_of_value node.now) }
{
    match node {
        AnnotationValue::Value(it) => in_expr(it),
        AnnotationValue::List { values, .. } => in_values(values.slice()),
    }
}

#[cycle(values_left_out)]
#[tactic(auto, using(crate::proofs::LeftOutRules::values))]
pub fn in_values(nodes: &[AnnotationValue]) -> Option<u32>
    ensures { result ≡ least_of (in_each left_out_of_value nodes.now) }
{
    let mut first = None;
    for node in nodes {
        first = earlier(first, in_value(node));
    }
    first
}

#[tactic(auto, using(crate::proofs::LeftOutRules::lists))]
pub fn in_pairs(nodes: &[Pair]) -> Option<u32>
    ensures { result ≡ least_of (left_out_of_pairs nodes.now) }
{
    let mut first = None;
    for node in nodes {
        first = earlier(first, in_value(&node.value));
    }
    first
}

pub fn in_some_pairs(nodes: &Option<Items<Pair>>) -> Option<u32>
    ensures { result ≡ least_of (in_some_of left_out_of_pairs nodes.now) }
{
    match nodes {
        Some(nodes) => in_pairs(nodes.slice()),
        None => None,
    }
}

/// Whether the annotation is one of the four, by its simple name.
pub fn is_known_annotation(node: &Annotation) -> bool
    ensures { result ≡ is_known_annotation node.now }
{
    node.more.slice().is_empty()
        && (node.first.text.str() == "Override"
            || node.first.text.str() == "Deprecated"
            || node.first.text.str() == "SuppressWarnings"
            || node.first.text.str() == "SafeVarargs")
}

#[tactic(auto, using(crate::proofs::LeftOutRules::lists))]
pub fn in_modifier(node: &Modifier) -> Option<u32>
    ensures { result ≡ least_of (left_out_of_modifier node.now) }
{
    match node {
        Modifier::Annotation(it) => {
            if is_known_annotation(it) {
                in_some_pairs(&it.pairs)
            } else {
                earlier(Some(it.at), in_some_pairs(&it.pairs))
            }
        }
        Modifier::Word { .. } => None,
    }
}

#[tactic(auto, using(crate::proofs::LeftOutRules::lists))]
pub fn in_modifiers(nodes: &[Modifier]) -> Option<u32>
    ensures { result ≡ least_of (left_out_of_modifiers nodes.now) }
{
    let mut first = None;
    for node in nodes {
        first = earlier(first, in_modifier(node));
    }
    first
}

pub fn is_static(node: &Modifier) -> bool
    ensures { result ≡ is_static node.now }
{
    matches!(
        node,
        Modifier::Word {
            word: ModifierWord::Static,
            ..
        }
    )
}

pub fn some_static(nodes: &[Modifier]) -> bool
    ensures { result ≡ some_static nodes.now }
{
    for node in nodes {
        if is_static(node) {
            return true;
        }
    }
    false
}

#[tactic(auto, using(crate::proofs::LeftOutRules::lists))]
pub fn in_formals(nodes: &[Formal]) -> Option<u32>
    ensures { result ≡ least_of (left_out_of_formals nodes.now) }
{
    let mut first = None;
    for node in nodes {
        first = earlier(first, in_modifiers(node.modifiers.slice()));
    }
    first
}

#[tactic(auto, using(crate::proofs::LeftOutRules::lists))]
pub fn in_vars(nodes: &[Var]) -> Option<u32>
    ensures { result ≡ least_of (in_each left_out_of_var nodes.now) }
{
    let mut first = None;
    for node in nodes {
        first = earlier(first, in_some_init(&node.init));
    }
    first
}

#[tactic(auto, using(crate::proofs::LeftOutRules::lists))]
pub fn in_locals(node: &LocalVars) -> Option<u32>
    ensures { result ≡ least_of (left_out_of_locals node.now) }
{
    earlier(
        in_modifiers(node.modifiers.slice()),
        earlier(in_some_init(&node.first.init), in_vars(node.more.slice())),
    )
}

#[tactic(auto, using(crate::proofs::LeftOutRules::lists))]
pub fn in_method(node: &MethodHead) -> Option<u32>
    ensures { result ≡ least_of (left_out_of_method node.now) }
{
    let params = match &node.result {
        Some(_) => None,
        None => match &node.params {
            None => None,
            Some(params) => Some(params.at),
        },
    };
    earlier(
        in_modifiers(node.modifiers.slice()),
        earlier(params, in_formals(node.formals.slice())),
    )
}

pub fn in_for_init(node: &ForInit) -> Option<u32>
    ensures { result ≡ least_of (left_out_of_for_init node.now) }
{
    match node {
        ForInit::Local(it) => in_locals(it),
        ForInit::Effects(it) => in_exprs(it.slice()),
    }
}

#[tactic(auto, using(crate::proofs::LeftOutRules::lists))]
pub fn in_for(node: &ForHead) -> Option<u32>
    ensures { result ≡ least_of (left_out_of_for node.now) }
{
    match node {
        ForHead::Basic { init, test, update } => earlier(
            in_for_init(init),
            earlier(in_some_expr(test), in_exprs(update.slice())),
        ),
        ForHead::Enhanced {
            modifiers,
            iterable,
            ..
        } => earlier(in_modifiers(modifiers.slice()), in_expr(iterable)),
    }
}

#[tactic(auto, using(crate::proofs::LeftOutRules::lists))]
pub fn in_resource(node: &Resource) -> Option<u32>
    ensures { result ≡ least_of (left_out_of_resource node.now) }
{
    earlier(in_modifiers(node.modifiers.slice()), in_expr(&node.value))
}

#[tactic(auto, using(crate::proofs::LeftOutRules::lists))]
pub fn in_more_resources(nodes: &[Resource]) -> Option<u32>
    ensures { result ≡ least_of (in_each left_out_of_resource nodes.now) }
{
    let mut first = None;
    for node in nodes {
        first = earlier(first, in_resource(node));
    }
    first
}

#[tactic(auto, using(crate::proofs::LeftOutRules::lists))]
pub fn in_resources(node: &Resources) -> Option<u32>
    ensures { result ≡ least_of (left_out_of_resources node.now) }
{
    earlier(
        in_resource(&node.first),
        in_more_resources(node.more.slice()),
    )
}

pub fn in_clause_head(node: &ClauseHead) -> Option<u32>
    ensures { result ≡ least_of (left_out_of_clause_head node.now) }
{
    match node {
        ClauseHead::If(it) => in_expr(it),
        ClauseHead::Case(it) => in_expr(it),
        ClauseHead::Default => None,
        ClauseHead::Catch { modifiers, .. } => in_modifiers(modifiers.slice()),
        ClauseHead::Finally => None,
    }
}

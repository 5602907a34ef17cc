//! Constant expressions in the arena, and what an operator gives of two (JLS 15.28).
ghost use Rattle.std.specs.Prelude.{◌≡◌, ◌<◌, ◌++◌, length, Some, IfOk, OnOk};
ghost use Rattle.jc_types.specs.declared.constant.Constant.TheVariants.{Text};
ghost use Rattle.jc_types.specs.declared.constant.Op.TheVariants.{Plus};
ghost use Rattle.jc_typed.specs.Parts.{BelowForm, Grows, constant_of, form_over, names_of, parts, places_of, type_of};
ghost use Rattle.jc_folding.specs.Folding.{fold, spelled};
ghost use Rattle.jc_exprs_nodes_spec.specs.Typeds.{fixed, known_in, known_of};
ghost use Rattle.jc_exprs_nodes.specs.Walks.{IsPart, known};
ghost use Rattle.jc_exprs_parts_spec.specs.Chains.{known_both};
ghost use Rattle.jc_exprs_operators.specs.Knowns.{FoldedBelow, GrownBelow, IsSame, KnownBelow, MentionsBelow, folded_in, has_folded, has_grown, has_known, known_at, text_in};

use crate::listing::{push_names_onto, push_places_onto};
use crate::making::push_node;
use jc_exprs_nodes::{Part, inside};
use jc_folding::fold;
use jc_rules::{Items, Place, WantOfMemory};
use jc_typed::{ExprForm, ListNode, Nodes};
use jc_types::{Constant, Op, Primitive};
use std::alloc::Global;

/// What a constant expression names, by the places in the arena: the locals, and the places of its casts to String.
#[derive(Clone, Copy, Debug)]
pub struct Mentions {
    pub named: u32,
    pub casts: u32,
}

/// A constant expression in the arena.
#[derive(Clone, Copy, Debug)]
pub struct KnownAt {
    pub value: u32,
    pub mentions: Mentions,
}

/// A constant expression whose value isn't in the arena: a string grows there by each operand of a chain.
#[derive(Drop)]
pub struct Folded {
    pub value: Constant,
    pub mentions: Mentions,
}

/// A folded constant with a further operand, or as it was where the operator gives nothing of them.
#[derive(Drop)]
pub enum Grown {
    More(Folded),
    Same(Folded),
}

fn constant_form(nodes: &Nodes, form: ExprForm) -> Option<KnownAt>
    requires { BelowForm (length nodes.now) form }
    ensures value { known_in (form_over (parts nodes.now) form) ≡ has_known nodes.now result }
    ensures below { KnownBelow (length nodes.now) result }
{
    match form {
        ExprForm::Constant {
            before,
            value,
            named,
            casts,
        } => match nodes.operands(before) {
            ListNode::Empty => Some(KnownAt {
                value,
                mentions: Mentions { named, casts },
            }),
            ListNode::More { .. } => None,
        },
        _ => None,
    }
}

/// The constant expression that a part is, if it is one.
pub fn constant_in(nodes: &Nodes, part: Part) -> Option<KnownAt>
    requires { IsPart nodes.now part }
    ensures value { known_of (known nodes.now part.at) ≡ has_known nodes.now result }
    ensures below { KnownBelow (length nodes.now) result }
{
    constant_form(nodes, inside(nodes, part).form)
}

#[tactic(auto, using(jc_exprs_nodes::proofs::Appending::appended))]
fn push_units(units: &[u16], out: &mut Items<u16>) -> Result<(), WantOfMemory>
    ensures { OnOk result (out.new ≡ out.old ++ units.now) }
{
    let mut rest = units;
    while let [unit, more @ ..] = rest {
        out.push(*unit)?;
        rest = more;
    }
    Ok(())
}

// The units of a value in a string: those of an empty string with it.
fn spelled(alloc: Global, value: i64, of: Primitive) -> Result<Items<u16>, WantOfMemory>
    ensures { IfOk result (λ r. r ≡ spelled value of) }
{
    let empty = Constant::Text(Items::new(alloc));
    match fold(alloc, Op::Plus, &empty, &Constant::Whole { value, of })? {
        Some(Constant::Text(units)) => Ok(units),
        _ => Ok(Items::new(alloc)),
    }
}

fn push_spelled(alloc: Global, right: &Constant, out: &mut Items<u16>) -> Result<(), WantOfMemory>
    ensures { OnOk result (fold Plus (Text out.old) right.now ≡ Some (Text out.new)) }
{
    match right {
        Constant::Text(units) => push_units(units.slice(), out),
        Constant::Whole { value, of } => out.append(spelled(alloc, *value, *of)?),
    }
}

#[tactic(auto, using(jc_typed::proofs::Growing::growing))]
fn push_mentions(
    nodes: &mut Nodes,
    left: Mentions,
    right: Mentions,
) -> Result<Mentions, WantOfMemory>
    requires left { MentionsBelow (length nodes.old) left }
    requires right { MentionsBelow (length nodes.old) right }
    ensures named { IfOk result (λ r. names_of nodes.new r.named ≡ names_of nodes.old left.named ++ names_of nodes.old right.named) }
    ensures casts { IfOk result (λ r. places_of nodes.new r.casts ≡ places_of nodes.old left.casts ++ places_of nodes.old right.casts) }
    ensures below { IfOk result (λ r. MentionsBelow (length nodes.new) r) }
    ensures grows { Grows nodes.old nodes.new }
{
    let named = push_names_onto(nodes, left.named, right.named)?;
    let casts = push_places_onto(nodes, left.casts, right.casts)?;
    Ok(Mentions { named, casts })
}

/// What an operator gives of two constant expressions in the arena.
#[tactic(auto, using(jc_typed::proofs::Growing::growing))]
pub fn fold_known(
    alloc: Global,
    nodes: &mut Nodes,
    op: Op,
    left: KnownAt,
    right: KnownAt,
) -> Result<Option<Folded>, WantOfMemory>
    requires left { KnownBelow (length nodes.old) (Some left) }
    requires right { KnownBelow (length nodes.old) (Some right) }
    ensures value { IfOk result (λ r. known_both (known_at nodes.old left) (known_at nodes.old right) (fold op (constant_of nodes.old left.value) (constant_of nodes.old right.value)) ≡ has_folded nodes.new r) }
    ensures below { IfOk result (λ r. FoldedBelow (length nodes.new) r) }
    ensures grows { Grows nodes.old nodes.new }
{
    let value = fold(
        alloc,
        op,
        nodes.constant(left.value),
        nodes.constant(right.value),
    )?;
    match value {
        None => Ok(None),
        Some(value) => {
            let mentions = push_mentions(nodes, left.mentions, right.mentions)?;
            Ok(Some(Folded { value, mentions }))
        }
    }
}

// A string with a constant more. It grows in its place, so that a chain of many costs no more than their length.
#[tactic(auto, using(jc_typed::proofs::Growing::growing))]
fn grow(
    alloc: Global,
    nodes: &mut Nodes,
    units: Items<u16>,
    mentions: Mentions,
    right: KnownAt,
) -> Result<Grown, WantOfMemory>
    requires mentions { MentionsBelow (length nodes.old) mentions }
    requires right { KnownBelow (length nodes.old) (Some right) }
    ensures value { IfOk result (λ r. known_both (text_in nodes.old units mentions) (known_at nodes.old right) (fold Plus (Text units) (constant_of nodes.old right.value)) ≡ has_grown nodes.new r) }
    ensures same { IfOk result (λ r. IsSame nodes.new (text_in nodes.old units mentions) r) }
    ensures below { IfOk result (λ r. GrownBelow (length nodes.new) r) }
    ensures grows { Grows nodes.old nodes.new }
{
    let mut units = units;
    push_spelled(alloc, nodes.constant(right.value), &mut units)?;
    let mentions = push_mentions(nodes, mentions, right.mentions)?;
    Ok(Grown::More(Folded {
        value: Constant::Text(units),
        mentions,
    }))
}

// What an operator gives of any constants.
#[tactic(auto, using(jc_typed::proofs::Growing::growing))]
fn refolded(
    alloc: Global,
    nodes: &mut Nodes,
    op: Op,
    left: Folded,
    right: KnownAt,
) -> Result<Grown, WantOfMemory>
    requires left { MentionsBelow (length nodes.old) left.mentions }
    requires right { KnownBelow (length nodes.old) (Some right) }
    ensures value { IfOk result (λ r. known_both (folded_in nodes.old left) (known_at nodes.old right) (fold op left.value (constant_of nodes.old right.value)) ≡ has_grown nodes.new r) }
    ensures same { IfOk result (λ r. IsSame nodes.new (folded_in nodes.old left) r) }
    ensures below { IfOk result (λ r. GrownBelow (length nodes.new) r) }
    ensures grows { Grows nodes.old nodes.new }
{
    match fold(alloc, op, &left.value, nodes.constant(right.value))? {
        None => Ok(Grown::Same(left)),
        Some(value) => {
            let mentions = push_mentions(nodes, left.mentions, right.mentions)?;
            Ok(Grown::More(Folded { value, mentions }))
        }
    }
}

/// What an operator gives of a folded constant and of one in the arena, or the folded one as it was.
pub fn fold_onto(
    alloc: Global,
    nodes: &mut Nodes,
    op: Op,
    left: Folded,
    right: KnownAt,
) -> Result<Grown, WantOfMemory>
    requires left { MentionsBelow (length nodes.old) left.mentions }
    requires right { KnownBelow (length nodes.old) (Some right) }
    ensures value { IfOk result (λ r. known_both (folded_in nodes.old left) (known_at nodes.old right) (fold op left.value (constant_of nodes.old right.value)) ≡ has_grown nodes.new r) }
    ensures same { IfOk result (λ r. IsSame nodes.new (folded_in nodes.old left) r) }
    ensures below { IfOk result (λ r. GrownBelow (length nodes.new) r) }
    ensures grows { Grows nodes.old nodes.new }
{
    let Folded { value, mentions } = left;
    match (value, op) {
        (Constant::Text(units), Op::Plus) => grow(alloc, nodes, units, mentions, right),
        (value, _) => refolded(alloc, nodes, op, Folded { value, mentions }, right),
    }
}

/// A folded constant as an expression, of a type in the arena.
#[tactic(auto, using(jc_typed::proofs::Growing::growing))]
pub fn push_fixed(
    nodes: &mut Nodes,
    place: Place,
    ty: u32,
    folded: Folded,
) -> Result<Part, WantOfMemory>
    requires ty { ty < length nodes.old }
    requires folded { FoldedBelow (length nodes.old) (Some folded) }
    ensures value { IfOk result (λ p. fixed place (type_of nodes.old ty) (folded_in nodes.old folded) ≡ known nodes.new p.at) }
    ensures part { IfOk result (λ p. IsPart nodes.new p) }
    ensures grows { Grows nodes.old nodes.new }
{
    let Folded { value, mentions } = folded;
    let before = nodes.push_operands(ListNode::Empty)?;
    let value = nodes.push_constant(value)?;
    push_node(
        nodes,
        place,
        ty,
        ExprForm::Constant {
            before,
            value,
            named: mentions.named,
            casts: mentions.casts,
        },
    )
}

//! Tests, by what is known when they are true and when they are false.
ghost use Rattle.std.specs.Prelude.{◌≡◌, ◌<◌, length};
ghost use Rattle.jc_typed.specs.Parts.{constant_of, operands_of, ops_of};
ghost use Rattle.jc_flow_spec.specs.Expressions.{is_number};
ghost use Rattle.jc_assign_spec.specs.Expressions.{constant_split, fixed_split, prefixed};
ghost use Rattle.jc_assign_spec.specs.Marks.{joined};
ghost use Rattle.jc_assign_parts.specs.Lanes.{known, knowing, marking, marks, stepped};
ghost use Rattle.jc_assign_names.specs.Walks.{differ, is_not, odd_nots, split_at};

use jc_assign_parts::{Marks, State, free_marks, meet_now, now, swap_now};
use jc_typed::{ListNode, Nodes, OpsNode};
use jc_types::{Constant, Op};

fn is_number(n: u32, constant: &Constant) -> bool
    ensures { result ≡ is_number n constant.now }
{
    match constant {
        Constant::Whole { value, .. } => *value == n as i64,
        Constant::Text(_) => false,
    }
}

// A constant test.
fn fixed_test(value: &Constant, s: &mut State) -> Marks
    ensures yes { known s.new ≡ stepped (λ l k. (fixed_split value.now k).yes) (known s.old) }
    ensures no { marks result ≡ marking (λ l. (fixed_split value.now ((known s.old).each l)).no) }
{
    if is_number(1, value) {
        free_marks()
    } else if is_number(0, value) {
        swap_now(s, free_marks())
    } else {
        now(s)
    }
}

/// A constant, which is a constant expression where nothing stands before it.
pub fn constant_test(nodes: &Nodes, before: u32, value: u32, s: &mut State) -> Marks
    requires before { before < length nodes.now }
    requires value { value < length nodes.now }
    ensures yes { known s.new ≡ stepped (λ l k. (constant_split (operands_of nodes.now before) (constant_of nodes.now value) k).yes) (known s.old) }
    ensures no { marks result ≡ marking (λ l. (constant_split (operands_of nodes.now before) (constant_of nodes.now value) ((known s.old).each l)).no) }
{
    match nodes.operands(before) {
        ListNode::Empty => fixed_test(nodes.constant(value), s),
        ListNode::More { .. } => now(s),
    }
}

fn is_not(op: Op) -> bool
    ensures { result ≡ is_not op }
{
    match op {
        Op::Not => true,
        _ => false,
    }
}

fn differ(a: bool, b: bool) -> bool
    ensures { result ≡ differ a b }
{
    if a { !b } else { b }
}

// Whether an odd number of these operators is `!`.
#[tactic(auto, using(crate::proofs::Turned::odds))]
fn has_odd_nots(nodes: &Nodes, at: u32) -> bool
    requires { at < length nodes.now }
    ensures { result ≡ odd_nots (ops_of nodes.now at) }
{
    let mut list = at;
    let mut found = false;
    'ops_left: loop {
        match nodes.ops(list) {
            OpsNode::Empty => return found,
            OpsNode::More { before, last } => {
                found = differ(is_not(last), found);
                list = before;
            }
        }
    }
}

/// Prefix operators before an operand, by what is known when it is false.
pub fn prefix_test(nodes: &Nodes, ops: u32, no: Marks, s: &mut State) -> Marks
    requires { ops < length nodes.now }
    ensures yes { known s.new ≡ knowing (λ l. (prefixed (ops_of nodes.now ops) (split_at (known s.old) (marks no) l)).yes) }
    ensures no { marks result ≡ marking (λ l. (prefixed (ops_of nodes.now ops) (split_at (known s.old) (marks no) l)).no) }
{
    if has_odd_nots(nodes, ops) {
        swap_now(s, no)
    } else {
        no
    }
}

/// The value of prefix operators before an operand.
pub fn join_prefix(nodes: &Nodes, ops: u32, no: Marks, s: &mut State)
    requires { ops < length nodes.now }
    ensures { known s.new ≡ knowing (λ l. joined (prefixed (ops_of nodes.now ops) (split_at (known s.old) (marks no) l))) }
{
    let other = prefix_test(nodes, ops, no, s);
    meet_now(s, other);
}

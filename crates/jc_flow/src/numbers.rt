//! Sets of numbers.
ghost use Rattle.std.specs.Prelude.{◌≡◌, ◌<◌, ℕ, IfOk, false, length, replicate, slice_set, true};
ghost use Rattle.jc_typed.specs.Copies.{is_among};
ghost use Rattle.jc_typed.specs.Parts.{cases_of, stmts_of};
ghost use Rattle.jc_flow_spec.specs.Statements.{is_labelled, stmt_count};
ghost use Rattle.jc_flow.specs.Marks.{AreMarks, marked};

use jc_rules::{Items, WantOfMemory};
use jc_typed::{CasesNode, ListNode, Nodes};
use std::alloc::Global;
use std::marker::Model;

/// Numbers, which contracts see as their list. Of a number that has a mark it is told at once whether it is among them.
#[derive(Drop)]
pub struct Numbers {
    list: Items<u32>,
    marks: Vec<bool>,
}

impl Model for Numbers {
    ghost use Rattle.std.specs.Prelude.{List, ℕ};
    ghost use Rattle.jc_typed.specs.Copies.{is_among};
    ghost use Rattle.jc_flow.specs.Marks.{AreMarks};

    ghost Value = { List ℕ };

    ghost view = { λ n. n.list };

    ghost invariant = { λ n. AreMarks n.marks.items (λ i. is_among i n.list) };
}

// Whether a number is one of these.
fn is_among(n: usize, list: &[u32]) -> bool
    ensures { result ≡ is_among n list.now }
{
    let mut rest = list;
    while let [u, more @ ..] = rest {
        if n == *u as usize {
            return true;
        }
        rest = more;
    }
    false
}

// Sets the mark at a place, where there is one.
#[tactic(auto, using(crate::proofs::Marking::marking))]
fn mark(marks: &mut Vec<bool>, at: usize)
    ensures { marks.new.items ≡ slice_set marks.old.items at true }
{
    if at < marks.len() {
        marks[at] = true;
    }
}

fn mark_all(marks: &mut Vec<bool>, list: &[u32])
    ensures { marks.new.items ≡ marked marks.old.items list.now }
{
    let mut rest = list;
    while let [x, more @ ..] = rest {
        mark(marks, *x as usize);
        rest = more;
    }
}

fn unmarked(alloc: Global, count: usize) -> Result<Vec<bool>, WantOfMemory>
    ensures { IfOk result (λ r. r.items ≡ replicate count false) }
{
    let marks = vec![in alloc; false; count]?;
    Ok(marks)
}

// Marks for the numbers below `count`.
#[tactic(auto, using(crate::proofs::Marking::are_marks_of))]
fn marks(alloc: Global, list: &[u32], count: usize) -> Result<Vec<bool>, WantOfMemory>
    ensures { IfOk result (λ r. AreMarks r.items (λ i. is_among i list.now)) }
{
    let mut out = unmarked(alloc, count)?;
    mark_all(&mut out, list);
    Ok(out)
}

impl Numbers {
    /// The numbers of a list, with marks for those below `count`.
    pub fn of(alloc: Global, list: Items<u32>, count: usize) -> Result<Numbers, WantOfMemory>
        ensures { IfOk result (λ r. r ≡ list) }
    {
        let marks = marks(alloc, list.slice(), count)?;
        Ok(Numbers { list, marks })
    }

    pub fn slice(&self) -> &[u32]
        ensures { result.now ≡ self.now }
    {
        self.list.slice()
    }

    /// Whether a number is among these.
    pub fn has(&self, n: usize) -> bool
        ensures { result ≡ is_among n self.now }
    {
        match self.marks.get(n) {
            Some(mark) => *mark,
            None => is_among(n, self.list.slice()),
        }
    }
}

/// How many statements stand before a label of a switch, for each label, with marks for a block of `count` statements.
pub fn labelled_numbers(
    alloc: Global,
    nodes: &Nodes,
    at: u32,
    count: usize,
) -> Result<Numbers, WantOfMemory>
    requires { at < length nodes.now }
    ensures { IfOk result (λ r. (i : ℕ) → is_among i r ≡ is_labelled (cases_of nodes.now at) i) }
{
    let mut list = at;
    let mut out = Items::new(alloc);
    'cases_left: loop {
        match nodes.cases(list) {
            CasesNode::Empty => return Numbers::of(alloc, out, count),
            CasesNode::More { before, last } => {
                out.push(last.skips)?;
                list = before;
            }
        }
    }
}

/// The number of statements of a list.
pub fn stmt_count(nodes: &Nodes, at: u32) -> usize
    requires { at < length nodes.now }
    ensures { result ≡ stmt_count (stmts_of nodes.now at) }
{
    let mut list = at;
    let mut count = 0usize;
    'stmts_left: loop {
        match nodes.stmts(list) {
            ListNode::Empty => return count,
            ListNode::More { before, .. } => {
                count += 1;
                list = before;
            }
        }
    }
}

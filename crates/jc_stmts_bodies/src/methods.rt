//! The bodies of the methods of a class.
ghost use Rattle.std.specs.Prelude.{◌≡◌, ◌++◌, IfOk, OnOk, false};
ghost use Rattle.jc_types.specs.Accessors.{methods_of};
ghost use Rattle.jc_stmts_spec.specs.Bodies.{all_call_this, blocks, constructor_body, implied_bodies, implied_body, initialised_by, initialisers, is_constructor, is_written_kind, plain_body, written, written_bodies, written_body};
ghost use Rattle.jc_stmts_bodies.specs.Flat.{all_call, behind_blocks, body_if, calls_if_constructor, first_after, first_behind, next_body, next_calls, written_in};

use crate::beginning::{begins_of, calls_this, implied, or_implied, rest_of};
use crate::blocks::{MethodBlock, blocks};
use crate::body::{Begins, Initialiser, MethodBody};
use crate::initialisers::{ClassNode, copied, initialisers};
use jc_rules::{Items, WantOfMemory};
use jc_tree::Stmt;
use jc_types::{MethodId, MethodKind, Table, class_methods, method_kind};
use std::alloc::Global;

fn is_constructor(table: &Table, method: MethodId) -> bool
    ensures { result ≡ is_constructor table.now method }
{
    match method_kind(table, method) {
        Some(MethodKind::Constructor) => true,
        Some(MethodKind::Method) => false,
        Some(MethodKind::ImpliedConstructor) => false,
        Some(MethodKind::StaticInitialiser) => false,
        None => false,
    }
}

fn is_written_kind(kind: Option<MethodKind>) -> bool
    ensures { result ≡ is_written_kind kind }
{
    match kind {
        Some(MethodKind::Method) => true,
        Some(MethodKind::Constructor) => true,
        Some(MethodKind::ImpliedConstructor) => false,
        Some(MethodKind::StaticInitialiser) => false,
        None => false,
    }
}

/// The methods that a source writes.
#[tactic(auto, using(crate::proofs::Joining::joining))]
fn written(
    alloc: Global,
    table: &Table,
    methods: &[MethodId],
) -> Result<Items<MethodId>, WantOfMemory>
    ensures { IfOk result (λ it. it ≡ written table.now methods.now) }
{
    let mut list = Items::new(alloc);
    for method in methods {
        if is_written_kind(method_kind(table, *method)) {
            list.push(*method)?;
        }
    }
    Ok(list)
}

fn calls_if_constructor(table: &Table, method: MethodId, block: &MethodBlock) -> bool
    ensures { result ≡ calls_if_constructor table.now method block.now }
{
    match block.items {
        None => true,
        Some(items) => !is_constructor(table, method) || calls_this(&begins_of(items)),
    }
}

/// The same of a method whose block is the first one.
fn next_calls(table: &Table, method: MethodId, blocks: &[MethodBlock]) -> bool
    ensures { result ≡ next_calls table.now method blocks.now }
{
    let [block, ..] = blocks else {
        return true;
    };
    calls_if_constructor(table, method, block)
}

/// The blocks behind the first one.
fn behind<'b, 'a>(blocks: &'b [MethodBlock<'a>]) -> &'b [MethodBlock<'a>]
    ensures { result.now ≡ behind_blocks blocks.now }
{
    let [_, more @ ..] = blocks else {
        return blocks;
    };
    more
}

/// Whether every written constructor calls another one by `this`.
fn all_call_this(table: &Table, methods: &[MethodId], blocks: &[MethodBlock]) -> bool
    ensures { result ≡ all_call table.now methods.now blocks.now }
{
    let mut left = blocks;
    for method in methods {
        if !next_calls(table, *method, left) {
            return false;
        }
        left = behind(left);
    }
    true
}

/// Where a written constructor or method stands in its class: whether it is the first constructor, where all of them call another one by `this`.
#[derive(Clone, Copy)]
struct WrittenBlock<'a> {
    method: MethodId,
    is_first: bool,
    items: &'a [Stmt],
}

fn initialised_by<'a>(
    alloc: Global,
    initialisers: &[Initialiser<'a>],
    runs: bool,
) -> Result<Items<Initialiser<'a>>, WantOfMemory>
    ensures { IfOk result (λ it. it ≡ initialised_by initialisers.now runs) }
{
    if runs {
        copied(alloc, initialisers)
    } else {
        Ok(Items::new(alloc))
    }
}

fn constructor_body<'a>(
    alloc: Global,
    node: ClassNode<'_, 'a>,
    initialisers: &[Initialiser<'a>],
    it: WrittenBlock<'a>,
) -> Result<MethodBody<'a>, WantOfMemory>
    ensures { IfOk result (λ b. b ≡ constructor_body node.entry.table.now node.entry.class initialisers.now it.entry.method it.entry.is_first it.entry.items.now) }
{
    let begins = begins_of(it.items);
    let runs = !calls_this(&begins) || it.is_first;
    let initialisers = initialised_by(alloc, initialisers, runs)?;
    Ok(MethodBody {
        method: it.method,
        begins: or_implied(node.table, node.class, begins),
        initialisers,
        rest: rest_of(&begins, it.items),
    })
}

fn plain_body<'a>(alloc: Global, method: MethodId, items: &'a [Stmt]) -> MethodBody<'a>
    ensures { result ≡ plain_body method items.now }
{
    MethodBody {
        method,
        begins: Begins::WithNone,
        initialisers: Items::new(alloc),
        rest: items,
    }
}

fn written_body<'a>(
    alloc: Global,
    node: ClassNode<'_, 'a>,
    initialisers: &[Initialiser<'a>],
    it: WrittenBlock<'a>,
) -> Result<MethodBody<'a>, WantOfMemory>
    ensures { IfOk result (λ b. b ≡ written_body node.entry.table.now node.entry.class initialisers.now it.entry.method it.entry.is_first it.entry.items.now) }
{
    if is_constructor(node.table, it.method) {
        constructor_body(alloc, node, initialisers, it)
    } else {
        Ok(plain_body(alloc, it.method, it.items))
    }
}

/// Adds the body of a written method, if it has one. Tells whether the first constructor is still to come.
fn push_written_body<'a>(
    alloc: Global,
    list: &mut Items<MethodBody<'a>>,
    node: ClassNode<'_, 'a>,
    initialisers: &[Initialiser<'a>],
    method: MethodId,
    is_first: bool,
    block: &MethodBlock<'a>,
) -> Result<bool, WantOfMemory>
    ensures bodies { OnOk result (list.new ≡ list.old ++ body_if node.entry.table.now node.entry.class initialisers.now method is_first block.now) }
    ensures first { IfOk result (λ r. r ≡ first_behind node.entry.table.now method is_first block.now) }
{
    match block.items {
        None => Ok(is_first),
        Some(items) => {
            let it = WrittenBlock {
                method,
                is_first,
                items,
            };
            list.push(written_body(alloc, node, initialisers, it)?)?;
            Ok(is_first && !is_constructor(node.table, method))
        }
    }
}

/// The same of a method whose block is the first one.
fn push_next_body<'a>(
    alloc: Global,
    list: &mut Items<MethodBody<'a>>,
    node: ClassNode<'_, 'a>,
    initialisers: &[Initialiser<'a>],
    method: MethodId,
    is_first: bool,
    blocks: &[MethodBlock<'a>],
) -> Result<bool, WantOfMemory>
    ensures bodies { OnOk result (list.new ≡ list.old ++ next_body node.entry.table.now node.entry.class initialisers.now method is_first blocks.now) }
    ensures first { IfOk result (λ r. r ≡ first_after node.entry.table.now method is_first blocks.now) }
{
    let [block, ..] = blocks else {
        return Ok(is_first);
    };
    push_written_body(alloc, list, node, initialisers, method, is_first, block)
}

#[tactic(auto, using(crate::proofs::Joining::joining))]
fn push_written_bodies<'a>(
    alloc: Global,
    list: &mut Items<MethodBody<'a>>,
    node: ClassNode<'_, 'a>,
    initialisers: &[Initialiser<'a>],
    methods: &[MethodId],
    blocks: &[MethodBlock<'a>],
) -> Result<(), WantOfMemory>
    ensures { OnOk result (list.new ≡ list.old ++ written_in node.entry.table.now node.entry.class initialisers.now (all_call node.entry.table.now methods.now blocks.now) methods.now blocks.now) }
{
    let mut is_first = all_call_this(node.table, methods, blocks);
    let mut left = blocks;
    for method in methods {
        is_first = push_next_body(alloc, list, node, initialisers, *method, is_first, left)?;
        left = behind(left);
    }
    Ok(())
}

/// The bodies of the written methods and constructors of a class.
#[tactic(auto, using(crate::proofs::Parts::written))]
pub fn push_written<'a>(
    alloc: Global,
    list: &mut Items<MethodBody<'a>>,
    node: ClassNode<'_, 'a>,
) -> Result<(), WantOfMemory>
    ensures { OnOk result (list.new ≡ list.old ++ (let T = node.entry.table.now in let ms = node.entry.members.now in let ns = written T (methods_of T node.entry.class) in written_bodies T node.entry.class (initialisers T node.entry.class ms false) (all_call_this T ns (blocks ms)) ns (blocks ms))) }
{
    let initialisers = initialisers(alloc, node, false)?;
    let methods = written(alloc, node.table, class_methods(node.table, node.class))?;
    let blocks = blocks(alloc, node.members)?;
    push_written_bodies(
        alloc,
        list,
        node,
        initialisers.slice(),
        methods.slice(),
        blocks.slice(),
    )
}

/// The body of a method, if it is one that no source writes: a static initialiser runs the static initialisers (JLS 12.4.2), and an implied constructor the others behind
/// the call of a constructor of the superclass (JLS 8.8.9, 12.5).
fn push_implied_body<'a>(
    alloc: Global,
    list: &mut Items<MethodBody<'a>>,
    node: ClassNode<'_, 'a>,
    method: MethodId,
    kind: Option<MethodKind>,
) -> Result<(), WantOfMemory>
    ensures { OnOk result (list.new ≡ list.old ++ implied_body node.entry.table.now node.entry.class node.entry.members.now method kind) }
{
    match kind {
        Some(MethodKind::StaticInitialiser) => list.push(MethodBody {
            method,
            begins: Begins::WithNone,
            initialisers: initialisers(alloc, node, true)?,
            rest: &[],
        }),
        Some(MethodKind::ImpliedConstructor) => list.push(MethodBody {
            method,
            begins: implied(node.table, node.class),
            initialisers: initialisers(alloc, node, false)?,
            rest: &[],
        }),
        Some(MethodKind::Method) => Ok(()),
        Some(MethodKind::Constructor) => Ok(()),
        None => Ok(()),
    }
}

/// The bodies of the methods of a class that no source writes.
#[tactic(auto, using(crate::proofs::Joining::joining))]
pub fn push_implied<'a>(
    alloc: Global,
    list: &mut Items<MethodBody<'a>>,
    node: ClassNode<'_, 'a>,
) -> Result<(), WantOfMemory>
    ensures { OnOk result (list.new ≡ list.old ++ implied_bodies node.entry.table.now node.entry.class node.entry.members.now (methods_of node.entry.table.now node.entry.class)) }
{
    for method in class_methods(node.table, node.class) {
        push_implied_body(alloc, list, node, *method, method_kind(node.table, *method))?;
    }
    Ok(())
}

//! The initialisers of a class (JLS 8.3.2, 8.6, 8.7), in their order. The fields of the table go along with the variables that declare them.
ghost use Rattle.std.specs.Prelude.{◌≡◌, ◌++◌, IfOk, OnOk};
ghost use Rattle.jc_tree.specs.declared.statement.Member.{out-Member};
ghost use Rattle.jc_exprs_parts_spec.specs.Fields.{is_static_field};
ghost use Rattle.jc_stmts_spec.specs.Bodies.{behind_member, initialisers, initialisers_in, of_field, of_member, those};
ghost use Rattle.jc_stmts_bodies.specs.Flat.{behind_declared, behind_in, behind_var, declared_in, of_var, vars_in};

use crate::body::{Initialiser, InitialiserForm};
use jc_rules::{Items, WantOfMemory};
use jc_tree::{Init, LocalVars, Member, Var};
use jc_types::{ClassId, FieldId, Table, class_fields, field_modifiers};
use std::alloc::Global;
use std::marker::Model;

/// A class of the table, with the members that its source has.
#[derive(Clone, Copy)]
pub struct ClassNode<'t, 'a> {
    pub table: &'t Table,
    pub class: ClassId,
    pub members: &'a [Member],
}

/// An initialiser, and whether it is static.
#[derive(Drop)]
pub struct Stood<'a> {
    is_static: bool,
    form: InitialiserForm<'a>,
}

impl<'a> Model for Stood<'a> {
    ghost use Rattle.jc_stmts_spec.specs.Bodies as spec;
    ghost use Rattle.jc_stmts_bodies.specs.Seen.{initialiser_seen};
    ghost use Rattle.jc_tree.specs.contracts.expression.Init as init;
    ghost use Rattle.jc_tree.specs.contracts.statement.Stmt as stmt;
    ghost use Rattle.std.specs.Coded.{codes};

    ghost Value = { spec.Stood };

    ghost coded = { Prim.hlevel (codes, init.the_row.coded, stmt.the_row.coded) };

    ghost view = { λ s. record { is_static = s.is_static; it = initialiser_seen s.form } };
}

fn is_static_field(table: &Table, field: FieldId) -> bool
    ensures { result ≡ is_static_field table.now field }
{
    match field_modifiers(table, field) {
        Some(modifiers) => modifiers.is_static,
        None => false,
    }
}

fn push_field<'a>(
    table: &Table,
    list: &mut Items<Stood<'a>>,
    field: FieldId,
    init: &'a Option<Init>,
) -> Result<(), WantOfMemory>
    ensures { OnOk result (list.new ≡ list.old ++ of_field table.now field init.now) }
{
    match init {
        None => Ok(()),
        Some(init) => list.push(Stood {
            is_static: is_static_field(table, field),
            form: InitialiserForm::OfField(field, init),
        }),
    }
}

/// The initialiser of a variable, whose field is the first one. Tells the fields that are left.
fn push_var<'a, 'f>(
    table: &Table,
    list: &mut Items<Stood<'a>>,
    var: &'a Var,
    fields: &'f [FieldId],
) -> Result<&'f [FieldId], WantOfMemory>
    ensures items { OnOk result (list.new ≡ list.old ++ of_var table.now var.now fields.now) }
    ensures left { IfOk result (λ r. r.now ≡ behind_var fields.now) }
{
    let [field, more @ ..] = fields else {
        return Ok(fields);
    };
    push_field(table, list, *field, &var.init)?;
    Ok(more)
}

#[tactic(auto, using(crate::proofs::Joining::joining))]
fn push_vars<'a, 'f>(
    table: &Table,
    list: &mut Items<Stood<'a>>,
    vars: &'a [Var],
    fields: &'f [FieldId],
) -> Result<&'f [FieldId], WantOfMemory>
    ensures items { OnOk result (list.new ≡ list.old ++ vars_in table.now vars.now fields.now) }
    ensures left { IfOk result (λ r. behind_in vars.now fields.now ≡ r.now) }
{
    let mut left = fields;
    for var in vars {
        left = push_var(table, list, var, left)?;
    }
    Ok(left)
}

/// The initialisers of variables that are declared together.
#[tactic(auto, using(crate::proofs::Joining::joining))]
fn push_declared<'a, 'f>(
    table: &Table,
    list: &mut Items<Stood<'a>>,
    vars: &'a LocalVars,
    fields: &'f [FieldId],
) -> Result<&'f [FieldId], WantOfMemory>
    ensures items { OnOk result (list.new ≡ list.old ++ declared_in table.now vars.now fields.now) }
    ensures left { IfOk result (λ r. behind_declared vars.now fields.now ≡ r.now) }
{
    let left = push_var(table, list, &vars.first, fields)?;
    push_vars(table, list, vars.more.slice(), left)
}

#[tactic(auto, using(crate::proofs::Joining::joining, crate::proofs::Parts::vars, crate::proofs::Parts::members))]
fn push_member<'a, 'f>(
    table: &Table,
    list: &mut Items<Stood<'a>>,
    member: &'a Member,
    fields: &'f [FieldId],
) -> Result<&'f [FieldId], WantOfMemory>
    ensures items { OnOk result (list.new ≡ list.old ++ of_member table.now (out-Member member.now) fields.now) }
    ensures left { IfOk result (λ r. behind_member (out-Member member.now) fields.now ≡ r.now) }
{
    match member {
        Member::Fields(vars) => push_declared(table, list, vars, fields),
        Member::Initialiser {
            at,
            is_static,
            items,
        } => {
            list.push(Stood {
                is_static: *is_static,
                form: InitialiserForm::OfBlock {
                    at: *at,
                    items: items.slice(),
                },
            })?;
            Ok(fields)
        }
        Member::Semicolon { .. } => Ok(fields),
        Member::Bare { .. } => Ok(fields),
        Member::Method { .. } => Ok(fields),
        Member::Nested(_) => Ok(fields),
    }
}

#[tactic(auto, using(crate::proofs::Joining::joining))]
fn push_members<'a>(
    table: &Table,
    list: &mut Items<Stood<'a>>,
    members: &'a [Member],
    fields: &[FieldId],
) -> Result<(), WantOfMemory>
    ensures { OnOk result (list.new ≡ list.old ++ initialisers_in table.now members.now fields.now) }
{
    let mut left = fields;
    for member in members {
        left = push_member(table, list, member, left)?;
    }
    Ok(())
}

fn those<'a>(
    alloc: Global,
    list: &[Stood<'a>],
    is_static: bool,
) -> Result<Items<Initialiser<'a>>, WantOfMemory>
    ensures { IfOk result (λ it. it ≡ those is_static list.now) }
{
    let mut found = Items::new(alloc);
    for stood in list {
        if stood.is_static == is_static {
            found.push(Initialiser { form: stood.form })?;
        }
    }
    Ok(found)
}

/// The static initialisers of a class, or the others.
pub fn initialisers<'a>(
    alloc: Global,
    node: ClassNode<'_, 'a>,
    is_static: bool,
) -> Result<Items<Initialiser<'a>>, WantOfMemory>
    ensures { IfOk result (λ it. it ≡ initialisers node.entry.table.now node.entry.class node.entry.members.now is_static) }
{
    let mut list = Items::new(alloc);
    let fields = class_fields(node.table, node.class);
    push_members(node.table, &mut list, node.members, fields)?;
    those(alloc, list.slice(), is_static)
}

/// A copy of some initialisers.
pub fn copied<'a>(
    alloc: Global,
    list: &[Initialiser<'a>],
) -> Result<Items<Initialiser<'a>>, WantOfMemory>
    ensures { IfOk result (λ it. it ≡ list.now) }
{
    let mut copy = Items::new(alloc);
    for initialiser in list {
        copy.push(Initialiser {
            form: initialiser.form,
        })?;
    }
    Ok(copy)
}

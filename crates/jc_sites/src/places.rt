//! Declarations with their trees and where they stand. A number of a class, method or scope is its place in its list.
use crate::parts::{BodyPart, MethodForm};
use jc_declares::ScopeHead;
use jc_rules::Items;
use jc_tree::{DeclarationHead, Import, LocalVars, Package, TypeParam, Var};
use jc_types::Owner;
use std::marker::Model;

/// A source: its file, its scope, and what stands before its types (JLS 7.3).
#[derive(Drop)]
pub struct UnitSite<'a> {
    pub file: u64,
    pub scope: u64,
    pub package: &'a Option<Package>,
    pub imports: &'a [Import],
}

impl<'a> Model for UnitSite<'a> {
    ghost use Rattle.jc_declares.specs.Sites as site;

    ghost Value = { site.UnitSite };

    ghost view = { λ u. record { file = u.file; scope = u.scope; «package» = u.«package».now; imports = u.imports.now } };
}

/// A class or interface: its file and unit, the classes round it from the innermost outwards, whether it is a member of an interface,
/// and the scope of its body.
#[derive(Drop)]
pub struct ClassSite<'a> {
    pub file: u64,
    pub unit: u64,
    pub round: Items<u64>,
    pub of_interface: bool,
    pub scope: u64,
    pub head: &'a DeclarationHead,
}

impl<'a> Model for ClassSite<'a> {
    ghost use Rattle.jc_declares.specs.Sites as site;
    ghost use Rattle.jc_tree.specs.contracts.statement.DeclarationHead as head_type;
    ghost use Rattle.std.specs.Coded.{codes};

    ghost Value = { site.ClassSite };

    ghost coded = { Prim.hlevel (codes, head_type.the_row.coded) };

    ghost view = { λ c. record { file = c.file; unit = c.unit; round = c.round; of_interface = c.of_interface; scope = c.scope; head = c.head.now } };
}

/// A method, written or implied, by its class and its scope.
#[derive(Drop)]
pub struct MethodSite<'a> {
    pub class: u64,
    pub scope: u64,
    pub form: MethodForm<'a>,
}

impl<'a> Model for MethodSite<'a> {
    ghost use Rattle.jc_declares.specs.Sites as site;
    ghost use Rattle.jc_sites.specs.Seen.{form_seen};
    ghost use Rattle.jc_tree.specs.contracts.statement.MethodHead as head_type;
    ghost use Rattle.std.specs.Coded.{codes};

    ghost Value = { site.MethodSite };

    ghost coded = { Prim.hlevel (codes, head_type.the_row.coded) };

    ghost view = { λ m. record { class = m.class; scope = m.scope; form = form_seen m.form } };
}

/// One of the variables that are declared together, in the scope of its class.
#[derive(Drop)]
pub struct FieldSite<'a> {
    pub class: u64,
    pub scope: u64,
    pub vars: &'a LocalVars,
    pub var: &'a Var,
}

impl<'a> Model for FieldSite<'a> {
    ghost use Rattle.jc_declares.specs.Sites as site;
    ghost use Rattle.jc_tree.specs.contracts.statement.LocalVars as vars_type;
    ghost use Rattle.jc_tree.specs.contracts.statement.Var as var_type;
    ghost use Rattle.std.specs.Coded.{codes};

    ghost Value = { site.FieldSite };

    ghost coded = { Prim.hlevel (codes, vars_type.the_row.coded, var_type.the_row.coded) };

    ghost view = { λ f. record { class = f.class; scope = f.scope; vars = f.vars.now; var = f.var.now } };
}

/// A type parameter of a class or a method.
#[derive(Drop)]
pub struct VariableSite<'a> {
    pub owner: Owner,
    pub param: &'a TypeParam,
}

impl<'a> Model for VariableSite<'a> {
    ghost use Rattle.jc_declares.specs.Sites as site;
    ghost use Rattle.jc_tree.specs.contracts.statement.TypeParam as param_type;
    ghost use Rattle.std.specs.Coded.{codes};

    ghost Value = { site.VariableSite };

    ghost coded = { Prim.hlevel (codes, param_type.the_row.coded) };

    ghost view = { λ v. record { owner = v.owner; param = v.param.now } };
}

/// A part of a body, and where it stands.
#[derive(Drop)]
pub struct UseSite<'a> {
    pub class: u64,
    pub scope: u64,
    pub is_static: bool,
    pub part: BodyPart<'a>,
}

impl<'a> Model for UseSite<'a> {
    ghost use Rattle.jc_declares.specs.Sites as site;
    ghost use Rattle.jc_sites.specs.Seen.{part_seen};
    ghost use Rattle.jc_tree.specs.contracts.types.TypeTree as type_tree;
    ghost use Rattle.jc_tree.specs.contracts.types.ClassTree as class_tree;
    ghost use Rattle.jc_tree.specs.contracts.types.BaseTree as base_tree;
    ghost use Rattle.jc_tree.specs.contracts.statement.Modifier as modifier_type;
    ghost use Rattle.std.specs.Coded.{codes};

    ghost Value = { site.UseSite };

    ghost coded = { Prim.hlevel (codes, type_tree.the_row.coded, class_tree.the_row.coded, base_tree.the_row.coded, modifier_type.the_row.coded) };

    ghost view = { λ u. record { class = u.class; scope = u.scope; is_static = u.is_static; part = part_seen u.part } };
}

/// The declarations of a program, in their order.
#[derive(Drop)]
pub struct Sites<'a> {
    pub units: Items<UnitSite<'a>>,
    pub classes: Items<ClassSite<'a>>,
    pub methods: Items<MethodSite<'a>>,
    pub fields: Items<FieldSite<'a>>,
    pub variables: Items<VariableSite<'a>>,
    pub scopes: Items<ScopeHead>,
    pub uses: Items<UseSite<'a>>,
}

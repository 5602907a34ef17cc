//! Calls behind a point, unqualified ones, and those through `super` (JLS 15.12.1).
ghost use Rattle.std.specs.Prelude.{◌≡◌, ◌<◌, [], IfOk, OnOk, Some, length, map};
ghost use Rattle.std.specs.Option.{option_copied};
ghost use Rattle.jc_members.specs.Named.{IsMethodIndex};
ghost use Rattle.jc_typed.specs.Parts.{Grows};
ghost use Rattle.jc_exprs_nodes_spec.specs.Told.{ran};
ghost use Rattle.jc_exprs_nodes.specs.Walks.{IsPart, has, known, now};
ghost use Rattle.jc_exprs_gathering.specs.Gathered.{AllParts};
ghost use Rattle.jc_types.specs.Accessors.{supers_of};
ghost use Rattle.jc_exprs_parts_spec.specs.Names.{Value, first_super, super_type};
ghost use Rattle.jc_exprs_spec.specs.Calls.{OfSense, OnSuper, asked, call_here, call_on, call_super, called, super_called};
ghost use Rattle.jc_exprs_calls.specs.Receivers.{IsReceiver, receiver_of};
ghost use Rattle.jc_exprs_senses.specs.Sensed.{sense_of};
ghost use Rattle.jc_exprs_worlds.specs.Scenes.{IsWorldly, world_of};
ghost use Rattle.jc_exprs_choosing.specs.Choosing.{TypeBelow, type_if};
ghost use Rattle.jc_exprs_calls.specs.Placing.{AreBefore, IsBefore, before_of, has_before};

use crate::asking::{Methods, Named};
use crate::breaking::instance_break;
use crate::invoking::called;
use crate::receivers::ReceiverAt;
use crate::searching::receiver_here;
use jc_exprs_nodes::{Part, Walk, broken, refused};
use jc_exprs_senses::NameSense;
use jc_exprs_settling::{SettledPart, settled};
use jc_exprs_worlds::Scene;
use jc_rules::{Place, WantOfMemory};
use jc_tree::TypeArg;
use jc_typed::Nodes;
use jc_types::{ClassId, Table, Ty, class_supers, copy_type};
use std::alloc::Global;

/// What stands before the point of a call: a value, whose members are asked before the arguments have their types, as it is evaluated before them (JLS 15.7.4, 15.12.4.1); or what a name means that
/// is no value.
#[derive(Drop)]
pub enum BeforeAt {
    OfValue(SettledPart),
    OfSense(NameSense),
}

/// A value before a point: its settled type; none where two unrelated classes meet (624).
#[tactic(auto, using(jc_exprs_nodes_spec::proofs::Runs::runs, crate::proofs::Asks::asks), unfolding(jc_exprs_worlds::specs::Scenes::world_of))]
pub fn asked_value(
    alloc: Global,
    scene: &Scene,
    walk: &mut Walk,
    part: Part,
) -> Result<Option<BeforeAt>, WantOfMemory>
    requires { IsPart walk.old.nodes part }
    ensures state { OnOk result ((ran (asked (world_of scene.now) (Value (known walk.old.nodes part.at))) (now walk.old)).state ≡ now walk.new) }
    ensures value { IfOk result (λ b. (ran (asked (world_of scene.now) (Value (known walk.old.nodes part.at))) (now walk.old)).has ≡ has_before walk.new.nodes b) }
    ensures within { IfOk result (λ b. AreBefore walk.new.nodes b) }
    ensures grows { Grows walk.old.nodes walk.new.nodes }
{
    match settled(alloc, scene.table, walk, part)? {
        None => Ok(None),
        Some(value) => Ok(Some(BeforeAt::OfValue(value))),
    }
}

// A call behind what a name means that is no value: of a class; 602 for a package.
#[tactic(auto, unfolding(jc_exprs_spec::specs::Calls::call_on))]
fn call_on_sense(
    alloc: Global,
    methods: &Methods,
    walk: &mut Walk,
    sense: NameSense,
    named: &Named,
    explicit: &[TypeArg],
) -> Result<u32, WantOfMemory>
    requires index { IsMethodIndex methods.now.scene.now.table.now methods.now.index.now }
    requires scene { IsWorldly methods.now.scene.now }
    requires args { AllParts walk.old.nodes named.now.args.now }
    requires target { TypeBelow walk.old.nodes named.now.target }
    ensures state { OnOk result ((ran (call_on (world_of methods.now.scene.now) named.now.place named.now.name.now explicit.now (type_if walk.old.nodes named.now.target) (OfSense (sense_of sense)) (map (known walk.old.nodes) named.now.args.now)) (now walk.old)).state ≡ now walk.new) }
    ensures value { IfOk result (λ at. (ran (call_on (world_of methods.now.scene.now) named.now.place named.now.name.now explicit.now (type_if walk.old.nodes named.now.target) (OfSense (sense_of sense)) (map (known walk.old.nodes) named.now.args.now)) (now walk.old)).has ≡ has walk.new.nodes at) }
    ensures within { IfOk result (λ at. at < length walk.new.nodes) }
    ensures grows { Grows walk.old.nodes walk.new.nodes }
{
    match sense {
        NameSense::Class(class) => {
            called(
                alloc,
                methods,
                walk,
                ReceiverAt::OnClass(class),
                named,
                explicit,
            )
        }
        NameSense::Fields { .. } => broken(walk, 602, named.place),
        NameSense::Package(_) => broken(walk, 602, named.place),
        NameSense::Nothing => broken(walk, 602, named.place),
    }
}

/// A call behind a point: of a value, or of a class; 602 for a package.
#[tactic(auto, unfolding(jc_exprs_spec::specs::Calls::call_on))]
pub fn call_on(
    alloc: Global,
    methods: &Methods,
    walk: &mut Walk,
    before: BeforeAt,
    named: &Named,
    explicit: &[TypeArg],
) -> Result<u32, WantOfMemory>
    requires index { IsMethodIndex methods.now.scene.now.table.now methods.now.index.now }
    requires scene { IsWorldly methods.now.scene.now }
    requires before { IsBefore walk.old.nodes before }
    requires args { AllParts walk.old.nodes named.now.args.now }
    requires target { TypeBelow walk.old.nodes named.now.target }
    ensures state { OnOk result ((ran (call_on (world_of methods.now.scene.now) named.now.place named.now.name.now explicit.now (type_if walk.old.nodes named.now.target) (before_of walk.old.nodes before) (map (known walk.old.nodes) named.now.args.now)) (now walk.old)).state ≡ now walk.new) }
    ensures value { IfOk result (λ at. (ran (call_on (world_of methods.now.scene.now) named.now.place named.now.name.now explicit.now (type_if walk.old.nodes named.now.target) (before_of walk.old.nodes before) (map (known walk.old.nodes) named.now.args.now)) (now walk.old)).has ≡ has walk.new.nodes at) }
    ensures within { IfOk result (λ at. at < length walk.new.nodes) }
    ensures grows { Grows walk.old.nodes walk.new.nodes }
{
    match before {
        BeforeAt::OfValue(value) => {
            called(
                alloc,
                methods,
                walk,
                ReceiverAt::OnValue(value),
                named,
                explicit,
            )
        }
        BeforeAt::OfSense(sense) => call_on_sense(alloc, methods, walk, sense, named, explicit),
    }
}

/// An unqualified call: of a method of the first of the classes round the place that has one of the name; 603 where none has.
#[tactic(auto, using(crate::proofs::Finds::finds))]
pub fn call_here(
    alloc: Global,
    methods: &Methods,
    walk: &mut Walk,
    named: &Named,
) -> Result<u32, WantOfMemory>
    requires index { IsMethodIndex methods.now.scene.now.table.now methods.now.index.now }
    requires scene { IsWorldly methods.now.scene.now }
    requires args { AllParts walk.old.nodes named.now.args.now }
    requires target { TypeBelow walk.old.nodes named.now.target }
    ensures state { OnOk result ((ran (call_here (world_of methods.now.scene.now) named.now.place named.now.name.now (type_if walk.old.nodes named.now.target) (map (known walk.old.nodes) named.now.args.now)) (now walk.old)).state ≡ now walk.new) }
    ensures value { IfOk result (λ at. (ran (call_here (world_of methods.now.scene.now) named.now.place named.now.name.now (type_if walk.old.nodes named.now.target) (map (known walk.old.nodes) named.now.args.now)) (now walk.old)).has ≡ has walk.new.nodes at) }
    ensures within { IfOk result (λ at. at < length walk.new.nodes) }
    ensures grows { Grows walk.old.nodes walk.new.nodes }
{
    match receiver_here(alloc, methods, named.place, named.name)? {
        None => broken(walk, 603, named.place),
        Some(receiver) => called(alloc, methods, walk, receiver, named, &[]),
    }
}

#[tactic(auto, unfolding(jc_exprs_worlds::specs::Scenes::world_of))]
fn super_type<'a>(table: &'a Table, class: ClassId) -> Option<&'a Ty>
    ensures { option_copied result ≡ first_super (supers_of table.now class) }
{
    match class_supers(table, class) {
        [] => None,
        [first, ..] => Some(first),
    }
}

// The instance of the place, as one of its superclass.
#[tactic(auto, using(jc_typed::proofs::Growing::growing))]
fn push_super(
    alloc: Global,
    nodes: &mut Nodes,
    place: Place,
    ty: &Ty,
) -> Result<ReceiverAt, WantOfMemory>
    ensures value { IfOk result (λ r. receiver_of nodes.new r ≡ OnSuper place ty.now) }
    ensures there { IfOk result (λ r. IsReceiver nodes.new r) }
    ensures grows { Grows nodes.old nodes.new }
{
    let ty = copy_type(alloc, ty)?;
    let ty = nodes.push_type(ty)?;
    Ok(ReceiverAt::OnSuper { place, ty })
}

// A call of a method of the superclass.
#[tactic(auto, using(jc_typed::proofs::Growing::growing, jc_exprs_gathering::proofs::Gathering::gathering, crate::proofs::Receives::targets))]
fn called_above(
    alloc: Global,
    methods: &Methods,
    walk: &mut Walk,
    ty: &Ty,
    named: &Named,
    explicit: &[TypeArg],
) -> Result<u32, WantOfMemory>
    requires index { IsMethodIndex methods.now.scene.now.table.now methods.now.index.now }
    requires scene { IsWorldly methods.now.scene.now }
    requires args { AllParts walk.old.nodes named.now.args.now }
    requires target { TypeBelow walk.old.nodes named.now.target }
    ensures state { OnOk result ((ran (called (world_of methods.now.scene.now) named.now.place (OnSuper named.now.place ty.now) named.now.name.now explicit.now (map (known walk.old.nodes) named.now.args.now) (type_if walk.old.nodes named.now.target)) (now walk.old)).state ≡ now walk.new) }
    ensures value { IfOk result (λ at. (ran (called (world_of methods.now.scene.now) named.now.place (OnSuper named.now.place ty.now) named.now.name.now explicit.now (map (known walk.old.nodes) named.now.args.now) (type_if walk.old.nodes named.now.target)) (now walk.old)).has ≡ has walk.new.nodes at) }
    ensures within { IfOk result (λ at. at < length walk.new.nodes) }
    ensures grows { Grows walk.old.nodes walk.new.nodes }
{
    let receiver = push_super(alloc, &mut walk.nodes, named.place, ty)?;
    called(alloc, methods, walk, receiver, named, explicit)
}

// A call of a method that the superclass has; 603 where there is no superclass.
fn super_called(
    alloc: Global,
    methods: &Methods,
    walk: &mut Walk,
    named: &Named,
    explicit: &[TypeArg],
) -> Result<u32, WantOfMemory>
    requires index { IsMethodIndex methods.now.scene.now.table.now methods.now.index.now }
    requires scene { IsWorldly methods.now.scene.now }
    requires args { AllParts walk.old.nodes named.now.args.now }
    requires target { TypeBelow walk.old.nodes named.now.target }
    ensures state { OnOk result ((ran (super_called (world_of methods.now.scene.now) named.now.place named.now.name.now explicit.now (type_if walk.old.nodes named.now.target) (map (known walk.old.nodes) named.now.args.now) (super_type (world_of methods.now.scene.now))) (now walk.old)).state ≡ now walk.new) }
    ensures value { IfOk result (λ at. (ran (super_called (world_of methods.now.scene.now) named.now.place named.now.name.now explicit.now (type_if walk.old.nodes named.now.target) (map (known walk.old.nodes) named.now.args.now) (super_type (world_of methods.now.scene.now))) (now walk.old)).has ≡ has walk.new.nodes at) }
    ensures within { IfOk result (λ at. at < length walk.new.nodes) }
    ensures grows { Grows walk.old.nodes walk.new.nodes }
{
    match super_type(methods.scene.table, methods.scene.class) {
        None => broken(walk, 603, named.place),
        Some(ty) => called_above(alloc, methods, walk, ty, named, explicit),
    }
}

/// A call through `super`: 611 and 620 where there is no instance.
#[tactic(auto, using(crate::proofs::Asks::supers), unfolding(jc_exprs_worlds::specs::Scenes::world_of))]
pub fn call_super(
    alloc: Global,
    methods: &Methods,
    walk: &mut Walk,
    named: &Named,
    explicit: &[TypeArg],
) -> Result<u32, WantOfMemory>
    requires index { IsMethodIndex methods.now.scene.now.table.now methods.now.index.now }
    requires scene { IsWorldly methods.now.scene.now }
    requires args { AllParts walk.old.nodes named.now.args.now }
    requires target { TypeBelow walk.old.nodes named.now.target }
    ensures state { OnOk result ((ran (call_super (world_of methods.now.scene.now) named.now.place named.now.name.now explicit.now (type_if walk.old.nodes named.now.target) (map (known walk.old.nodes) named.now.args.now)) (now walk.old)).state ≡ now walk.new) }
    ensures value { IfOk result (λ at. (ran (call_super (world_of methods.now.scene.now) named.now.place named.now.name.now explicit.now (type_if walk.old.nodes named.now.target) (map (known walk.old.nodes) named.now.args.now)) (now walk.old)).has ≡ has walk.new.nodes at) }
    ensures within { IfOk result (λ at. at < length walk.new.nodes) }
    ensures grows { Grows walk.old.nodes walk.new.nodes }
{
    match instance_break(methods.scene.here, named.place) {
        Some(break_of) => refused(walk, break_of),
        None => super_called(alloc, methods, walk, named, explicit),
    }
}

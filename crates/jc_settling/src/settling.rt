//! The order in which classes are settled.
ghost use Rattle.std.specs.Prelude.{◌≡◌, ◌<◌, None, IfOk, OnOk, length, replicate};
ghost use Rattle.jc_declares.specs.Knowing.{is_some, known};
ghost use Rattle.jc_looking.specs.Members.{known_in};
ghost use Rattle.jc_looking.specs.Scenes.{IsScene};
ghost use Rattle.jc_settling.specs.Members.{AreMembers};
ghost use Rattle.jc_settling.specs.Steps.{IsSound, Stepped, Passed, if_did};

use crate::members::members_of;
use crate::settled::{Outcome, Sources, settled};
use jc_imports::Imports;
use jc_looking::{Inherited, known_of};
use jc_name_index::Indexed;
use jc_rules::{Items, WantOfMemory};
use std::alloc::Global;

/// How far the work at a class is: it isn't begun, waits for what the class needs, or is done.
#[derive(Clone, Copy)]
enum Stage {
    Open,
    Entered,
    Done,
}

fn is_known(known: &[Option<Inherited>], class: u64) -> bool
    ensures { result ≡ is_some (known_in known.now class) }
{
    match known_of(known, class) {
        Some(_) => true,
        None => false,
    }
}

/// Settles a class, if it isn't known and can be. Tells whether it did.
fn step(
    alloc: Global,
    sources: &Sources,
    known: &mut Vec<Option<Inherited>>,
    class: u64,
) -> Result<bool, WantOfMemory>
    requires scene { IsScene sources.now.declared.heads.now sources.now.declared.index.now sources.now.imports.now }
    requires members { AreMembers sources.now.declared.heads.now sources.now.members.now.lists.items }
    requires place { class < length known.old.items }
    ensures { IfOk result (λ did. Stepped sources.now.declared.heads.now known.old.items known.new.items class did) }
{
    if is_known(known.as_slice(), class) {
        return Ok(false);
    }
    match settled(alloc, sources, known.as_slice(), class)? {
        Outcome::Inherits(inherited) => {
            known[class as usize] = Some(inherited);
            Ok(true)
        }
        Outcome::Needs(_) => Ok(false),
    }
}

fn if_did(did: bool, changed: bool) -> bool
    ensures { result ≡ if_did did changed }
{
    if did { true } else { changed }
}

/// A step for each class. Tells whether one of them did anything.
fn pass_over(
    alloc: Global,
    sources: &Sources,
    known: &mut Vec<Option<Inherited>>,
) -> Result<bool, WantOfMemory>
    requires scene { IsScene sources.now.declared.heads.now sources.now.declared.index.now sources.now.imports.now }
    requires members { AreMembers sources.now.declared.heads.now sources.now.members.now.lists.items }
    ensures length { OnOk result (length known.new.items ≡ length known.old.items) }
    ensures sound { OnOk result (IsSound sources.now.declared.heads.now known.old.items → IsSound sources.now.declared.heads.now known.new.items) }
    ensures passed { IfOk result (λ changed. Passed sources.now.declared.heads.now known.old.items known.new.items (length known.old.items) changed) }
{
    let mut changed = false;
    for class in 0..known.len() {
        let did = step(alloc, sources, known, class as u64)?;
        changed = if_did(did, changed);
    }
    Ok(changed)
}

fn is_open(stages: &[Stage], class: u64) -> bool {
    matches!(stages.get(class as usize), Some(Stage::Open))
}

fn is_done(stages: &[Stage], class: u64) -> bool {
    matches!(stages.get(class as usize), Some(Stage::Done))
}

/// Lists those of these classes that aren't known and at which no work is begun. Tells whether there are any.
fn push_open(
    known: &[Option<Inherited>],
    stages: &[Stage],
    needed: &[u64],
    stack: &mut Vec<u64>,
) -> Result<bool, WantOfMemory> {
    let mut found = false;
    for class in needed {
        if is_open(stages, *class) && !is_known(known, *class) {
            stack.push(*class)?;
            found = true;
        }
    }
    Ok(found)
}

fn set_stage(stages: &mut Vec<Stage>, class: u64, stage: Stage) {
    if let Some(place) = stages.get_mut(class as usize) {
        *place = stage;
    }
}

/// Settles a class, or else lists what it needs and has to be settled before. Tells whether the work at it is done.
#[tactic(auto, using(crate::proofs::Stepping::sound_set))]
fn visit(
    alloc: Global,
    sources: &Sources,
    known: &mut Vec<Option<Inherited>>,
    stages: &[Stage],
    stack: &mut Vec<u64>,
    class: u64,
) -> Result<bool, WantOfMemory>
    requires scene { IsScene sources.now.declared.heads.now sources.now.declared.index.now sources.now.imports.now }
    requires members { AreMembers sources.now.declared.heads.now sources.now.members.now.lists.items }
    requires place { class < length known.old.items }
    ensures length { OnOk result (length known.new.items ≡ length known.old.items) }
    ensures sound { OnOk result (IsSound sources.now.declared.heads.now known.old.items → IsSound sources.now.declared.heads.now known.new.items) }
{
    match settled(alloc, sources, known.as_slice(), class)? {
        Outcome::Inherits(inherited) => {
            known[class as usize] = Some(inherited);
            Ok(true)
        }
        Outcome::Needs(needed) => {
            let waits = push_open(known.as_slice(), stages, needed.slice(), stack)?;
            Ok(!waits)
        }
    }
}

/// Goes on with the class on top of the stack. Work at a class that is entered again comes to its end: then what it needs is done, as far as it can be.
fn turn(
    alloc: Global,
    sources: &Sources,
    known: &mut Vec<Option<Inherited>>,
    stages: &mut Vec<Stage>,
    stack: &mut Vec<u64>,
    top: u64,
) -> Result<(), WantOfMemory>
    requires scene { IsScene sources.now.declared.heads.now sources.now.declared.index.now sources.now.imports.now }
    requires members { AreMembers sources.now.declared.heads.now sources.now.members.now.lists.items }
    ensures length { OnOk result (length known.new.items ≡ length known.old.items) }
    ensures sound { OnOk result (IsSound sources.now.declared.heads.now known.old.items → IsSound sources.now.declared.heads.now known.new.items) }
{
    if top >= known.len() as u64 || is_done(stages.as_slice(), top) {
        stack.pop();
        return Ok(());
    }
    set_stage(stages, top, Stage::Entered);
    if visit(alloc, sources, known, stages.as_slice(), stack, top)? {
        set_stage(stages, top, Stage::Done);
        stack.pop();
    }
    Ok(())
}

/// Settles a class after what it needs, as far as that can be.
fn chase(
    alloc: Global,
    sources: &Sources,
    known: &mut Vec<Option<Inherited>>,
    stages: &mut Vec<Stage>,
    class: u64,
) -> Result<(), WantOfMemory>
    requires scene { IsScene sources.now.declared.heads.now sources.now.declared.index.now sources.now.imports.now }
    requires members { AreMembers sources.now.declared.heads.now sources.now.members.now.lists.items }
    ensures length { OnOk result (length known.new.items ≡ length known.old.items) }
    ensures sound { OnOk result (IsSound sources.now.declared.heads.now known.old.items → IsSound sources.now.declared.heads.now known.new.items) }
{
    let mut stack = Vec::new(alloc);
    stack.push(class)?;
    'turns: for _turn in 0..u64::MAX {
        let Some(top) = stack.as_slice().last().copied() else {
            return Ok(());
        };
        turn(alloc, sources, known, stages, &mut stack, top)?;
    }
    Ok(())
}

fn open_stages(alloc: Global, count: usize) -> Result<Vec<Stage>, WantOfMemory> {
    let mut stages = Vec::new(alloc);
    for _class in 0..count {
        stages.push(Stage::Open)?;
    }
    Ok(stages)
}

/// Settles each class after what it needs, as far as that can be.
fn chase_all(
    alloc: Global,
    sources: &Sources,
    known: &mut Vec<Option<Inherited>>,
) -> Result<(), WantOfMemory>
    requires scene { IsScene sources.now.declared.heads.now sources.now.declared.index.now sources.now.imports.now }
    requires members { AreMembers sources.now.declared.heads.now sources.now.members.now.lists.items }
    ensures length { OnOk result (length known.new.items ≡ length known.old.items) }
    ensures sound { OnOk result (IsSound sources.now.declared.heads.now known.old.items → IsSound sources.now.declared.heads.now known.new.items) }
{
    let mut stages = open_stages(alloc, known.len())?;
    for class in 0..known.len() {
        chase(alloc, sources, known, &mut stages, class as u64)?;
    }
    Ok(())
}

fn nothing_known(alloc: Global, count: usize) -> Result<Vec<Option<Inherited>>, WantOfMemory>
    ensures { IfOk result (λ it. it.items ≡ replicate count None) }
{
    let mut known = Vec::new(alloc);
    for _class in 0..count {
        known.push(None)?;
    }
    Ok(known)
}

/// All that is known of the classes of a program. The passes behind the first work settle nothing further: they are its proof.
#[tactic(auto, using(crate::proofs::Stepping::begun))]
fn settle_all(alloc: Global, sources: &Sources) -> Result<Vec<Option<Inherited>>, WantOfMemory>
    requires scene { IsScene sources.now.declared.heads.now sources.now.declared.index.now sources.now.imports.now }
    requires members { AreMembers sources.now.declared.heads.now sources.now.members.now.lists.items }
    ensures { IfOk result (λ it. known_in it.items ≡ known sources.now.declared.heads.now) }
{
    let mut known = nothing_known(alloc, sources.declared.heads.classes.len())?;
    chase_all(alloc, sources, &mut known)?;
    'passes: loop {
        if !pass_over(alloc, sources, &mut known)? {
            return Ok(known);
        }
    }
}

/// What each class inherits, or nothing where it needs itself, or what needs itself.
pub fn settle(
    alloc: Global,
    declared: &Indexed,
    imports: &Imports,
) -> Result<Items<Option<Inherited>>, WantOfMemory>
    requires { IsScene declared.now.heads.now declared.now.index.now imports.now }
    ensures { IfOk result (λ it. known_in it ≡ known declared.now.heads.now) }
{
    let members = members_of(alloc, declared.heads)?;
    let sources = Sources {
        declared: *declared,
        imports,
        members: &members,
    };
    let known = settle_all(alloc, &sources)?;
    Ok(Items::of(known))
}

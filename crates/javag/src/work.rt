//! The work on a job whose sources are read: its class, the class file, and the run.
ghost use Rattle.std.specs.Prelude.{◌≡◌, ◌≢◌, ◌≤◌, ◌⊎◌, [], ◌∷◌, ◌++◌, IfOk, IfErr, OnOk, OnErr, IsErrOf, MatchOption, Some, None, Ok, true, false, codes, List, ℕ};
ghost use Rattle.jc_front.specs.Stages.{IsBreak};
ghost use Rattle.jc_machine.specs.Start.{start_of};
ghost use Rattle.jc_machine.specs.Table.{State};
ghost use Rattle.jc_outside.specs.Told.{Rose, Stays, Gets, GetsPart};
ghost use Rattle.jc_small.specs.Same.{run_from};
ghost use Rattle.javag.specs.Causes.{HasOutcome, outcome_of, IsUnbuilt, IsClassOf, NamesMain, class_pairs, Worked, not_built as the_refusal};

use crate::outcome::Outcome;
use jc_class_out::{ClassModel, class_bytes};
use jc_front::tokens_of;
use jc_machine::{Machine, Ran};
use jc_outside::{ClassShelf, Keys, OutsideError, Paper};
use jc_rules::{Items, Place, Refusal, Rule, Stop, Text, WantOfMemory};
use jc_small::compile;
use jc_words::Job;
use std::alloc::Global;
use std::mem::forget;

/// The class of a job's one source. None where the job isn't small.
#[tactic(auto, using(crate::proofs::Stages::one_reading))]
fn job_class(
    alloc: Global,
    job: &Job,
    texts: &[Items<u8>],
) -> Result<Option<ClassModel>, Stop<Refusal>>
    ensures class { IfOk result (λ class. MatchOption class (IsUnbuilt job.now texts.now) (λ class. IsClassOf job.now texts.now class)) }
    ensures refused { IfErr result (λ stop. IsBreak texts.now stop) }
{
    let lists = tokens_of(alloc, texts)?;
    let class = match lists.slice() {
        [tokens] if job.arguments.is_empty() => compile(alloc, tokens.slice()),
        _ => Ok(None),
    };
    // The tokens stand until the program ends: to free those of a large source takes time.
    forget(lists);
    Ok(class?)
}

/// Whether the job names a class to run that isn't `Main`.
fn names_other(job: &Job) -> bool
    ensures yes { result ≡ true → (class : List ℕ) × (job.now.run ≡ Some class) × (class ≢ codes "Main") }
    ensures no { result ≡ false → NamesMain job.now.run }
{
    match &job.run {
        Some(class) => class.str() != "Main",
        None => false,
    }
}

fn make_refusal() -> Refusal
    ensures { result ≡ the_refusal }
{
    Refusal {
        rule: Rule::known(900),
        place: Place { file: 1, at: 0 },
        have: 0,
    }
}

/// Puts the class file into the job's folder, if it has one.
fn put_class<C: ClassShelf>(
    alloc: Global,
    job: &Job,
    bytes: &[u8],
    classes: &mut C,
) -> Result<(), OutsideError>
    ensures ok { OnOk result (Gets (C.pairs classes.old) (class_pairs job.now.out bytes.now) (C.pairs classes.new)) }
    ensures err { OnErr result (Stays (C.pairs classes.old) (C.pairs classes.new)) }
    ensures cause { IsErrOf result OutsideError.Failed → Rose (C.faults classes.old) (C.faults classes.new) × ((folder : List ℕ) × (job.now.out ≡ Some folder)) }
{
    match &job.out {
        Some(folder) => {
            let folder = folder.str();
            let name = format!(in alloc; "{folder}/Main.class")?;
            classes.put(name.as_str(), bytes)
        }
        None => Ok(()),
    }
}

/// Runs the class from its main.
fn run_main<K: Keys, O: Paper>(
    alloc: Global,
    class: ClassModel,
    steps: u64,
    keys: &mut K,
    out: &mut O,
) -> Result<Ran, WantOfMemory>
    requires { start_of (class ∷ []) (codes "Main") [] ≢ None }
    ensures ends { (start : State) → start_of (class ∷ []) (codes "Main") [] ≡ Some start → IfOk result (λ ran. ran ≢ Ran.OutFault →
        (ran ≡ (run_from class start steps).ending) × Gets (O.out out.old) (run_from class start steps).output (O.out out.new)) }
    ensures fault { result ≡ Ok Ran.OutFault → Rose (O.faults out.old) (O.faults out.new) }
    ensures part { (start : State) → start_of (class ∷ []) (codes "Main") [] ≡ Some start → GetsPart (O.out out.old) (run_from class start steps).output (O.out out.new) }
    ensures keys { keys.new ≡ keys.old }
{
    let mut classes = Items::new(alloc);
    classes.push(class)?;
    let main = Text::copied(alloc, "Main")?;
    match Machine::load(alloc, classes, &main, &[]) {
        Ok(mut machine) => machine.run_for(steps, keys, out),
        Err(Stop::Refused(_)) => unreachable!(),
        Err(Stop::WantOfMemory) => Err(WantOfMemory),
    }
}

/// The outcome of a run. The machine has no other ending yet.
fn ran_outcome(ran: &Ran) -> Outcome
    requires { HasOutcome ran.now }
    ensures { result ≡ outcome_of ran.now }
{
    match ran {
        Ran::Ended => Outcome::Done,
        Ran::StepsReached => Outcome::StepsReached,
        Ran::OutFault => Outcome::OutFault,
        Ran::Threw { .. } | Ran::Exited { .. } | Ran::KeysFault | Ran::Stuck => unreachable!(),
    }
}

/// Makes the class file, puts it where the job asks for it, and runs it where the job asks for that.
fn produce<C: ClassShelf, K: Keys, O: Paper>(
    alloc: Global,
    job: &Job,
    texts: &[Items<u8>],
    class: ClassModel,
    classes: &mut C,
    keys: &mut K,
    out: &mut O,
) -> Outcome
    requires class { IsClassOf job.now texts.now class }
    requires main { NamesMain job.now.run }
    ensures worked { Worked job.now texts.now (record {
      classes = record { before = C.pairs classes.old; after = C.pairs classes.new; faults_before = C.faults classes.old; faults_after = C.faults classes.new };
      out = record { before = O.out out.old; after = O.out out.new; faults_before = O.faults out.old; faults_after = O.faults out.new };
    }) result }
    ensures keys { keys.new ≡ keys.old }
{
    let Ok(bytes) = class_bytes(alloc, &class) else {
        return Outcome::WantOfMemory;
    };
    match put_class(alloc, job, bytes.slice(), classes) {
        Ok(()) => (),
        Err(OutsideError::Failed) => return Outcome::ClassFault { written: 0 },
        Err(OutsideError::WantOfMemory) => return Outcome::WantOfMemory,
    }
    match &job.run {
        None => Outcome::Done,
        Some(_) => match run_main(alloc, class, job.steps, keys, out) {
            Ok(ran) => ran_outcome(&ran),
            Err(WantOfMemory) => Outcome::WantOfMemory,
        },
    }
}

/// Works through a job whose sources have these texts.
pub fn work<C: ClassShelf, K: Keys, O: Paper>(
    alloc: Global,
    job: &Job,
    texts: &[Items<u8>],
    classes: &mut C,
    keys: &mut K,
    out: &mut O,
) -> Outcome
    ensures worked { Worked job.now texts.now (record {
      classes = record { before = C.pairs classes.old; after = C.pairs classes.new; faults_before = C.faults classes.old; faults_after = C.faults classes.new };
      out = record { before = O.out out.old; after = O.out out.new; faults_before = O.faults out.old; faults_after = O.faults out.new };
    }) result }
    ensures keys { keys.new ≡ keys.old }
{
    match job_class(alloc, job, texts) {
        Ok(Some(class)) => {
            if names_other(job) {
                return Outcome::NoMain;
            }
            produce(alloc, job, texts, class, classes, keys, out)
        }
        Ok(None) => Outcome::Refused {
            refusal: make_refusal(),
        },
        Err(Stop::Refused(refusal)) => Outcome::Refused { refusal },
        Err(Stop::WantOfMemory) => Outcome::WantOfMemory,
    }
}

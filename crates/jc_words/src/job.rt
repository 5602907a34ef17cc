//! A job of javag, from the words of the command line.
ghost use Rattle.std.specs.Prelude.{◌≡◌, IfOk, Err, MatchOption, map, string_bytes};
ghost use Rattle.std.specs.List.{filter};
ghost use Rattle.std.specs.Option.{option_copied};
ghost use Rattle.jc_words.specs.Line.{Line};
ghost use Rattle.jc_words.specs.Job.{IsJob, IsFault, is_source, not, folder_of, HasSteps, HasNoSteps, JobOf, FaultOf};
ghost use Rattle.jc_words.specs.Values.{HasValues};

use crate::UsageFault;
use crate::steps::steps_of;
use crate::values::{Values, read_values};
use jc_rules::{Items, Stop, Text, WantOfMemory};
use std::alloc::Global;

/// What javag is asked to do.
#[derive(Clone, Debug, Drop)]
pub struct Job {
    /// The folder that class files are put into, if any is.
    pub out: Option<Text>,
    /// The binary name of the class to run, if one is to run.
    pub run: Option<Text>,
    /// How many steps the program may take.
    pub steps: u64,
    /// The names of the sources, in order.
    pub files: Items<Text>,
    /// The arguments of the program.
    pub arguments: Items<Text>,
}

fn is_source(word: &Text) -> bool
    ensures { result ≡ is_source word.now }
{
    word.str().as_bytes().ends_with(b".java")
}

fn sources(alloc: Global, words: &[Text]) -> Result<Items<Text>, WantOfMemory>
    ensures { IfOk result (λ sources. sources ≡ filter is_source words.now) }
{
    let mut sources = Items::new(alloc);
    for word in words {
        if is_source(word) {
            sources.push(word.clone()?)?;
        }
    }
    Ok(sources)
}

fn arguments(alloc: Global, words: &[Text]) -> Result<Items<Text>, WantOfMemory>
    ensures { IfOk result (λ arguments. arguments ≡ filter (λ word. not (is_source word)) words.now) }
{
    let mut arguments = Items::new(alloc);
    for word in words {
        if !is_source(word) {
            arguments.push(word.clone()?)?;
        }
    }
    Ok(arguments)
}

/// How many steps a program may take where no number is given.
const USUAL_STEPS: u64 = 1_000_000_000;

/// The number of steps. None where the text of the option is no number of steps.
fn read_steps(alloc: Global, text: Option<&Text>) -> Result<Option<u64>, WantOfMemory>
    ensures { IfOk result (λ steps. MatchOption steps (HasNoSteps (option_copied text.entry)) (λ n. HasSteps (option_copied text.entry) n)) }
{
    match text {
        None => Ok(Some(USUAL_STEPS)),
        Some(text) => steps_of(alloc, text.str()),
    }
}

/// The folder for class files: as it is named, or the current one where nothing is to run either.
fn folder(
    alloc: Global,
    out: Option<Text>,
    run: &Option<Text>,
) -> Result<Option<Text>, WantOfMemory>
    ensures { IfOk result (λ folder. folder ≡ folder_of out run.now) }
{
    match (out, run) {
        (Some(out), _) => Ok(Some(out)),
        (None, Some(_)) => Ok(None),
        (None, None) => Ok(Some(Text::copied(alloc, ".")?)),
    }
}

/// The job of a line that says these values.
fn job_of(alloc: Global, values: Values) -> Result<Job, Stop<UsageFault>>
    ensures job { IfOk result (λ job. (line : Line) → HasValues line values → JobOf line job) }
    ensures fault { (fault : UsageFault) → result ≡ Err (Stop.Refused fault) → (line : Line) → HasValues line values → FaultOf line fault }
{
    let Values {
        out,
        run,
        steps,
        words,
    } = values;
    let files = sources(alloc, words.slice())?;
    if files.is_empty() {
        return Err(Stop::Refused(UsageFault::NoSource));
    }
    let arguments = arguments(alloc, words.slice())?;
    if run.is_none() && !arguments.is_empty() {
        return Err(Stop::Refused(UsageFault::Stray));
    }
    let Some(steps) = read_steps(alloc, steps.as_ref())? else {
        return Err(Stop::Refused(UsageFault::Steps));
    };
    let out = folder(alloc, out, &run)?;
    Ok(Job {
        out,
        run,
        steps,
        files,
        arguments,
    })
}

/// The job that words are, where the first word is the program's name, or their first fault.
pub fn read_words(alloc: Global, words: &[String]) -> Result<Job, Stop<UsageFault>>
    ensures job { IfOk result (λ job. IsJob (map string_bytes words.now) job) }
    ensures only { IfOk result (λ job. (other : Job) → IsJob (map string_bytes words.now) other → other ≡ job) }
    ensures fault { (fault : UsageFault) → result ≡ Err (Stop.Refused fault) → IsFault (map string_bytes words.now) fault }
    ensures no_job { (fault : UsageFault) → result ≡ Err (Stop.Refused fault) → (job : Job) → IsJob (map string_bytes words.now) job → ⊥ }
{
    match read_values(alloc, words)? {
        Some(values) => job_of(alloc, values),
        None => Err(Stop::Refused(UsageFault::Line)),
    }
}

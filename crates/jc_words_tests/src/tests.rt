//! Command lines, and what they ask for.
use jc_rules::Stop;
use jc_words::{Job, UsageFault, read_words};
use std::alloc::{AllocError, Global};
use std::process::Abort;
use std::test::Fail;

fn words(alloc: Global, line: &str) -> Result<Vec<String>, AllocError> {
    let mut words = Vec::new(alloc);
    for word in line.split(' ') {
        words.push(String::from_str(alloc, word)?)?;
    }
    Ok(words)
}

fn job(alloc: Global, line: &str) -> Result<Result<Job, Stop<UsageFault>>, AllocError> {
    Ok(read_words(alloc, words(alloc, line)?.as_slice()))
}

fn refuses(rt: &impl Abort, alloc: Global, line: &str, fault: UsageFault) -> Result<(), Fail> {
    match job(alloc, line)? {
        Err(Stop::Refused(found)) => assert!(rt; found == fault),
        _ => assert!(rt; false),
    }
    Ok(())
}

#[test]
fn words_that_are_no_job_have_their_first_fault(rt: HostRuntime) -> Result<(), Fail> {
    let alloc = rt.alloc();
    for line in [
        "javag --out",
        "javag --run= A.java",
        "javag --help A.java",
        "javag --out --run Main A.java",
        "javag --run A --run B A.java",
        "javag -x A.java",
    ] {
        refuses(&rt, alloc, line, UsageFault::Line)?;
    }
    refuses(&rt, alloc, "javag", UsageFault::NoSource)?;
    refuses(&rt, alloc, "javag x.txt", UsageFault::NoSource)?;
    refuses(&rt, alloc, "javag Main.java x", UsageFault::Stray)?;
    for line in [
        "javag --run Main --steps x Main.java",
        "javag --steps 007 Main.java",
        "javag --steps=9223372036854775808 Main.java",
        "javag --steps +1 Main.java",
    ] {
        refuses(&rt, alloc, line, UsageFault::Steps)?;
    }
    Ok(())
}

#[test]
fn words_that_are_a_job_say_what_is_to_do(rt: HostRuntime) -> Result<(), Fail> {
    let line = "javag a --run=Main b.java --steps 9223372036854775807 - -- --out c.java";
    let Ok(job) = job(rt.alloc(), line)? else {
        return Err(Fail::from("a job"));
    };
    assert!(rt; job.out.is_none());
    let run = job.run.as_ref().ok_or("a class")?;
    assert_eq!(rt; run.str(), "Main");
    assert_eq!(rt; job.steps, 9223372036854775807);
    assert_eq!(rt; job.files.len(), 2);
    assert_eq!(rt; job.files.get(1).ok_or("a source")?.str(), "c.java");
    assert_eq!(rt; job.arguments.len(), 3);
    assert_eq!(rt; job.arguments.get(2).ok_or("an argument")?.str(), "--out");
    Ok(())
}

#[test]
fn class_files_go_into_the_current_folder_where_nothing_else_is_asked(
    rt: HostRuntime,
) -> Result<(), Fail> {
    let Ok(job) = job(rt.alloc(), "javag A.java")? else {
        return Err(Fail::from("a job"));
    };
    assert_eq!(rt; job.out.as_ref().ok_or("a folder")?.str(), ".");
    assert!(rt; job.run.is_none());
    assert_eq!(rt; job.steps, 1_000_000_000);
    Ok(())
}

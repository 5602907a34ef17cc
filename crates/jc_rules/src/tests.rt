//! Lines, texts of rules, texts, and trees of boxes and lists.
use crate::{Boxed, Items, Rule, Stage, Text, WantOfMemory, line_of, text_of};
use std::alloc::Global;
use std::test::Fail;

#[test]
fn lines_end_by_feed_by_return_or_by_both(rt: HostRuntime) {
    let text = b"a\nb\rc\r\nd";
    assert_eq!(rt; line_of(text, 0), 1);
    assert_eq!(rt; line_of(text, 1), 1);
    assert_eq!(rt; line_of(text, 2), 2);
    assert_eq!(rt; line_of(text, 4), 3);
    assert_eq!(rt; line_of(text, 6), 3);
    assert_eq!(rt; line_of(text, 7), 4);
    assert_eq!(rt; line_of(text, 9), 4);
}

#[test]
fn rules_know_their_texts_and_stages(rt: HostRuntime) -> Result<(), Fail> {
    let rule = Rule::from_number(403).ok_or("403")?;
    assert_eq!(rt; text_of(rule), "super bound outside the declared bound");
    assert!(rt; rule.stage() == Stage::Types);
    let last = Rule::from_number(905).ok_or("905")?;
    assert_eq!(rt; text_of(last), "too many dimensions");
    assert!(rt; last.stage() == Stage::Limits);
    assert!(rt; Rule::from_number(627).is_none());
    assert_eq!(rt; Rule::known(900).number(), 900);
    Ok(())
}

#[test]
fn texts_are_copied_whole_beyond_what_the_value_holds(rt: HostRuntime) -> Result<(), Fail> {
    let short = Text::copied(rt.alloc(), "SafeVarargs...")?;
    let long = Text::copied(rt.alloc(), "java.lang.StringBuilder")?;
    assert_eq!(rt; short.str(), "SafeVarargs...");
    assert_eq!(rt; long.str(), "java.lang.StringBuilder");
    assert_eq!(rt; long.clone()?.str(), "java.lang.StringBuilder");
    assert_eq!(rt; Text::empty().str(), "");
    Ok(())
}

// Two types that hold each other through lists and boxes, as the trees of a compiler do.

#[derive(Clone, Debug, Drop, PartialEq, Eq)]
#[cycle(family)]
enum Branch {
    Leaf(Text),
    Fork(Boxed<Branch>, Boxed<Crown>),
}

#[derive(Clone, Debug, Drop, PartialEq, Eq)]
#[cycle(family)]
struct Crown {
    branches: Items<Branch>,
}

#[cycle(leaves)]
fn leaves(branch: &Branch) -> u64 {
    match branch {
        Branch::Leaf(_) => 1,
        Branch::Fork(left, right) => leaves(left.get()).saturating_add(leaves_of(right.get())),
    }
}

#[cycle(leaves)]
fn leaves_of(crown: &Crown) -> u64 {
    let mut sum: u64 = 0;
    for branch in crown.branches.slice() {
        sum = sum.saturating_add(leaves(branch));
    }
    sum
}

fn leaf(alloc: Global) -> Result<Branch, WantOfMemory> {
    Ok(Branch::Leaf(Text::copied(alloc, "leaf")?))
}

#[test]
fn lists_and_boxes_hold_the_types_that_hold_them(rt: HostRuntime) -> Result<(), Fail> {
    let mut branches = Items::new(rt.alloc());
    branches.push(leaf(rt.alloc())?)?;
    branches.push(leaf(rt.alloc())?)?;
    let left = Boxed::new(rt.alloc(), leaf(rt.alloc())?)?;
    let right = Boxed::new(rt.alloc(), Crown { branches })?;
    let fork = Branch::Fork(left, right);
    assert_eq!(rt; leaves(&fork), 3);
    let copy = fork.clone()?;
    assert!(rt; copy == fork);
    Ok(())
}

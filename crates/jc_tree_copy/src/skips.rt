//! What stands between braces that are skipped.
ghost use Rattle.std.specs.Prelude.{◌≡◌, IfOk};

use crate::plain::copy_token;
use crate::together::added;
use jc_rules::{Items, WantOfMemory};
use jc_tree::{Skip, SkipPart};
use std::alloc::Global;

#[cycle(skip_copies)]
fn copy_skip(alloc: Global, skip: &Skip) -> Result<Skip, WantOfMemory>
    ensures { IfOk result (λ copy. copy ≡ skip.now) }
{
    Ok(Skip {
        parts: copy_skip_parts(alloc, skip.parts.slice())?,
    })
}

#[cycle(skip_copies)]
fn copy_skip_part(alloc: Global, part: &SkipPart) -> Result<SkipPart, WantOfMemory>
    ensures { IfOk result (λ copy. copy ≡ part.now) }
{
    match part {
        SkipPart::Inner(skip) => Ok(SkipPart::Inner(copy_skip(alloc, skip)?)),
        SkipPart::Token(token) => Ok(SkipPart::Token(copy_token(alloc, token)?)),
    }
}

#[cycle(skip_copies)]
fn copy_skip_parts(alloc: Global, parts: &[SkipPart]) -> Result<Items<SkipPart>, WantOfMemory>
    ensures { IfOk result (λ copy. copy ≡ parts.now) }
{
    let mut copies = Items::new(alloc);
    for i in 0..parts.len() {
        copies = added(copies, copy_skip_part(alloc, &parts[i]))?;
    }
    Ok(copies)
}

pub fn copy_skips(alloc: Global, skips: &[Skip]) -> Result<Items<Skip>, WantOfMemory>
    ensures { IfOk result (λ copy. copy ≡ skips.now) }
{
    let mut copies = Items::new(alloc);
    for i in 0..skips.len() {
        copies = added(copies, copy_skip(alloc, &skips[i]))?;
    }
    Ok(copies)
}

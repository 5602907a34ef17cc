//! What stands between braces that are skipped.
ghost use Rattle.std.specs.Prelude.{◌≡◌, ◌↔◌, IsTrue};

use crate::plain::same_token;
use jc_tree::{Skip, SkipPart};

#[cycle(same_skips)]
fn same_skip(a: &Skip, b: &Skip) -> bool
    ensures { IsTrue result ↔ (a.now ≡ b.now) }
{
    same_skip_parts(a.parts.slice(), b.parts.slice())
}

#[cycle(same_skips)]
fn same_skip_part(a: &SkipPart, b: &SkipPart) -> bool
    ensures { IsTrue result ↔ (a.now ≡ b.now) }
{
    match (a, b) {
        (SkipPart::Inner(it), SkipPart::Inner(other)) => same_skip(it, other),
        (SkipPart::Token(it), SkipPart::Token(other)) => same_token(it, other),
        _ => false,
    }
}

#[cycle(same_skips)]
fn same_skip_parts(xs: &[SkipPart], ys: &[SkipPart]) -> bool
    ensures { IsTrue result ↔ (xs.now ≡ ys.now) }
{
    if xs.len() != ys.len() {
        return false;
    }
    for i in 0..xs.len() {
        if !same_skip_part(&xs[i], &ys[i]) {
            return false;
        }
    }
    true
}

pub fn same_skips(xs: &[Skip], ys: &[Skip]) -> bool
    ensures { IsTrue result ↔ (xs.now ≡ ys.now) }
{
    if xs.len() != ys.len() {
        return false;
    }
    for i in 0..xs.len() {
        if !same_skip(&xs[i], &ys[i]) {
            return false;
        }
    }
    true
}

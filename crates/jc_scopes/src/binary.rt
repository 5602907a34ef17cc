//! Binary names with points (JLS 13.1).
ghost use Rattle.std.specs.Prelude.{◌≡◌, ◌++◌, IfOk, OnOk, string_bytes};
ghost use Rattle.jc_declares.specs.Heads.{unit_of, unit_package, package_of, round_of, with_dollars, binary_of};
ghost use Rattle.jc_scopes.specs.Entries.{with_point};

use crate::entries::name_of;
use jc_declares::Heads;
use jc_rules::WantOfMemory;
use std::alloc::Global;

fn unit_of(heads: &Heads, class: u64) -> u64
    ensures { result ≡ unit_of heads.now class }
{
    match heads.classes.get(class as usize) {
        Some(head) => head.unit,
        None => 0,
    }
}

/// The package of a unit, which is empty for the unnamed one (JLS 7.4).
pub fn unit_package(heads: &Heads, unit: u64) -> &str
    ensures { result.now ≡ unit_package heads.now unit }
{
    match heads.units.get(unit as usize) {
        Some(head) => head.package.str(),
        None => "",
    }
}

/// The package of a class.
pub fn package_of(heads: &Heads, class: u64) -> &str
    ensures { result.now ≡ package_of heads.now class }
{
    unit_package(heads, unit_of(heads, class))
}

/// The classes round a class, from the innermost outwards.
pub fn round_of(heads: &Heads, class: u64) -> &[u64]
    ensures { result.now ≡ round_of heads.now class }
{
    match heads.classes.get(class as usize) {
        Some(head) => head.round.slice(),
        None => &[],
    }
}

/// Adds the names of classes, the last one first, with a dollar behind each.
fn push_round(text: &mut String, heads: &Heads, round: &[u64]) -> Result<(), WantOfMemory>
    ensures { OnOk result (string_bytes text.new ≡ string_bytes text.old ++ with_dollars heads.now round.now) }
{
    let mut left = round.len();
    while left > 0 {
        left -= 1;
        text.push_str(name_of(heads, round[left]))?;
        text.push_str("$")?;
    }
    Ok(())
}

fn push_package(text: &mut String, package: &str) -> Result<(), WantOfMemory>
    ensures { OnOk result (string_bytes text.new ≡ string_bytes text.old ++ with_point «package».now) }
{
    if package.is_empty() {
        return Ok(());
    }
    text.push_str(package)?;
    text.push_str(".")?;
    Ok(())
}

/// The binary name of a class with points.
#[tactic(auto, using(crate::proofs::Binaries::binary_told))]
pub fn binary_of(alloc: Global, heads: &Heads, class: u64) -> Result<String, WantOfMemory>
    ensures { IfOk result (λ it. string_bytes it ≡ binary_of heads.now class) }
{
    let mut text = String::new(alloc);
    push_package(&mut text, package_of(heads, class))?;
    push_round(&mut text, heads, round_of(heads, class))?;
    text.push_str(name_of(heads, class))?;
    Ok(text)
}

//! What is made of several copies, where each was made.
ghost use Rattle.std.specs.Prelude.{◌≡◌, [], ◌∷◌, ◌++◌, IfOk, IsOkAnd};

use jc_rules::{Boxed, Items, WantOfMemory};
use std::alloc::Global;

/// Both values, where both are there.
pub fn both<A: Drop, B: Drop>(
    first: Result<A, WantOfMemory>,
    second: Result<B, WantOfMemory>,
) -> Result<(A, B), WantOfMemory>
    ensures { IfOk result (λ made. (first ≡ Ok made.0) × (second ≡ Ok made.1)) }
{
    match (first, second) {
        (Ok(first), Ok(second)) => Ok((first, second)),
        _ => Err(WantOfMemory),
    }
}

/// The value in a box, where it is there.
pub fn boxed<T: Drop>(
    alloc: Global,
    value: Result<T, WantOfMemory>,
) -> Result<Boxed<T>, WantOfMemory>
    ensures { IfOk result (λ made. value ≡ Ok made) }
{
    Boxed::new(alloc, value?)
}

/// The items with one more behind them, where it is there.
pub fn added<T: Drop>(
    items: Items<T>,
    more: Result<T, WantOfMemory>,
) -> Result<Items<T>, WantOfMemory>
    ensures { IfOk result (λ made. IsOkAnd more (λ item. made ≡ items ++ item ∷ [])) }
{
    let item = more?;
    let mut items = items;
    items.push(item)?;
    Ok(items)
}

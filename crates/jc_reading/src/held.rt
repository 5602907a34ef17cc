//! Values that are held while something else may fail, and are let go where it does. Each function here is proved once for every type: to
//! prove that a tree may be dropped takes long where its type is known, and next to nothing where it isn't.
ghost use Rattle.std.specs.Prelude.{◌≡◌, ◌++◌, ◌∷◌, [], IfOk};

use jc_rules::{Boxed, Items, WantOfMemory};
use std::alloc::Global;

/// The fault, without the value that was held when it came.
pub fn without<T: Drop, F>(value: T, fault: F) -> F
    ensures { result ≡ fault }
{
    let _ = value;
    fault
}

/// The list with one more value behind it. The first one gets room for itself alone: most lists of trees have one part, and trees are large.
pub fn pushed<T: Drop>(list: Items<T>, value: T) -> Result<Items<T>, WantOfMemory>
    ensures { IfOk result (λ more. more ≡ list ++ value ∷ []) }
{
    let mut list = list.into_vec();
    if list.is_empty() {
        list.reserve_exact(1)?;
    }
    list.push(value)?;
    Ok(Items::of(list))
}

/// A value in a box, and the one that is held beside it.
pub fn boxed_beside<A: Drop, B: Drop>(
    alloc: Global,
    value: A,
    beside: B,
) -> Result<(Boxed<A>, B), WantOfMemory>
    ensures { IfOk result (λ both. (both.0 ≡ value) × (both.1 ≡ beside)) }
{
    let value = Boxed::new(alloc, value)?;
    Ok((value, beside))
}

/// Two values in boxes.
pub fn two_boxed<A: Drop, B: Drop>(
    alloc: Global,
    first: A,
    second: B,
) -> Result<(Boxed<A>, Boxed<B>), WantOfMemory>
    ensures { IfOk result (λ both. (both.0 ≡ first) × (both.1 ≡ second)) }
{
    let first = Boxed::new(alloc, first)?;
    let second = Boxed::new(alloc, second)?;
    Ok((first, second))
}

/// Three values in boxes.
pub fn three_boxed<A: Drop, B: Drop, C: Drop>(
    alloc: Global,
    first: A,
    second: B,
    third: C,
) -> Result<(Boxed<A>, Boxed<B>, Boxed<C>), WantOfMemory>
    ensures { IfOk result (λ all. (all.0 ≡ first) × (all.1 ≡ second) × (all.2 ≡ third)) }
{
    let (first, second) = two_boxed(alloc, first, second)?;
    let third = Boxed::new(alloc, third)?;
    Ok((first, second, third))
}

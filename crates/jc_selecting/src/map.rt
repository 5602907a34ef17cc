//! Maps from numbers, by the bits of the number from the lowest on. A map with one entry more shares with the one before it all but the
//! branches on the way to that entry.
ghost use Rattle.std.specs.Prelude.{◌≡◌, ◌≢◌, ◌<◌, ◌==◌, ℕ, IfOk, None, Some, if◌then◌else◌};
ghost use Rattle.jc_selecting.specs.Held.{content, even_of, half_of, held, held_on, odd_of, value_of};

use jc_rules::WantOfMemory;
use std::alloc::Global;
use std::rc::Rc;

/// What stands at zero, and what stands at odd and at even numbers, by their halves.
#[derive(Drop)]
pub struct Branch {
    pub value: Option<(u64, u64)>,
    pub odd: Option<Rc<Branch>>,
    pub even: Option<Rc<Branch>>,
}

/// A map from numbers to methods, each by the number of its class and its own there.
#[derive(Drop)]
pub struct SharedMap {
    pub root: Option<Rc<Branch>>,
}

// The same branch once more.
fn share(branch: &Option<Rc<Branch>>) -> Result<Option<Rc<Branch>>, WantOfMemory>
    ensures { IfOk result (λ b. content b ≡ content branch.now) }
{
    match branch {
        Some(branch) => Ok(Some(branch.clone()?)),
        None => Ok(None),
    }
}

fn value_at(branch: &Option<Rc<Branch>>) -> Option<(u64, u64)>
    ensures { result ≡ value_of (content branch.now) }
{
    match branch {
        Some(branch) => branch.value,
        None => None,
    }
}

fn share_odd(branch: &Option<Rc<Branch>>) -> Result<Option<Rc<Branch>>, WantOfMemory>
    ensures { IfOk result (λ b. content b ≡ odd_of (content branch.now)) }
{
    match branch {
        Some(branch) => share(&branch.odd),
        None => Ok(None),
    }
}

fn share_even(branch: &Option<Rc<Branch>>) -> Result<Option<Rc<Branch>>, WantOfMemory>
    ensures { IfOk result (λ b. content b ≡ even_of (content branch.now)) }
{
    match branch {
        Some(branch) => share(&branch.even),
        None => Ok(None),
    }
}

fn joined(
    alloc: Global,
    value: Option<(u64, u64)>,
    odd: Option<Rc<Branch>>,
    even: Option<Rc<Branch>>,
) -> Result<Option<Rc<Branch>>, WantOfMemory>
    ensures value { IfOk result (λ b. value_of (content b) ≡ value) }
    ensures odd { IfOk result (λ b. odd_of (content b) ≡ content odd) }
    ensures even { IfOk result (λ b. even_of (content b) ≡ content even) }
{
    let branch = Rc::new(alloc, Branch { value, odd, even })?;
    Ok(Some(branch))
}

// The branch with this value at zero.
fn with_zero(
    alloc: Global,
    branch: &Option<Rc<Branch>>,
    value: (u64, u64),
) -> Result<Option<Rc<Branch>>, WantOfMemory>
    ensures value { IfOk result (λ b. value_of (content b) ≡ Some value) }
    ensures odd { IfOk result (λ b. odd_of (content b) ≡ odd_of (content branch.now)) }
    ensures even { IfOk result (λ b. even_of (content b) ≡ even_of (content branch.now)) }
{
    let odd = share_odd(branch)?;
    let even = share_even(branch)?;
    joined(alloc, Some(value), odd, even)
}

// The branch with this at odd numbers.
fn with_odd(
    alloc: Global,
    branch: &Option<Rc<Branch>>,
    odd: Option<Rc<Branch>>,
) -> Result<Option<Rc<Branch>>, WantOfMemory>
    ensures value { IfOk result (λ b. value_of (content b) ≡ value_of (content branch.now)) }
    ensures odd { IfOk result (λ b. odd_of (content b) ≡ content odd) }
    ensures even { IfOk result (λ b. even_of (content b) ≡ even_of (content branch.now)) }
{
    let even = share_even(branch)?;
    joined(alloc, value_at(branch), odd, even)
}

// The branch with this at even numbers.
fn with_even(
    alloc: Global,
    branch: &Option<Rc<Branch>>,
    even: Option<Rc<Branch>>,
) -> Result<Option<Rc<Branch>>, WantOfMemory>
    ensures value { IfOk result (λ b. value_of (content b) ≡ value_of (content branch.now)) }
    ensures odd { IfOk result (λ b. odd_of (content b) ≡ odd_of (content branch.now)) }
    ensures even { IfOk result (λ b. even_of (content b) ≡ content even) }
{
    let odd = share_odd(branch)?;
    joined(alloc, value_at(branch), odd, even)
}

// The branch with this value at this number.
fn branch_with(
    alloc: Global,
    branch: &Option<Rc<Branch>>,
    key: u64,
    value: (u64, u64),
) -> Result<Option<Rc<Branch>>, WantOfMemory>
    ensures here { IfOk result (λ b. (n : ℕ) → key < n → held_on n (content b) key ≡ Some value) }
    ensures others { IfOk result (λ b. (n k : ℕ) → k ≢ key → held_on n (content b) k ≡ held_on n (content branch.now) k) }
{
    if key == 0 {
        let zeroth = with_zero(alloc, branch, value)?;
        return Ok(zeroth);
    }
    if key % 2 == 1 {
        let half = share_odd(branch)?;
        let odd = branch_with(alloc, &half, key / 2, value)?;
        let grown = with_odd(alloc, branch, odd)?;
        Ok(grown)
    } else {
        let other = share_even(branch)?;
        let even = branch_with(alloc, &other, key / 2, value)?;
        let wider = with_even(alloc, branch, even)?;
        Ok(wider)
    }
}

// What stands at the numbers that are odd, or even, as this one is.
fn half(branch: &Branch, key: u64) -> &Option<Rc<Branch>>
    ensures { content result.now ≡ half_of (Some branch.now) key }
{
    if key % 2 == 1 {
        &branch.odd
    } else {
        &branch.even
    }
}

impl SharedMap {
    /// A map without entries. It takes no memory.
    pub fn new() -> SharedMap
        ensures { (k : ℕ) → held (content result.root) k ≡ None }
    {
        SharedMap { root: None }
    }

    /// The same map once more.
    pub fn share(&self) -> Result<SharedMap, WantOfMemory>
        ensures { IfOk result (λ map. content map.root ≡ content self.now.root) }
    {
        let root = share(&self.root)?;
        Ok(SharedMap { root })
    }

    /// The map with this value at this number.
    pub fn with(
        &self,
        alloc: Global,
        key: u64,
        value: (u64, u64),
    ) -> Result<SharedMap, WantOfMemory>
        ensures { IfOk result (λ map. (k : ℕ) → held (content map.root) k ≡ (if k == key then Some value else held (content self.now.root) k)) }
    {
        let root = branch_with(alloc, &self.root, key, value)?;
        Ok(SharedMap { root })
    }

    /// What stands at a number.
    #[tactic(auto, using(crate::proofs::Bits::search_none))]
    pub fn find(&self, key: u64) -> Option<(u64, u64)>
        ensures { result ≡ held (content self.now.root) key }
    {
        let mut here = &self.root;
        let mut left = key;
        'bits: while let Some(branch) = here {
            if left == 0 {
                return branch.value;
            }
            here = half(branch.as_ref(), left);
            left /= 2;
        }
        None
    }
}

//! Lists of the erased parameters of methods (JLS 4.6).
ghost use Rattle.std.specs.Prelude.{◌≡◌, IfOk};
ghost use Rattle.std.specs.List.{list_any};
ghost use Rattle.jc_overriding.specs.Signatures.{same_all};
ghost use Rattle.jc_header_rules.specs.Clashes.{erased_params};
ghost use Rattle.jc_clashes.specs.Erasures.{joined, share_some};

use jc_members::{plain_all, same_all};
use jc_rules::{Items, WantOfMemory};
use jc_types::{MethodId, Table, Ty, copy_types, method_params};
use std::alloc::Global;

/// The erased parameters of several methods.
pub type Erasures = Items<Items<Ty>>;

/// The erasures of a method's parameters.
pub fn erased_params(alloc: Global, table: &Table, m: MethodId) -> Result<Items<Ty>, WantOfMemory>
    ensures { IfOk result (λ r. r ≡ erased_params table.now m) }
{
    plain_all(alloc, table, method_params(table, m))
}

/// Whether one of these lists of types has the same types.
pub fn is_one(e: &[Ty], fs: &[Items<Ty>]) -> bool
    ensures { result ≡ list_any (same_all e.now) fs.now }
{
    let mut rest = fs;
    while let [f, more @ ..] = rest {
        if same_all(e, f.slice()) {
            return true;
        }
        rest = more;
    }
    false
}

/// Whether one of these lists of types is one of those.
pub fn share_some(es: &[Items<Ty>], fs: &[Items<Ty>]) -> bool
    ensures { result ≡ share_some es.now fs.now }
{
    let mut rest = es;
    while let [e, more @ ..] = rest {
        if is_one(e.slice(), fs) {
            return true;
        }
        rest = more;
    }
    false
}

/// A copy of each.
pub fn copied(alloc: Global, es: &[Items<Ty>]) -> Result<Erasures, WantOfMemory>
    ensures { IfOk result (λ r. r ≡ es.now) }
{
    let mut out = Items::new(alloc);
    let mut rest = es;
    while let [e, more @ ..] = rest {
        out.push(copy_types(alloc, e.slice())?)?;
        rest = more;
    }
    Ok(out)
}

/// These, and each of those that isn't among them.
pub fn joined(alloc: Global, es: Erasures, fs: &[Items<Ty>]) -> Result<Erasures, WantOfMemory>
    ensures { IfOk result (λ r. r ≡ joined es fs.now) }
{
    let mut out = es;
    let mut rest = fs;
    while let [f, more @ ..] = rest {
        if !is_one(f.slice(), out.slice()) {
            out.push(copy_types(alloc, f.slice())?)?;
        }
        rest = more;
    }
    Ok(out)
}

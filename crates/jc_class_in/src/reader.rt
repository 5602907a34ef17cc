//! The whole of a class file (JVMS 4.1).
ghost use Rattle.std.specs.Prelude.{◌≡◌};
ghost use Rattle.jc_class_out.specs.declared.model.ClassModel.{ClassModel};
ghost use Rattle.jc_class_out.specs.Format.{IsClassFile, head_at, read};
ghost use Rattle.jc_class_in.specs.Faults.{Answers, Accepts, class_in};
ghost use Rattle.jc_class_in.specs.Gives.{Gives};

use crate::entries::pool;
use crate::fault::{ClassFault, fault};
use crate::members::members;
use crate::numbers::{Read, u2, u4};
use jc_class_out::{ClassModel, Flaw, Slot};
use jc_rules::Stop;
use std::alloc::Global;

/// The file up to the end of the pool: magic, minor and major version, and the pool.
#[tactic(auto, unfolding(jc_class_out::specs::Format::head_at))]
fn head(alloc: Global, bytes: &[u8]) -> Read<'_, Vec<Slot>>
    ensures { Gives (λ x. (x.0.items, x.1.now)) result (head_at bytes.now) }
{
    let (magic, rest) = u4(bytes)?;
    if magic != 0xCAFE_BABE {
        return Err(Stop::Refused(Flaw::Magic));
    }
    let (minor, rest) = u2(rest)?;
    if minor != 0 {
        return Err(Stop::Refused(Flaw::Version));
    }
    let (major, rest) = u2(rest)?;
    if major != 51 {
        return Err(Stop::Refused(Flaw::Version));
    }
    pool(alloc, rest)
}

/// The class of which the bytes are the file, or the first flaw.
#[tactic(auto, unfolding(jc_class_out::specs::Format::read))]
fn class(alloc: Global, bytes: &[u8]) -> Result<ClassModel, Stop<Flaw>>
    ensures { Gives (λ x. x) result (read bytes.now) }
{
    let (pool, rest) = head(alloc, bytes)?;
    let (class, rest) = members(alloc, &pool, rest)?;
    if !rest.is_empty() {
        return Err(Stop::Refused(Flaw::Trailing(rest.len())));
    }
    Ok(class)
}

/// The class of which the bytes are the file, or why they are none. It takes the time that the bytes and the class take.
pub fn read_class(alloc: Global, bytes: &[u8]) -> Result<ClassModel, Stop<ClassFault>>
    ensures read { Answers result (class_in bytes.now) }
    ensures accepted { (class : ClassModel) → IsClassFile bytes.now class → Accepts class result }
{
    match class(alloc, bytes) {
        Ok(class) => Ok(class),
        Err(Stop::Refused(flaw)) => Err(Stop::Refused(fault(bytes.len(), flaw))),
        Err(Stop::WantOfMemory) => Err(Stop::WantOfMemory),
    }
}

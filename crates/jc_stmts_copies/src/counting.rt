//! How often a finally block stands in the code.
ghost use Rattle.std.specs.Prelude.{◌≡◌, ◌<◌, length, IfOk};
ghost use Rattle.jc_typed.specs.Bulk.{capped};
ghost use Rattle.jc_typed.specs.Copies.{copies_of};
ghost use Rattle.jc_typed.specs.Parts.{catches_of, stmt_of};

use crate::exits::{exits_of_catches, exits_of_stmt};
use jc_rules::WantOfMemory;
use jc_typed::Nodes;
use std::alloc::Global;

/// How often the finally block of a `try` with this block and these catch clauses stands in the code: behind the normal end, behind an exception, and behind each jump
/// that leaves. The greatest u64 where that is more.
pub fn copies(alloc: Global, nodes: &Nodes, body: u32, catches: u32) -> Result<u64, WantOfMemory>
    requires body { body < length nodes.now }
    requires catches { catches < length nodes.now }
    ensures { IfOk result (λ n. n ≡ capped (copies_of (stmt_of nodes.now body) (catches_of nodes.now catches))) }
{
    let block = exits_of_stmt(alloc, nodes, &[], body)?;
    let clauses = exits_of_catches(alloc, nodes, &[], catches)?;
    Ok(block.saturating_add(clauses).saturating_add(2))
}

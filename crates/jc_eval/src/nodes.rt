//! The nodes of a body, one a line, each over nodes of lines before it. `E` as the second word makes an empty list; otherwise a list
//! names the list before it and its last member.
ghost use Rattle.std.specs.Prelude.{◌<◌, IfOk};
ghost use Rattle.jc_typed.specs.Parts.{BelowList};

use crate::parts::{joint, step};
use crate::types::type_of;
use crate::words::{number, number_of, operator, place, primitive_at, signed_of, small, word};
use crate::{Read, Unreadable, forms, statements};
use jc_rules::{Items, Place, Stop, WantOfMemory};
use jc_typed::{
    ArmsNode, Capture, CapturesNode, Case, CasesNode, CatchesNode, DeclaredNode, ExprNode,
    LinksNode, ListNode, NamesNode, Nodes, OperandNode, OpsNode, PlacesNode, StepsNode, StmtNode,
    VariableNode,
};
use jc_types::{CaptureId, ClassId, Constant, FieldId, Table};
use std::alloc::Global;

const NOWHERE: Place = Place { file: 1, at: 0 };

fn is_empty(words: &[&str]) -> bool {
    word(words, 1) == "E"
}

fn list(words: &[&str], count: usize) -> Read<ListNode>
    ensures { IfOk result (λ node. BelowList count node) }
{
    if is_empty(words) {
        return Ok(ListNode::Empty);
    }
    Ok(ListNode::More {
        before: place(words, 1, count)?,
        last: place(words, 2, count)?,
    })
}

fn text(alloc: Global, words: &[&str]) -> Result<Constant, WantOfMemory> {
    let mut units = Items::new(alloc);
    for i in 1..words.len() {
        units.push((number_of(words[i]) & 65535) as u16)?;
    }
    Ok(Constant::Text(units))
}

fn push_steps(alloc: Global, table: &Table, nodes: &mut Nodes, words: &[&str]) -> Read<u32> {
    if is_empty(words) {
        return Ok(nodes.push_steps(StepsNode::Empty)?);
    }
    let count = nodes.len();
    let before = place(words, 1, count)?;
    let last = step(alloc, table, words, count)?;
    Ok(nodes.push_steps(StepsNode::More { before, last })?)
}

fn push_captures(nodes: &mut Nodes, words: &[&str]) -> Read<u32> {
    if is_empty(words) {
        return Ok(nodes.push_captures(CapturesNode::Empty)?);
    }
    let before = place(words, 1, nodes.len())?;
    let last = Capture {
        capture: CaptureId(number(words, 2)),
        class: ClassId(number(words, 3)),
        at: small(words, 4)?,
    };
    Ok(nodes.push_captures(CapturesNode::More { before, last })?)
}

fn push_ops(nodes: &mut Nodes, words: &[&str]) -> Read<u32> {
    if is_empty(words) {
        return Ok(nodes.push_ops(OpsNode::Empty)?);
    }
    let before = place(words, 1, nodes.len())?;
    let last = operator(words, 2)?;
    Ok(nodes.push_ops(OpsNode::More { before, last })?)
}

fn push_cases(nodes: &mut Nodes, words: &[&str]) -> Read<u32> {
    if is_empty(words) {
        return Ok(nodes.push_cases(CasesNode::Empty)?);
    }
    let before = place(words, 1, nodes.len())?;
    let key = match word(words, 2) {
        "default" => None,
        key => match i32::try_from(signed_of(key)) {
            Ok(key) => Some(key),
            Err(_) => return Err(Stop::Refused(Unreadable)),
        },
    };
    let skips = small(words, 3)?;
    let named = place(words, 4, nodes.len())?;
    Ok(nodes.push_cases(CasesNode::More {
        before,
        last: Case { key, skips, named },
    })?)
}

fn push_names(nodes: &mut Nodes, words: &[&str]) -> Read<u32> {
    if is_empty(words) {
        return Ok(nodes.push_names(NamesNode::Empty)?);
    }
    let before = place(words, 1, nodes.len())?;
    let local = small(words, 2)?;
    Ok(nodes.push_names(NamesNode::More {
        before,
        place: NOWHERE,
        local,
    })?)
}

fn push_places(nodes: &mut Nodes, words: &[&str]) -> Read<u32> {
    if is_empty(words) {
        return Ok(nodes.push_places(PlacesNode::Empty)?);
    }
    let before = place(words, 1, nodes.len())?;
    Ok(nodes.push_places(PlacesNode::More {
        before,
        last: NOWHERE,
    })?)
}

fn push_expr(alloc: Global, table: &Table, nodes: &mut Nodes, words: &[&str]) -> Read<u32> {
    let count = nodes.len();
    let ty = place(words, 1, count)?;
    let captures = place(words, 2, count)?;
    let Some(rest) = words.get(3..) else {
        return Err(Stop::Refused(Unreadable));
    };
    let form = forms::form(alloc, table, rest, count)?;
    Ok(nodes.push_expr(ExprNode::Expr {
        place: NOWHERE,
        ty,
        captures,
        form,
    })?)
}

fn push_operand(nodes: &mut Nodes, words: &[&str]) -> Read<u32> {
    let of = place(words, 1, nodes.len())?;
    let steps = place(words, 2, nodes.len())?;
    Ok(nodes.push_operand(OperandNode::Operand {
        place: NOWHERE,
        of,
        steps,
    })?)
}

fn push_links(nodes: &mut Nodes, words: &[&str]) -> Read<u32> {
    if is_empty(words) {
        return Ok(nodes.push_links(LinksNode::Empty)?);
    }
    let before = place(words, 1, nodes.len())?;
    let joint = joint(words, 2)?;
    let left = place(words, 5, nodes.len())?;
    let right = place(words, 6, nodes.len())?;
    Ok(nodes.push_links(LinksNode::More {
        before,
        joint,
        left,
        right,
    })?)
}

fn push_variable(nodes: &mut Nodes, words: &[&str]) -> Read<u32> {
    let node = match word(words, 1) {
        "local" => VariableNode::Local {
            place: NOWHERE,
            local: small(words, 2)?,
        },
        "static" => VariableNode::StaticField {
            place: NOWHERE,
            before: place(words, 2, nodes.len())?,
            field: FieldId(number(words, 3)),
            is_simple: word(words, 4) == "simple",
        },
        "field" => VariableNode::Field {
            place: NOWHERE,
            of: place(words, 2, nodes.len())?,
            field: FieldId(number(words, 3)),
            is_raw: word(words, 4) == "raw",
        },
        "element" => VariableNode::Element {
            place: NOWHERE,
            array: place(words, 2, nodes.len())?,
            index: place(words, 3, nodes.len())?,
        },
        _ => return Err(Stop::Refused(Unreadable)),
    };
    Ok(nodes.push_variable(node)?)
}

fn push_declared(nodes: &mut Nodes, words: &[&str]) -> Read<u32> {
    if is_empty(words) {
        return Ok(nodes.push_declared(DeclaredNode::Empty)?);
    }
    let before = place(words, 1, nodes.len())?;
    let local = small(words, 2)?;
    let value = place(words, 3, nodes.len())?;
    Ok(nodes.push_declared(DeclaredNode::More {
        before,
        place: NOWHERE,
        local,
        value,
    })?)
}

fn push_stmt(nodes: &mut Nodes, words: &[&str]) -> Read<u32> {
    let Some(rest) = words.get(1..) else {
        return Err(Stop::Refused(Unreadable));
    };
    let form = statements::form(rest, nodes.len())?;
    Ok(nodes.push_stmt(StmtNode {
        place: NOWHERE,
        form,
    })?)
}

fn push_arms(nodes: &mut Nodes, words: &[&str]) -> Read<u32> {
    if is_empty(words) {
        return Ok(nodes.push_arms(ArmsNode::Empty)?);
    }
    let before = place(words, 1, nodes.len())?;
    let test = place(words, 2, nodes.len())?;
    let then = place(words, 3, nodes.len())?;
    Ok(nodes.push_arms(ArmsNode::More { before, test, then })?)
}

fn push_catches(nodes: &mut Nodes, words: &[&str]) -> Read<u32> {
    if is_empty(words) {
        return Ok(nodes.push_catches(CatchesNode::Empty)?);
    }
    let before = place(words, 1, nodes.len())?;
    let local = small(words, 2)?;
    let types = place(words, 3, nodes.len())?;
    let body = place(words, 4, nodes.len())?;
    Ok(nodes.push_catches(CatchesNode::More {
        before,
        place: NOWHERE,
        local,
        types,
        body,
    })?)
}

/// Adds the node that a line spells.
pub fn push(alloc: Global, table: &Table, nodes: &mut Nodes, words: &[&str]) -> Read<u32> {
    match word(words, 0) {
        "type" => Ok(nodes.push_type(type_of(alloc, word(words, 1))?)?),
        "types" => {
            let node = list(words, nodes.len())?;
            Ok(nodes.push_types(node)?)
        }
        "number" => {
            let of = primitive_at(words, 1)?;
            let value = signed_of(word(words, 2));
            Ok(nodes.push_constant(Constant::Whole { value, of })?)
        }
        "text" => Ok(nodes.push_constant(text(alloc, words)?)?),
        "steps" => push_steps(alloc, table, nodes, words),
        "captures" => push_captures(nodes, words),
        "ops" => push_ops(nodes, words),
        "cases" => push_cases(nodes, words),
        "names" => push_names(nodes, words),
        "places" => push_places(nodes, words),
        "expr" => push_expr(alloc, table, nodes, words),
        "operand" => push_operand(nodes, words),
        "operands" => {
            let node = list(words, nodes.len())?;
            Ok(nodes.push_operands(node)?)
        }
        _ => push_other(nodes, words),
    }
}

fn push_other(nodes: &mut Nodes, words: &[&str]) -> Read<u32> {
    match word(words, 0) {
        "links" => push_links(nodes, words),
        "variable" => push_variable(nodes, words),
        "declared" => push_declared(nodes, words),
        "stmt" => push_stmt(nodes, words),
        "stmts" => {
            let node = list(words, nodes.len())?;
            Ok(nodes.push_stmts(node)?)
        }
        "arms" => push_arms(nodes, words),
        "catches" => push_catches(nodes, words),
        _ => Err(Stop::Refused(Unreadable)),
    }
}

//! The nodes at places of an arena.
ghost use Rattle.std.specs.Prelude.{◌≡◌, ◌<◌};
ghost use Rattle.jc_typed.specs.Parts.{BelowArms, BelowCaptures, BelowCases, BelowCatches, BelowDeclared, BelowLinks, BelowList, BelowOps, BelowSteps, arms_at, arms_of, captures_at, captures_of, cases_at, cases_of, catches_at, catches_of, declared_at, declared_of, expr_at, expr_of, links_at, links_of, operand_at, operand_of, operands_at, operands_of, ops_at, ops_of, steps_at, steps_of, stmt_at, stmt_of, stmts_at, stmts_of, types_at, types_of, variable_at, variable_of};

use jc_rules::Place;
use jc_typed::{
    ArmsNode, CapturesNode, CasesNode, CatchesNode, DeclaredNode, ExprNode, LinksNode, ListNode,
    Nodes, OperandNode, OpsNode, StepsNode, StmtForm, StmtNode, VariableNode,
};

pub fn expr_node(nodes: &Nodes, at: u32) -> ExprNode
    ensures { expr_of nodes.now at ≡ expr_at nodes.now result }
{
    if (at as usize) < nodes.len() {
        nodes.expr(at)
    } else {
        ExprNode::Missing
    }
}

pub fn operand_node(nodes: &Nodes, at: u32) -> OperandNode
    ensures { operand_of nodes.now at ≡ operand_at nodes.now result }
{
    if (at as usize) < nodes.len() {
        nodes.operand(at)
    } else {
        OperandNode::Missing
    }
}

pub fn variable_node(nodes: &Nodes, at: u32) -> VariableNode
    ensures { variable_of nodes.now at ≡ variable_at nodes.now result }
{
    if (at as usize) < nodes.len() {
        nodes.variable(at)
    } else {
        VariableNode::Local {
            place: Place { file: 0, at: 0 },
            local: 0,
        }
    }
}

pub fn stmt_node(nodes: &Nodes, at: u32) -> StmtNode
    ensures { stmt_of nodes.now at ≡ stmt_at nodes.now result }
{
    if (at as usize) < nodes.len() {
        nodes.stmt(at)
    } else {
        StmtNode {
            place: Place { file: 0, at: 0 },
            form: StmtForm::Empty,
        }
    }
}

pub fn operands_node(nodes: &Nodes, at: u32) -> ListNode
    ensures value { operands_of nodes.now at ≡ operands_at nodes.now result }
    ensures below { BelowList at result }
{
    if (at as usize) < nodes.len() {
        nodes.operands(at)
    } else {
        ListNode::Empty
    }
}

pub fn stmts_node(nodes: &Nodes, at: u32) -> ListNode
    ensures value { stmts_of nodes.now at ≡ stmts_at nodes.now result }
    ensures below { BelowList at result }
{
    if (at as usize) < nodes.len() {
        nodes.stmts(at)
    } else {
        ListNode::Empty
    }
}

pub fn types_node(nodes: &Nodes, at: u32) -> ListNode
    ensures value { types_of nodes.now at ≡ types_at nodes.now result }
    ensures below { BelowList at result }
{
    if (at as usize) < nodes.len() {
        nodes.types(at)
    } else {
        ListNode::Empty
    }
}

pub fn steps_node(nodes: &Nodes, at: u32) -> StepsNode
    ensures value { steps_of nodes.now at ≡ steps_at nodes.now result }
    ensures below { BelowSteps at result }
{
    if (at as usize) < nodes.len() {
        nodes.steps(at)
    } else {
        StepsNode::Empty
    }
}

pub fn captures_node(nodes: &Nodes, at: u32) -> CapturesNode
    ensures value { captures_of nodes.now at ≡ captures_at nodes.now result }
    ensures below { BelowCaptures at result }
{
    if (at as usize) < nodes.len() {
        nodes.captures(at)
    } else {
        CapturesNode::Empty
    }
}

pub fn ops_node(nodes: &Nodes, at: u32) -> OpsNode
    ensures value { ops_of nodes.now at ≡ ops_at nodes.now result }
    ensures below { BelowOps at result }
{
    if (at as usize) < nodes.len() {
        nodes.ops(at)
    } else {
        OpsNode::Empty
    }
}

pub fn cases_node(nodes: &Nodes, at: u32) -> CasesNode
    ensures value { cases_of nodes.now at ≡ cases_at nodes.now result }
    ensures below { BelowCases at result }
{
    if (at as usize) < nodes.len() {
        nodes.cases(at)
    } else {
        CasesNode::Empty
    }
}

pub fn links_node(nodes: &Nodes, at: u32) -> LinksNode
    ensures value { links_of nodes.now at ≡ links_at nodes.now result }
    ensures below { BelowLinks at result }
{
    if (at as usize) < nodes.len() {
        nodes.links(at)
    } else {
        LinksNode::Empty
    }
}

pub fn declared_node(nodes: &Nodes, at: u32) -> DeclaredNode
    ensures value { declared_of nodes.now at ≡ declared_at nodes.now result }
    ensures below { BelowDeclared at result }
{
    if (at as usize) < nodes.len() {
        nodes.declared(at)
    } else {
        DeclaredNode::Empty
    }
}

pub fn arms_node(nodes: &Nodes, at: u32) -> ArmsNode
    ensures value { arms_of nodes.now at ≡ arms_at nodes.now result }
    ensures below { BelowArms at result }
{
    if (at as usize) < nodes.len() {
        nodes.arms(at)
    } else {
        ArmsNode::Empty
    }
}

pub fn catches_node(nodes: &Nodes, at: u32) -> CatchesNode
    ensures value { catches_of nodes.now at ≡ catches_at nodes.now result }
    ensures below { BelowCatches at result }
{
    if (at as usize) < nodes.len() {
        nodes.catches(at)
    } else {
        CatchesNode::Empty
    }
}

//! The arenas of typed trees.
ghost use Rattle.std.specs.Prelude.{◌≡◌, ◌<◌, [], length, IfOk};
ghost use Rattle.jc_typed.specs.Parts.{Below, BelowArms, BelowCaptures, BelowCases, BelowCatches, BelowDeclared, BelowExpr, BelowLinks, BelowList, BelowNames, BelowOperand, BelowOps, BelowPlaces, BelowSteps, BelowStmt, BelowVariable, Grows, arms_at, arms_of, captures_at, captures_of, cases_at, cases_of, catches_at, catches_of, constant_of, declared_at, declared_of, expr_at, expr_of, links_at, links_of, names_at, names_of, operand_at, operand_of, operands_at, operands_of, ops_at, ops_of, part_at, part_of, places_at, places_of, steps_at, steps_of, stmt_at, stmt_of, stmts_at, stmts_of, type_of, types_at, types_of, variable_at, variable_of};

use crate::expressions::{ExprNode, OperandNode, VariableNode};
use crate::lists::{
    ArmsNode, CapturesNode, CasesNode, CatchesNode, DeclaredNode, LinksNode, ListNode, NamesNode,
    OpsNode, PlacesNode, StepsNode,
};
use crate::statements::{StmtForm, StmtNode};
use jc_rules::{Place, WantOfMemory};
use jc_types::{Constant, Primitive, Ty};
use std::alloc::Global;
use std::marker::Model;

/// A node of an arena: what it is, over the places of its parts.
#[derive(Drop)]
pub enum Node {
    Type(Ty),
    Types(ListNode),
    Constant(Constant),
    Steps(StepsNode),
    Captures(CapturesNode),
    Ops(OpsNode),
    Names(NamesNode),
    Places(PlacesNode),
    Cases(CasesNode),
    Expr(ExprNode),
    Operand(OperandNode),
    Operands(ListNode),
    Links(LinksNode),
    Variable(VariableNode),
    Declared(DeclaredNode),
    Stmt(StmtNode),
    Stmts(ListNode),
    Arms(ArmsNode),
    Catches(CatchesNode),
}

/// The nodes of typed trees, each over nodes that stand below it. Contracts see their list, and by `expr_of` and the like the
/// tree at a place. At a place of another sort stands nothing: no expression, an empty list, an empty statement.
#[derive(Drop)]
pub struct Nodes {
    nodes: Vec<Node>,
    no_type: Ty,
    no_constant: Constant,
}

impl Model for Nodes {
    ghost use Rattle.std.specs.Prelude.{◌≡◌, List};
    ghost use Rattle.jc_types.specs.declared.form.Ty.TheVariants.{NullTy};
    ghost use Rattle.jc_typed.specs.declared.nodes.Node.{Node};
    ghost use Rattle.jc_typed.specs.Parts.{WellFormed, zero_constant};
    ghost use Rattle.jc_types.specs.contracts.form.Ty as ty;
    ghost use Rattle.std.specs.Coded.{codes};

    ghost Value = { List Node };

    ghost coded = { Prim.hlevel (codes, ty.the_row.coded) };

    ghost view = { λ n. n.nodes.items };

    ghost invariant = { λ n. WellFormed 0 n.nodes.items × (n.no_type ≡ NullTy) × (n.no_constant ≡ zero_constant) };
}

impl Nodes {
    pub fn new(alloc: Global) -> Nodes
        ensures { result ≡ [] }
    {
        Nodes {
            nodes: Vec::new(alloc),
            no_type: Ty::NullTy,
            no_constant: Constant::Whole {
                value: 0,
                of: Primitive::Int,
            },
        }
    }

    pub fn len(&self) -> usize
        ensures { result ≡ length self.now }
    {
        self.nodes.len()
    }

    // A new node over nodes that stand below it.
    fn push(&mut self, node: Node) -> Result<u32, WantOfMemory>
        requires { Below (length self.old) node }
        ensures value { IfOk result (λ at. part_of self.new at ≡ part_at self.old node) }
        ensures within { IfOk result (λ at. at < length self.new) }
        ensures grows { Grows self.old self.new }
    {
        let at = self.len();
        if at >= 4294967295 {
            return Err(WantOfMemory);
        }
        self.nodes.push(node)?;
        Ok(at as u32)
    }

    fn get(&self, at: u32) -> &Node
        requires { at < length self.now }
        ensures value { part_of self.now at ≡ part_at self.now result.now }
        ensures below { Below at result.now }
    {
        &self.nodes[at as usize]
    }

    /// Adds a type, and tells its place.
    pub fn push_type(&mut self, ty: Ty) -> Result<u32, WantOfMemory>
        ensures value { IfOk result (λ at. type_of self.new at ≡ ty) }
        ensures within { IfOk result (λ at. at < length self.new) }
        ensures grows { Grows self.old self.new }
    {
        self.push(Node::Type(ty))
    }

    /// Adds a list of types, and tells its place.
    pub fn push_types(&mut self, node: ListNode) -> Result<u32, WantOfMemory>
        requires { BelowList (length self.old) node }
        ensures value { IfOk result (λ at. types_of self.new at ≡ types_at self.old node) }
        ensures within { IfOk result (λ at. at < length self.new) }
        ensures grows { Grows self.old self.new }
    {
        self.push(Node::Types(node))
    }

    /// Adds a constant, and tells its place.
    pub fn push_constant(&mut self, constant: Constant) -> Result<u32, WantOfMemory>
        ensures value { IfOk result (λ at. constant_of self.new at ≡ constant) }
        ensures within { IfOk result (λ at. at < length self.new) }
        ensures grows { Grows self.old self.new }
    {
        self.push(Node::Constant(constant))
    }

    /// Adds a list of steps, and tells its place.
    pub fn push_steps(&mut self, node: StepsNode) -> Result<u32, WantOfMemory>
        requires { BelowSteps (length self.old) node }
        ensures value { IfOk result (λ at. steps_of self.new at ≡ steps_at self.old node) }
        ensures within { IfOk result (λ at. at < length self.new) }
        ensures grows { Grows self.old self.new }
    {
        self.push(Node::Steps(node))
    }

    /// Adds a list of captured variables, and tells its place.
    pub fn push_captures(&mut self, node: CapturesNode) -> Result<u32, WantOfMemory>
        requires { BelowCaptures (length self.old) node }
        ensures value { IfOk result (λ at. captures_of self.new at ≡ captures_at self.old node) }
        ensures within { IfOk result (λ at. at < length self.new) }
        ensures grows { Grows self.old self.new }
    {
        self.push(Node::Captures(node))
    }

    /// Adds a list of operators, and tells its place.
    pub fn push_ops(&mut self, node: OpsNode) -> Result<u32, WantOfMemory>
        requires { BelowOps (length self.old) node }
        ensures value { IfOk result (λ at. ops_of self.new at ≡ ops_at self.old node) }
        ensures within { IfOk result (λ at. at < length self.new) }
        ensures grows { Grows self.old self.new }
    {
        self.push(Node::Ops(node))
    }

    /// Adds a list of named locals, and tells its place.
    pub fn push_names(&mut self, node: NamesNode) -> Result<u32, WantOfMemory>
        requires { BelowNames (length self.old) node }
        ensures value { IfOk result (λ at. names_of self.new at ≡ names_at self.old node) }
        ensures within { IfOk result (λ at. at < length self.new) }
        ensures grows { Grows self.old self.new }
    {
        self.push(Node::Names(node))
    }

    /// Adds a list of places in sources, and tells its place.
    pub fn push_places(&mut self, node: PlacesNode) -> Result<u32, WantOfMemory>
        requires { BelowPlaces (length self.old) node }
        ensures value { IfOk result (λ at. places_of self.new at ≡ places_at self.old node) }
        ensures within { IfOk result (λ at. at < length self.new) }
        ensures grows { Grows self.old self.new }
    {
        self.push(Node::Places(node))
    }

    /// Adds a list of labels, and tells its place.
    pub fn push_cases(&mut self, node: CasesNode) -> Result<u32, WantOfMemory>
        requires { BelowCases (length self.old) node }
        ensures value { IfOk result (λ at. cases_of self.new at ≡ cases_at self.old node) }
        ensures within { IfOk result (λ at. at < length self.new) }
        ensures grows { Grows self.old self.new }
    {
        self.push(Node::Cases(node))
    }

    /// Adds an expression, and tells its place.
    pub fn push_expr(&mut self, node: ExprNode) -> Result<u32, WantOfMemory>
        requires { BelowExpr (length self.old) node }
        ensures value { IfOk result (λ at. expr_of self.new at ≡ expr_at self.old node) }
        ensures within { IfOk result (λ at. at < length self.new) }
        ensures grows { Grows self.old self.new }
    {
        self.push(Node::Expr(node))
    }

    /// Adds an operand, and tells its place.
    pub fn push_operand(&mut self, node: OperandNode) -> Result<u32, WantOfMemory>
        requires { BelowOperand (length self.old) node }
        ensures value { IfOk result (λ at. operand_of self.new at ≡ operand_at self.old node) }
        ensures within { IfOk result (λ at. at < length self.new) }
        ensures grows { Grows self.old self.new }
    {
        self.push(Node::Operand(node))
    }

    /// Adds a list of operands, and tells its place.
    pub fn push_operands(&mut self, node: ListNode) -> Result<u32, WantOfMemory>
        requires { BelowList (length self.old) node }
        ensures value { IfOk result (λ at. operands_of self.new at ≡ operands_at self.old node) }
        ensures within { IfOk result (λ at. at < length self.new) }
        ensures grows { Grows self.old self.new }
    {
        self.push(Node::Operands(node))
    }

    /// Adds the further operands of a chain, and tells its place.
    pub fn push_links(&mut self, node: LinksNode) -> Result<u32, WantOfMemory>
        requires { BelowLinks (length self.old) node }
        ensures value { IfOk result (λ at. links_of self.new at ≡ links_at self.old node) }
        ensures within { IfOk result (λ at. at < length self.new) }
        ensures grows { Grows self.old self.new }
    {
        self.push(Node::Links(node))
    }

    /// Adds a variable that is assigned, and tells its place.
    pub fn push_variable(&mut self, node: VariableNode) -> Result<u32, WantOfMemory>
        requires { BelowVariable (length self.old) node }
        ensures value { IfOk result (λ at. variable_of self.new at ≡ variable_at self.old node) }
        ensures within { IfOk result (λ at. at < length self.new) }
        ensures grows { Grows self.old self.new }
    {
        self.push(Node::Variable(node))
    }

    /// Adds a list of declared variables, and tells its place.
    pub fn push_declared(&mut self, node: DeclaredNode) -> Result<u32, WantOfMemory>
        requires { BelowDeclared (length self.old) node }
        ensures value { IfOk result (λ at. declared_of self.new at ≡ declared_at self.old node) }
        ensures within { IfOk result (λ at. at < length self.new) }
        ensures grows { Grows self.old self.new }
    {
        self.push(Node::Declared(node))
    }

    /// Adds a statement, and tells its place.
    pub fn push_stmt(&mut self, node: StmtNode) -> Result<u32, WantOfMemory>
        requires { BelowStmt (length self.old) node }
        ensures value { IfOk result (λ at. stmt_of self.new at ≡ stmt_at self.old node) }
        ensures within { IfOk result (λ at. at < length self.new) }
        ensures grows { Grows self.old self.new }
    {
        self.push(Node::Stmt(node))
    }

    /// Adds a list of statements, and tells its place.
    pub fn push_stmts(&mut self, node: ListNode) -> Result<u32, WantOfMemory>
        requires { BelowList (length self.old) node }
        ensures value { IfOk result (λ at. stmts_of self.new at ≡ stmts_at self.old node) }
        ensures within { IfOk result (λ at. at < length self.new) }
        ensures grows { Grows self.old self.new }
    {
        self.push(Node::Stmts(node))
    }

    /// Adds the arms of an `if`, and tells its place.
    pub fn push_arms(&mut self, node: ArmsNode) -> Result<u32, WantOfMemory>
        requires { BelowArms (length self.old) node }
        ensures value { IfOk result (λ at. arms_of self.new at ≡ arms_at self.old node) }
        ensures within { IfOk result (λ at. at < length self.new) }
        ensures grows { Grows self.old self.new }
    {
        self.push(Node::Arms(node))
    }

    /// Adds a list of catch clauses, and tells its place.
    pub fn push_catches(&mut self, node: CatchesNode) -> Result<u32, WantOfMemory>
        requires { BelowCatches (length self.old) node }
        ensures value { IfOk result (λ at. catches_of self.new at ≡ catches_at self.old node) }
        ensures within { IfOk result (λ at. at < length self.new) }
        ensures grows { Grows self.old self.new }
    {
        self.push(Node::Catches(node))
    }

    pub fn ty(&self, at: u32) -> &Ty
        requires { at < length self.now }
        ensures { type_of self.now at ≡ result.now }
    {
        match self.get(at) {
            Node::Type(found) => found,
            _ => &self.no_type,
        }
    }

    pub fn types(&self, at: u32) -> ListNode
        requires { at < length self.now }
        ensures value { types_of self.now at ≡ types_at self.now result }
        ensures below { BelowList at result }
    {
        match self.get(at) {
            Node::Types(node) => *node,
            _ => ListNode::Empty,
        }
    }

    pub fn constant(&self, at: u32) -> &Constant
        requires { at < length self.now }
        ensures { constant_of self.now at ≡ result.now }
    {
        match self.get(at) {
            Node::Constant(found) => found,
            _ => &self.no_constant,
        }
    }

    pub fn steps(&self, at: u32) -> StepsNode
        requires { at < length self.now }
        ensures value { steps_of self.now at ≡ steps_at self.now result }
        ensures below { BelowSteps at result }
    {
        match self.get(at) {
            Node::Steps(node) => *node,
            _ => StepsNode::Empty,
        }
    }

    pub fn captures(&self, at: u32) -> CapturesNode
        requires { at < length self.now }
        ensures value { captures_of self.now at ≡ captures_at self.now result }
        ensures below { BelowCaptures at result }
    {
        match self.get(at) {
            Node::Captures(node) => *node,
            _ => CapturesNode::Empty,
        }
    }

    pub fn ops(&self, at: u32) -> OpsNode
        requires { at < length self.now }
        ensures value { ops_of self.now at ≡ ops_at self.now result }
        ensures below { BelowOps at result }
    {
        match self.get(at) {
            Node::Ops(node) => *node,
            _ => OpsNode::Empty,
        }
    }

    pub fn names(&self, at: u32) -> NamesNode
        requires { at < length self.now }
        ensures value { names_of self.now at ≡ names_at self.now result }
        ensures below { BelowNames at result }
    {
        match self.get(at) {
            Node::Names(node) => *node,
            _ => NamesNode::Empty,
        }
    }

    pub fn places(&self, at: u32) -> PlacesNode
        requires { at < length self.now }
        ensures value { places_of self.now at ≡ places_at self.now result }
        ensures below { BelowPlaces at result }
    {
        match self.get(at) {
            Node::Places(node) => *node,
            _ => PlacesNode::Empty,
        }
    }

    pub fn cases(&self, at: u32) -> CasesNode
        requires { at < length self.now }
        ensures value { cases_of self.now at ≡ cases_at self.now result }
        ensures below { BelowCases at result }
    {
        match self.get(at) {
            Node::Cases(node) => *node,
            _ => CasesNode::Empty,
        }
    }

    pub fn expr(&self, at: u32) -> ExprNode
        requires { at < length self.now }
        ensures value { expr_of self.now at ≡ expr_at self.now result }
        ensures below { BelowExpr at result }
    {
        match self.get(at) {
            Node::Expr(node) => *node,
            _ => ExprNode::Missing,
        }
    }

    pub fn operand(&self, at: u32) -> OperandNode
        requires { at < length self.now }
        ensures value { operand_of self.now at ≡ operand_at self.now result }
        ensures below { BelowOperand at result }
    {
        match self.get(at) {
            Node::Operand(node) => *node,
            _ => OperandNode::Missing,
        }
    }

    pub fn operands(&self, at: u32) -> ListNode
        requires { at < length self.now }
        ensures value { operands_of self.now at ≡ operands_at self.now result }
        ensures below { BelowList at result }
    {
        match self.get(at) {
            Node::Operands(node) => *node,
            _ => ListNode::Empty,
        }
    }

    pub fn links(&self, at: u32) -> LinksNode
        requires { at < length self.now }
        ensures value { links_of self.now at ≡ links_at self.now result }
        ensures below { BelowLinks at result }
    {
        match self.get(at) {
            Node::Links(node) => *node,
            _ => LinksNode::Empty,
        }
    }

    pub fn variable(&self, at: u32) -> VariableNode
        requires { at < length self.now }
        ensures value { variable_of self.now at ≡ variable_at self.now result }
        ensures below { BelowVariable at result }
    {
        match self.get(at) {
            Node::Variable(node) => *node,
            _ => VariableNode::Local {
                place: Place { file: 0, at: 0 },
                local: 0,
            },
        }
    }

    pub fn declared(&self, at: u32) -> DeclaredNode
        requires { at < length self.now }
        ensures value { declared_of self.now at ≡ declared_at self.now result }
        ensures below { BelowDeclared at result }
    {
        match self.get(at) {
            Node::Declared(node) => *node,
            _ => DeclaredNode::Empty,
        }
    }

    pub fn stmt(&self, at: u32) -> StmtNode
        requires { at < length self.now }
        ensures value { stmt_of self.now at ≡ stmt_at self.now result }
        ensures below { BelowStmt at result }
    {
        match self.get(at) {
            Node::Stmt(node) => *node,
            _ => StmtNode {
                place: Place { file: 0, at: 0 },
                form: StmtForm::Empty,
            },
        }
    }

    pub fn stmts(&self, at: u32) -> ListNode
        requires { at < length self.now }
        ensures value { stmts_of self.now at ≡ stmts_at self.now result }
        ensures below { BelowList at result }
    {
        match self.get(at) {
            Node::Stmts(node) => *node,
            _ => ListNode::Empty,
        }
    }

    pub fn arms(&self, at: u32) -> ArmsNode
        requires { at < length self.now }
        ensures value { arms_of self.now at ≡ arms_at self.now result }
        ensures below { BelowArms at result }
    {
        match self.get(at) {
            Node::Arms(node) => *node,
            _ => ArmsNode::Empty,
        }
    }

    pub fn catches(&self, at: u32) -> CatchesNode
        requires { at < length self.now }
        ensures value { catches_of self.now at ≡ catches_at self.now result }
        ensures below { BelowCatches at result }
    {
        match self.get(at) {
            Node::Catches(node) => *node,
            _ => CatchesNode::Empty,
        }
    }
}

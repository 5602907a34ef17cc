//! The types that statements write, and the modifiers of the variables that they declare.
ghost use Rattle.std.specs.Prelude.{◌≡◌, ◌++◌, [], ◌∷◌, map, OnOk};
ghost use Rattle.jc_tree.specs.Offsets.{modifiers_first, first_offset_of_modifier};
ghost use Rattle.jc_declares.specs.Sites.{BodyPart, OfClassType, uses_in_each, uses_in_some, uses_of_expr, uses_of_locals, uses_of_for_init, uses_of_for, uses_of_clause_head, uses_of_stmt, uses_of_clause};
ghost use Rattle.jc_sites.specs.Joining.{placed};

use crate::expressions::{push_expr, push_exprs, push_part, push_var, push_vars};
use crate::parts::{BodyPart, Spot};
use crate::places::UseSite;
use jc_rules::{Items, WantOfMemory};
use jc_tree::{
    ClassTree, Clause, ClauseHead, Expr, ForHead, ForInit, LocalVars, Modifier, Stmt,
    first_offset_of_class, first_offset_of_locals, first_offset_of_type,
};

fn modifier_at(modifier: &Modifier) -> u32
    ensures { result ≡ first_offset_of_modifier modifier.now }
{
    match modifier {
        Modifier::Annotation(annotation) => annotation.at,
        Modifier::Word { at, .. } => *at,
    }
}

/// The offset of the first modifier, or of what stands behind them.
fn modifiers_at(modifiers: &[Modifier], next: u32) -> u32
    ensures { result ≡ modifiers_first modifiers.now next }
{
    match modifiers.first() {
        Some(modifier) => modifier_at(modifier),
        None => next,
    }
}

fn push_some<'a>(
    uses: &mut Items<UseSite<'a>>,
    spot: Spot,
    node: &'a Option<Expr>,
) -> Result<(), WantOfMemory>
    ensures { OnOk result (uses.new ≡ uses.old ++ placed spot (uses_in_some uses_of_expr node.now)) }
{
    match node {
        Some(expr) => push_expr(uses, spot, expr),
        None => Ok(()),
    }
}

/// Variables that are declared together.
#[tactic(auto, using(crate::proofs::Placed::placing))]
fn push_locals<'a>(
    uses: &mut Items<UseSite<'a>>,
    spot: Spot,
    vars: &'a LocalVars,
) -> Result<(), WantOfMemory>
    ensures { OnOk result (uses.new ≡ uses.old ++ placed spot (uses_of_locals vars.now)) }
{
    push_part(
        uses,
        spot,
        BodyPart::Variable {
            modifiers: vars.modifiers.slice(),
            at: first_offset_of_locals(vars),
        },
    )?;
    push_part(uses, spot, BodyPart::Type(&vars.ty))?;
    push_var(uses, spot, &vars.first)?;
    push_vars(uses, spot, vars.more.slice())
}

fn push_for_init<'a>(
    uses: &mut Items<UseSite<'a>>,
    spot: Spot,
    init: &'a ForInit,
) -> Result<(), WantOfMemory>
    ensures { OnOk result (uses.new ≡ uses.old ++ placed spot (uses_of_for_init init.now)) }
{
    match init {
        ForInit::Local(vars) => push_locals(uses, spot, vars),
        ForInit::Effects(effects) => push_exprs(uses, spot, effects.slice()),
    }
}

#[tactic(auto, using(crate::proofs::Placed::placing))]
fn push_for<'a>(
    uses: &mut Items<UseSite<'a>>,
    spot: Spot,
    head: &'a ForHead,
) -> Result<(), WantOfMemory>
    ensures { OnOk result (uses.new ≡ uses.old ++ placed spot (uses_of_for head.now)) }
{
    match head {
        ForHead::Basic { init, test, update } => {
            push_for_init(uses, spot, init)?;
            push_some(uses, spot, test)?;
            push_exprs(uses, spot, update.slice())
        }
        ForHead::Enhanced {
            modifiers,
            ty,
            iterable,
            ..
        } => {
            let at = modifiers_at(modifiers.slice(), first_offset_of_type(ty));
            push_part(
                uses,
                spot,
                BodyPart::Variable {
                    modifiers: modifiers.slice(),
                    at,
                },
            )?;
            push_part(uses, spot, BodyPart::Type(ty))?;
            push_expr(uses, spot, iterable)
        }
    }
}

#[tactic(auto, using(crate::proofs::Placed::placing))]
fn push_class_types<'a>(
    uses: &mut Items<UseSite<'a>>,
    spot: Spot,
    trees: &'a [ClassTree],
) -> Result<(), WantOfMemory>
    ensures { OnOk result (uses.new ≡ uses.old ++ placed spot (map (λ c. OfClassType c) trees.now)) }
{
    for tree in trees {
        push_part(uses, spot, BodyPart::ClassType(tree))?;
    }
    Ok(())
}

#[tactic(auto, using(crate::proofs::Placed::placing))]
fn push_clause_head<'a>(
    uses: &mut Items<UseSite<'a>>,
    spot: Spot,
    head: &'a ClauseHead,
) -> Result<(), WantOfMemory>
    ensures { OnOk result (uses.new ≡ uses.old ++ placed spot (uses_of_clause_head head.now)) }
{
    match head {
        ClauseHead::If(test) => push_expr(uses, spot, test),
        ClauseHead::Case(label) => push_expr(uses, spot, label),
        ClauseHead::Default => Ok(()),
        ClauseHead::Catch {
            modifiers,
            first,
            more,
            ..
        } => {
            let at = modifiers_at(modifiers.slice(), first_offset_of_class(first));
            push_part(
                uses,
                spot,
                BodyPart::Variable {
                    modifiers: modifiers.slice(),
                    at,
                },
            )?;
            push_part(uses, spot, BodyPart::ClassType(first))?;
            push_class_types(uses, spot, more.slice())
        }
        ClauseHead::Finally => Ok(()),
    }
}

#[cycle(statement_uses)]
#[tactic(auto, using(crate::proofs::StatementsByParts::statements, crate::proofs::Placed::placing))]
fn push_stmt<'a>(
    uses: &mut Items<UseSite<'a>>,
    spot: Spot,
    node: &'a Stmt,
) -> Result<(), WantOfMemory>
    ensures { OnOk result (uses.new ≡ uses.old ++ placed spot (uses_of_stmt node.now)) }
{
    match node {
        Stmt::Local(vars) => push_locals(uses, spot, vars),
        Stmt::Declared(_) => Ok(()),
        Stmt::Block { items, .. } => push_stmts(uses, spot, items.slice()),
        Stmt::Empty { .. } => Ok(()),
        Stmt::Effect(expr) => push_expr(uses, spot, expr),
        Stmt::Labeled { body, .. } => push_stmt(uses, spot, body.get()),
        Stmt::If { arms, otherwise } => {
            push_clauses(uses, spot, arms.slice())?;
            push_stmts(uses, spot, otherwise.slice())
        }
        Stmt::While { test, body, .. } => {
            push_expr(uses, spot, test)?;
            push_stmt(uses, spot, body.get())
        }
        Stmt::Do { body, test, .. } => {
            push_stmt(uses, spot, body.get())?;
            push_expr(uses, spot, test)
        }
        Stmt::For { head, body, .. } => {
            push_for(uses, spot, head)?;
            push_stmt(uses, spot, body.get())
        }
        Stmt::Switch {
            selector,
            groups,
            ..
        } => {
            push_expr(uses, spot, selector)?;
            push_clauses(uses, spot, groups.slice())
        }
        Stmt::Return { value, .. } => push_some(uses, spot, value),
        Stmt::Break { .. } => Ok(()),
        Stmt::Continue { .. } => Ok(()),
        Stmt::Throw { value, .. } => push_expr(uses, spot, value),
        Stmt::Try { items, clauses, .. } => {
            push_stmts(uses, spot, items.slice())?;
            push_clauses(uses, spot, clauses.slice())
        }
        Stmt::ThisCall { actuals, .. } => push_exprs(uses, spot, actuals.slice()),
        Stmt::SuperCall { actuals, .. } => push_exprs(uses, spot, actuals.slice()),
    }
}

/// The types that statements write.
#[cycle(statement_uses)]
#[tactic(auto, using(crate::proofs::StatementsByParts::statements, crate::proofs::Placed::placing))]
pub fn push_stmts<'a>(
    uses: &mut Items<UseSite<'a>>,
    spot: Spot,
    nodes: &'a [Stmt],
) -> Result<(), WantOfMemory>
    ensures { OnOk result (uses.new ≡ uses.old ++ placed spot (uses_in_each uses_of_stmt nodes.now)) }
{
    for node in nodes {
        push_stmt(uses, spot, node)?;
    }
    Ok(())
}

#[cycle(statement_uses)]
#[tactic(auto, using(crate::proofs::StatementsByParts::statements, crate::proofs::Placed::placing))]
fn push_clauses<'a>(
    uses: &mut Items<UseSite<'a>>,
    spot: Spot,
    nodes: &'a [Clause],
) -> Result<(), WantOfMemory>
    ensures { OnOk result (uses.new ≡ uses.old ++ placed spot (uses_in_each uses_of_clause nodes.now)) }
{
    for node in nodes {
        push_clause(uses, spot, node)?;
    }
    Ok(())
}

#[cycle(statement_uses)]
#[tactic(auto, using(crate::proofs::StatementsByParts::statements, crate::proofs::Placed::placing))]
fn push_clause<'a>(
    uses: &mut Items<UseSite<'a>>,
    spot: Spot,
    node: &'a Clause,
) -> Result<(), WantOfMemory>
    ensures { OnOk result (uses.new ≡ uses.old ++ placed spot (uses_of_clause node.now)) }
{
    push_clause_head(uses, spot, &node.head)?;
    push_stmts(uses, spot, node.items.slice())
}

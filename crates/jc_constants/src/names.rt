//! Names in expressions (JLS 6.5): simple ones, and those of a type and of its field.
ghost use Rattle.std.specs.Prelude.{◌≡◌, ◌∷◌, [], ℕ, IfOk};
ghost use Rattle.jc_declares.specs.declared.heads.Heads.{Heads};
ghost use Rattle.jc_declares.specs.Looking.{Knowledge};
ghost use Rattle.jc_declares.specs.Writing.{Reading};
ghost use Rattle.jc_declares.specs.Constants.{formed_expr};
ghost use Rattle.jc_constants.specs.Forms.{named_by, with_part, path_expr, name_expr};

use jc_declares::Path;
use jc_rules::{Boxed, Items, Place, WantOfMemory};
use jc_tree::{Expr, Ident, copy_text};
use jc_types::ConstantExpr;
use std::alloc::Global;

/// A name with one part more.
fn with_part(alloc: Global, path: Option<Path>, part: &Ident) -> Result<Option<Path>, WantOfMemory>
    ensures { IfOk result (λ it. it ≡ with_part part.now.text path) }
{
    let Some(mut path) = path else {
        return Ok(None);
    };
    path.more.push(copy_text(alloc, &part.text)?)?;
    Ok(Some(path))
}

fn simple_name(alloc: Global, name: &Ident) -> Result<Path, WantOfMemory>
    ensures { IfOk result (λ it. it ≡ record { at = name.now.at; first = name.now.text; more = [] }) }
{
    Ok(Path {
        at: name.at,
        first: copy_text(alloc, &name.text)?,
        more: Items::new(alloc),
    })
}

/// The name that an expression is, if it is one.
#[tactic(auto, using(crate::proofs::FormsByParts::expressions, crate::proofs::Named::naming))]
fn name_of(alloc: Global, tree: &Expr) -> Result<Option<Path>, WantOfMemory>
    ensures { (H : Heads) (K : Knowledge) (file : ℕ) (r : Reading) → IfOk result (λ it. it ≡ named_by (formed_expr H K file r tree.now)) }
{
    match tree {
        Expr::Name(name) => Ok(Some(simple_name(alloc, name)?)),
        Expr::Field { of, name } => {
            let path = name_of(alloc, of.get())?;
            with_part(alloc, path, name)
        }
        Expr::Assign { .. }
        | Expr::Conditional { .. }
        | Expr::Chain { .. }
        | Expr::Prefix { .. }
        | Expr::Cast { .. }
        | Expr::Postfix { .. }
        | Expr::Call { .. }
        | Expr::Index { .. }
        | Expr::InnerNew { .. }
        | Expr::Literal { .. }
        | Expr::This { .. }
        | Expr::SuperField { .. }
        | Expr::SuperCall { .. }
        | Expr::Paren { .. }
        | Expr::Invoke { .. }
        | Expr::New { .. }
        | Expr::ClassLiteral { .. }
        | Expr::VoidLiteral { .. }
        | Expr::OuterThis { .. } => Ok(None),
    }
}

fn path_expr(alloc: Global, file: u64, path: Path) -> Result<ConstantExpr, WantOfMemory>
    ensures { IfOk result (λ it. it ≡ path_expr file path) }
{
    let Path { at, first, more } = path;
    let mut parts = Items::new(alloc);
    parts.push(first)?;
    parts.append(more)?;
    Ok(ConstantExpr::Name {
        place: Place { file, at },
        parts,
    })
}

/// The name that an expression is, as a constant expression.
pub fn name_expr(
    alloc: Global,
    file: u64,
    tree: &Expr,
) -> Result<Option<Boxed<ConstantExpr>>, WantOfMemory>
    ensures { (H : Heads) (K : Knowledge) (r : Reading) → IfOk result (λ it. it ≡ name_expr file (named_by (formed_expr H K file r tree.now))) }
{
    match name_of(alloc, tree)? {
        Some(path) => Ok(Some(Boxed::new(alloc, path_expr(alloc, file, path)?)?)),
        None => Ok(None),
    }
}

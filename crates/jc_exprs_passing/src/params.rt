//! The parameters to which arguments go.
ghost use Rattle.std.specs.Prelude.{◌≡◌, drop};

use jc_types::Ty;

/// Parameters that are left: their types as the chosen member has them in the call, and those that it declares, whose erasures are asked of what comes there.
#[derive(Clone, Copy)]
pub struct Params<'a> {
    pub types: &'a [Ty],
    pub declared: &'a [Ty],
}

// All types but the first.
fn behind_first(types: &[Ty]) -> &[Ty]
    ensures { result.now ≡ drop 1 types.now }
{
    match types {
        [] => types,
        [_, more @ ..] => more,
    }
}

/// The parameters behind the first.
pub fn behind<'a>(params: &Params<'a>) -> Params<'a>
    ensures types { result.types.now ≡ drop 1 params.now.types.now }
    ensures declared { result.declared.now ≡ drop 1 params.now.declared.now }
{
    Params {
        types: behind_first(params.types),
        declared: behind_first(params.declared),
    }
}

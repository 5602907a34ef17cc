//! How a walk goes through lists of parts.
ghost use Rattle.jc_exprs_gathering.specs.Gathered.{EveryIsWalked, ListBehind, ListOfParts};

/// All parts of a list are asked one after another: a loop over them goes on with what is left of the list.
#[tactic(auto, using(crate::proofs::Gathering::every_walked))]
pub fn every_is_walked()
    ensures { EveryIsWalked }
{}

/// A node whose parts are a list: the node's rule is asked where all of them have typings.
#[tactic(auto, using(crate::proofs::Gathering::list_of))]
pub fn list_of_parts()
    ensures { ListOfParts }
{}

/// A list of parts behind a first one, which it is asked behind whether that has a typing or not.
#[tactic(auto, using(crate::proofs::Gathering::behind_first))]
pub fn list_behind()
    ensures { ListBehind }
{}

//! What the definition of bodies reads of a place.
ghost use Rattle.jc_exprs_worlds.specs.Scenes.{WorldsAreTold};

/// Each part of what the definition has of a place is that of the scene.
#[tactic(auto, using(crate::proofs::Told::worlds_told))]
pub fn worlds_are_told()
    ensures { WorldsAreTold }
{}

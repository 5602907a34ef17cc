//! Laws of bridges (JLS 15.12.4.4, JVMS 6.5 invokevirtual): selection by name and descriptor leads to the body that overriding gives.
#![tactic(auto)]

mod laws;

pub use laws::bridges_lead_to_bodies;

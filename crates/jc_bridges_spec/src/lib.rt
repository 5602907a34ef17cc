//! Bridge methods (JLS 8.4.8, 15.12.4.5, JVMS 6.5 invokevirtual) as definitions: which of them a class has, and how many parameters of a
//! method are checked on entry. It holds no code but the bridge itself.
#![tactic(auto)]

mod bridge;

pub use bridge::Bridge;

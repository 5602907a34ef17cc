//! Bridge methods.
use jc_types::MethodId;

/// A method that stands in a class under the name and the erased signature of `called`, and leads to `own`: it checks its
/// arguments where the erasures of the parameters differ, calls by the name and descriptor of `own`, and checks what that gives
/// where its erasure isn't below that of the result of `called` (JLS 15.12.4.5, JVMS 6.5 invokevirtual).
#[derive(Clone, Copy, Debug)]
pub struct Bridge {
    pub called: MethodId,
    pub own: MethodId,
}

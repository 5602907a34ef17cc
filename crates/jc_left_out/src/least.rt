//! The earlier of two offsets, and one that may be none.
ghost use Rattle.std.specs.Prelude.{◌≡◌};
ghost use Rattle.jc_left_out.specs.LeftOut.{earlier, least_of, only_if};

pub fn earlier(a: Option<u32>, b: Option<u32>) -> Option<u32>
    ensures { result ≡ earlier a b }
{
    match a {
        None => b,
        Some(n) => match b {
            None => Some(n),
            Some(m) => Some(n.min(m)),
        },
    }
}

/// The offset, if the test holds.
pub fn only_if(holds: bool, at: u32) -> Option<u32>
    ensures { result ≡ least_of (only_if holds at) }
{
    if holds { Some(at) } else { None }
}

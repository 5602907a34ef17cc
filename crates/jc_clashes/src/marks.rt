//! Marks: lists of tests' answers, each at the place of what was tested.
ghost use Rattle.std.specs.Prelude.{◌≡◌};
ghost use Rattle.jc_clashes.specs.Marks.{behind_first, first_mark, is_marked};

/// Whether there is a mark at this place.
pub fn is_marked(marks: &[bool], at: u64) -> bool
    ensures { result ≡ is_marked marks.now at }
{
    match marks.get(at as usize) {
        Some(mark) => *mark,
        None => false,
    }
}

/// Whether the first place has a mark.
pub fn first_mark(marks: &[bool]) -> bool
    ensures { result ≡ first_mark marks.now }
{
    match marks {
        [] => false,
        [mark, ..] => *mark,
    }
}

/// The marks behind the first place.
pub fn behind_first(marks: &[bool]) -> &[bool]
    ensures { result.now ≡ behind_first marks.now }
{
    match marks {
        [] => marks,
        [_, more @ ..] => more,
    }
}

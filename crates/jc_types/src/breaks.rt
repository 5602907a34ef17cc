//! The first of several breaks.
ghost use Rattle.std.specs.Prelude.{◌≡◌};
ghost use Rattle.jc_types.specs.Breaks.{before, sooner};

use jc_rules::Refusal;

/// Whether one break of a stage comes before another: by file, then offset, then rule.
pub fn is_before(a: &Refusal, b: &Refusal) -> bool
    ensures { result ≡ before a.now b.now }
{
    if a.place.file != b.place.file {
        return a.place.file < b.place.file;
    }
    if a.place.at != b.place.at {
        return a.place.at < b.place.at;
    }
    a.rule.number() < b.rule.number()
}

/// The first of two breaks of a stage. `found` stays where neither comes before the other.
pub fn sooner(found: Option<Refusal>, next: Option<Refusal>) -> Option<Refusal>
    ensures { result ≡ sooner found next }
{
    match found {
        None => next,
        Some(a) => match next {
            None => Some(a),
            Some(b) => { if is_before(&b, &a) { Some(b) } else { Some(a) } }
        },
    }
}

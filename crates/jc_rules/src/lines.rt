//! The number of the line that holds a place in a source.
ghost use Rattle.std.specs.Prelude.{◌≡◌, ◌+◌, ◌-◌, ◌<◌, ◌^◌, min, length};
ghost use Rattle.jc_rules.specs.Lines.{line_ends_by, ends_line, has_byte};

/// The number of the line that holds the byte at `at`, counted from 1: one more than the line ends that end at or before it
/// (JLS 3.4: CR, LF, or both together). It stays at the greatest u32 where the count is greater.
#[tactic(auto, using(crate::proofs::Counting::none_before, crate::proofs::Counting::one_more, crate::proofs::Counting::no_more, crate::proofs::Counting::all_within))]
pub fn line_of(text: &[u8], at: u32) -> u32
    ensures { result ≡ min (line_ends_by text.now at + 1) (2 ^ 32 - 1) }
{
    let within = text.len().min(at as usize);
    let mut ends: u32 = 0;
    for byte in 0..within {
        if ends_a_line(text, byte) {
            ends += 1;
        }
    }
    ends.saturating_add(1)
}

fn has_line_feed(text: &[u8], place: usize) -> bool
    ensures { result ≡ has_byte 10 text.now place }
{
    match text.get(place) {
        Some(byte) => *byte == b'\n',
        None => false,
    }
}

/// Whether a line end has its last byte at `byte`.
fn ends_a_line(text: &[u8], byte: usize) -> bool
    requires { byte < length text.now }
    ensures { result ≡ ends_line text.now byte }
{
    match text[byte] {
        b'\n' => true,
        b'\r' => !has_line_feed(text, byte + 1),
        _ => false,
    }
}

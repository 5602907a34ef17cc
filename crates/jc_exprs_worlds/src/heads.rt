//! What the heads of a program say of a class.
ghost use Rattle.std.specs.Prelude.{◌≡◌};
ghost use Rattle.jc_declares.specs.HeadBreaks.{class_file};
ghost use Rattle.jc_declares.specs.Heads.{is_interface};

use jc_declares::Heads;
use jc_types::Kind;

/// The file in which a class is declared.
pub fn class_file(heads: &Heads, class: u64) -> u64
    ensures { result ≡ class_file heads.now class }
{
    match heads.classes.get(class as usize) {
        Some(head) => head.file,
        None => 0,
    }
}

/// Whether a class is an interface (JLS 9).
pub fn is_interface(heads: &Heads, class: u64) -> bool
    ensures { result ≡ is_interface heads.now class }
{
    match heads.classes.get(class as usize) {
        Some(head) => matches!(head.kind, Kind::Interface),
        None => false,
    }
}

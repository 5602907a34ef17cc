//! The files and kinds of classes by their numbers.
ghost use Rattle.std.specs.Prelude.{◌≡◌, slice_get};
ghost use Rattle.jc_declares.specs.Heads.{is_interface};
ghost use Rattle.jc_declares.specs.HeadBreaks.{class_file, class_in};

use jc_declares::Heads;
use jc_types::Kind;

pub fn class_file(heads: &Heads, class: u64) -> u64
    ensures { result ≡ class_file heads.now class }
{
    match heads.classes.get(class as usize) {
        Some(head) => head.file,
        None => 0,
    }
}

pub fn is_interface(heads: &Heads, class: u64) -> bool
    ensures { result ≡ is_interface heads.now class }
{
    match heads.classes.get(class as usize) {
        Some(head) => matches!(head.kind, Kind::Interface),
        None => false,
    }
}

pub fn class_of_method(heads: &Heads, method: u64) -> u64
    ensures { result ≡ class_in (slice_get heads.now.methods method) }
{
    match heads.methods.get(method as usize) {
        Some(place) => place.class,
        None => 0,
    }
}

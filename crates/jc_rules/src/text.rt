//! Texts that contracts see as their bytes.
ghost use Rattle.std.specs.Prelude.{◌≡◌, ◌≤◌, ◌↔◌, [], length, IsOk, IsSome, IfOk, IfSome};

use crate::WantOfMemory;
use std::alloc::Global;
use std::marker::Model;
use std::str;

/// How many bytes a text may have that lies in the value itself, so that a text takes 16 bytes.
const SHORT: usize = 14;

/// The first `len` bytes.
#[derive(Clone, Debug, Drop)]
struct ShortText {
    bytes: [u8; 14],
    len: u8,
}

impl Model for ShortText {
    ghost use Rattle.std.specs.Prelude.{List, ℕ, take, ◌≤◌, IsUtf8};

    ghost Value = { List ℕ };

    ghost view = { λ s. take s.len s.bytes };

    ghost invariant = { λ s. (s.len ≤ 14) × IsUtf8 (take s.len s.bytes) };
}

impl ShortText {
    fn of(text: &str) -> Option<ShortText>
        ensures variant { IsSome result ↔ (length text.now ≤ 14) }
        ensures value { IfSome result (λ short. short ≡ text.now) }
    {
        let len = text.len();
        if len > SHORT {
            return None;
        }
        let mut bytes = [0; 14];
        bytes[..len].copy_from_slice(text.as_bytes());
        Some(ShortText {
            bytes,
            len: len as u8,
        })
    }

    fn str(&self) -> &str
        ensures { result.now ≡ self.now }
    {
        // The bytes are those of a text, so they need no second look.
        unsafe { str::from_utf8_unchecked(&self.bytes[..self.len as usize]) }
    }
}

/// Where the bytes of a text lie.
#[derive(Clone, Debug, Drop)]
enum Storage {
    Short(ShortText),
    Long(Box<String>),
}

/// A UTF-8 text, which contracts see as its bytes. One of at most 14 bytes, as most names are, takes no memory beside its own.
#[derive(Clone, Debug, Drop)]
pub struct Text {
    storage: Storage,
}

impl Model for Text {
    ghost use Rattle.std.specs.Prelude.{List, ℕ};
    ghost use Rattle.std.specs.Coded.{coded_list, coded_ℕ};
    ghost use Rattle.jc_rules.specs.Texts.{stored};

    ghost Value = { List ℕ };

    ghost coded = { coded_list coded_ℕ };

    ghost view = { λ t. stored t.storage };
}

impl Text {
    /// The text without bytes.
    pub fn empty() -> Text
        ensures { result ≡ [] }
    {
        let short = ShortText {
            bytes: [0; 14],
            len: 0,
        };
        Text {
            storage: Storage::Short(short),
        }
    }

    /// A text of these bytes.
    pub fn copied(alloc: Global, text: &str) -> Result<Text, WantOfMemory>
        ensures short { length text.now ≤ 14 → IsOk result }
        ensures value { IfOk result (λ copy. copy ≡ text.now) }
    {
        let storage = match ShortText::of(text) {
            Some(short) => Storage::Short(short),
            None => Storage::Long(Box::new(alloc, String::from_str(alloc, text)?)?),
        };
        Ok(Text { storage })
    }

    pub fn str(&self) -> &str
        ensures { result.now ≡ self.now }
    {
        match &self.storage {
            Storage::Short(short) => short.str(),
            Storage::Long(long) => long.as_str(),
        }
    }
}

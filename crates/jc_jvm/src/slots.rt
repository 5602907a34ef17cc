//! Lists of values whose length stays.
ghost use Rattle.std.specs.Prelude.{◌≡◌, nat_lt, length, slice_get, slice_set};

use std::marker::Model;

/// A list of values whose length stays, which contracts see as the list.
#[derive(Debug, Drop)]
pub struct Slots<T> {
    items: Vec<T>,
}

impl<T> Model for Slots<T> {
    ghost use Rattle.std.specs.Prelude.{List};
    ghost use Rattle.std.specs.Coded.{coded_list};

    ghost Value = { List T };

    ghost coded = { coded_list T.code };

    ghost view = { λ s. s.items.items };
}

impl<T> Slots<T> {
    pub fn of(items: Vec<T>) -> Slots<T>
        ensures { result ≡ items.items }
    {
        Slots { items }
    }

    pub fn slice(&self) -> &[T]
        ensures { result.now ≡ self.now }
    {
        self.items.as_slice()
    }

    #[inline(always)]
    pub fn len(&self) -> usize
        ensures { result ≡ length self.now }
    {
        self.items.len()
    }
}

impl<T: Copy> Slots<T> {
    #[inline(always)]
    pub fn get(&self, at: usize) -> Option<T>
        ensures { result ≡ slice_get self.now at }
    {
        self.items.get(at).copied()
    }

    /// Puts a value into a slot, and tells whether there is such a slot.
    #[inline(always)]
    pub fn set(&mut self, at: usize, item: T) -> bool
        ensures slots { self.new ≡ slice_set self.old at item }
        ensures there { result ≡ nat_lt at (length self.old) }
    {
        if at < self.items.len() {
            self.items[at] = item;
            true
        } else {
            false
        }
    }
}

//! Entries of the pool by their numbers.
ghost use Rattle.std.specs.Prelude.{◌≡◌, MatchOption, None, Some};
ghost use Rattle.jc_class_out.specs.Pool.{entry_of, text_of, class_of, pair_of, both, known_of, known_of_entry, tag_at};
ghost use Rattle.jc_class_out.specs.Spelling.{known};

use jc_class_out::{Constant, Entry, Slot};

/// A class, a name and a descriptor.
#[derive(Clone, Copy)]
pub struct Named<'a> {
    pub class: &'a [u16],
    pub name: &'a [u16],
    pub descriptor: &'a [u16],
}

/// The entry of that number; the first one has number 1.
#[tactic(auto, unfolding(jc_class_out::specs::Pool::entry_of))]
pub fn entry(pool: &[Slot], index: u16) -> Option<&Entry>
    ensures { MatchOption result (entry_of pool.now index ≡ None) (λ e. entry_of pool.now index ≡ Some e.now) }
{
    if index == 0 {
        return None;
    }
    match pool.get(usize::from(index) - 1) {
        Some(slot) => Some(&slot.entry),
        None => None,
    }
}

pub fn text(pool: &[Slot], index: u16) -> Option<&[u16]>
    ensures { MatchOption result (text_of pool.now index ≡ None) (λ t. text_of pool.now index ≡ Some t.now) }
{
    match entry(pool, index) {
        Some(Entry::Text(units)) => Some(units.slice()),
        _ => None,
    }
}

pub fn class(pool: &[Slot], index: u16) -> Option<&[u16]>
    ensures { MatchOption result (class_of pool.now index ≡ None) (λ t. class_of pool.now index ≡ Some t.now) }
{
    match entry(pool, index) {
        Some(Entry::Class(name)) => text(pool, *name),
        _ => None,
    }
}

/// Two texts.
fn texts(pool: &[Slot], first: u16, second: u16) -> Option<(&[u16], &[u16])>
    ensures { MatchOption result (both (text_of pool.now first) (text_of pool.now second) ≡ None) (λ t. both (text_of pool.now first) (text_of pool.now second) ≡ Some (t.0.now, t.1.now)) }
{
    match text(pool, first) {
        Some(first) => match text(pool, second) {
            Some(second) => Some((first, second)),
            None => None,
        },
        None => None,
    }
}

/// A name and a descriptor.
pub fn pair(pool: &[Slot], index: u16) -> Option<(&[u16], &[u16])>
    ensures { MatchOption result (pair_of pool.now index ≡ None) (λ t. pair_of pool.now index ≡ Some (t.0.now, t.1.now)) }
{
    match entry(pool, index) {
        Some(Entry::Pair { name, descriptor }) => texts(pool, *name, *descriptor),
        _ => None,
    }
}

fn member(pool: &[Slot], class_index: u16, pair_index: u16) -> Option<Named<'_>>
    ensures { MatchOption result (both (class_of pool.now class_index) (pair_of pool.now pair_index) ≡ None) (λ m. both (class_of pool.now class_index) (pair_of pool.now pair_index) ≡ Some (m.class.now, (m.name.now, m.descriptor.now))) }
{
    match class(pool, class_index) {
        Some(class) => match pair(pool, pair_index) {
            Some((name, descriptor)) => Some(Named {
                class,
                name,
                descriptor,
            }),
            None => None,
        },
        None => None,
    }
}

#[tactic(auto, unfolding(jc_class_out::specs::Pool::known_of_entry))]
fn field(pool: &[Slot], class: u16, pair: u16) -> Option<Constant<'_>>
    ensures { MatchOption result (known_of_entry pool.now (Entry.Field class pair) ≡ None) (λ k. known_of_entry pool.now (Entry.Field class pair) ≡ Some (known k)) }
{
    match member(pool, class, pair) {
        Some(
            Named {
                class,
                name,
                descriptor,
            },
        ) => Some(Constant::Field {
            class,
            name,
            descriptor,
        }),
        None => None,
    }
}

#[tactic(auto, unfolding(jc_class_out::specs::Pool::known_of_entry))]
fn method(pool: &[Slot], class: u16, pair: u16) -> Option<Constant<'_>>
    ensures { MatchOption result (known_of_entry pool.now (Entry.Method class pair) ≡ None) (λ k. known_of_entry pool.now (Entry.Method class pair) ≡ Some (known k)) }
{
    match member(pool, class, pair) {
        Some(
            Named {
                class,
                name,
                descriptor,
            },
        ) => Some(Constant::Method {
            class,
            name,
            descriptor,
        }),
        None => None,
    }
}

#[tactic(auto, unfolding(jc_class_out::specs::Pool::known_of_entry))]
fn interface(pool: &[Slot], class: u16, pair: u16) -> Option<Constant<'_>>
    ensures { MatchOption result (known_of_entry pool.now (Entry.Interface class pair) ≡ None) (λ k. known_of_entry pool.now (Entry.Interface class pair) ≡ Some (known k)) }
{
    match member(pool, class, pair) {
        Some(
            Named {
                class,
                name,
                descriptor,
            },
        ) => Some(Constant::Interface {
            class,
            name,
            descriptor,
        }),
        None => None,
    }
}

/// What the entry means, the entries that it names put in.
#[tactic(auto, unfolding(jc_class_out::specs::Pool::known_of_entry))]
fn meaning<'a>(pool: &'a [Slot], entry: &'a Entry) -> Option<Constant<'a>>
    ensures { MatchOption result (known_of_entry pool.now entry.now ≡ None) (λ k. known_of_entry pool.now entry.now ≡ Some (known k)) }
{
    match entry {
        Entry::Behind => None,
        Entry::Text(units) => Some(Constant::Text(units.slice())),
        Entry::Whole(n) => Some(Constant::Whole(*n)),
        Entry::Long(n) => Some(Constant::Long(*n)),
        Entry::Class(name) => text(pool, *name).map(Constant::Class),
        Entry::Literal(units) => text(pool, *units).map(Constant::Literal),
        Entry::Field { class, pair } => field(pool, *class, *pair),
        Entry::Method { class, pair } => method(pool, *class, *pair),
        Entry::Interface { class, pair } => interface(pool, *class, *pair),
        Entry::Pair { name, descriptor } => match texts(pool, *name, *descriptor) {
            Some((name, descriptor)) => Some(Constant::Pair(name, descriptor)),
            None => None,
        },
    }
}

/// What the entry of that number means.
#[tactic(auto, unfolding(jc_class_out::specs::Pool::known_of))]
pub fn constant(pool: &[Slot], index: u16) -> Option<Constant<'_>>
    ensures { MatchOption result (known_of pool.now index ≡ None) (λ k. known_of pool.now index ≡ Some (known k)) }
{
    match entry(pool, index) {
        Some(entry) => meaning(pool, entry),
        None => None,
    }
}

/// The tag of the entry of that number; 0 where there is none.
pub fn tag(pool: &[Slot], index: u16) -> u8
    ensures { result ≡ tag_at pool.now index }
{
    match entry(pool, index) {
        None => 0,
        Some(Entry::Behind) => 0,
        Some(Entry::Text(_)) => 1,
        Some(Entry::Whole(_)) => 3,
        Some(Entry::Long(_)) => 5,
        Some(Entry::Class(_)) => 7,
        Some(Entry::Literal(_)) => 8,
        Some(Entry::Field { .. }) => 9,
        Some(Entry::Method { .. }) => 10,
        Some(Entry::Interface { .. }) => 11,
        Some(Entry::Pair { .. }) => 12,
    }
}

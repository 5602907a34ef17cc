//! putstatic.
ghost use Rattle.std.specs.Prelude.{◌≡◌};
ghost use Rattle.jc_jvm.specs.Table.{static_kept};
ghost use Rattle.jc_plain.specs.Acted.{acted};

use jc_jvm::{Frame, Sort, World};
use jc_plain::{Act, go_to, is_of_sort};

/// The topmost value into a static field.
pub fn keep_static(
    sort: Sort,
    class: u64,
    field: u64,
    world: &mut World,
    next: u32,
    now: &mut Frame,
) -> Act
    ensures { static_kept sort world.old next now.old (class, field) now.old.stack.values ≡ (world.new, acted result now.new) }
{
    match now.stack.pop() {
        Some(value) => {
            if is_of_sort(sort, value) {
                world.statics.set(class, field, value);
                go_to(next, now)
            } else {
                Act::Fails
            }
        }
        None => Act::Fails,
    }
}

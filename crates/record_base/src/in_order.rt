//! Items of a board file that are numbered in order.
ghost use Rattle.std.specs.Prelude.{◌↔◌, IsTrue};
ghost use Rattle.record_base.specs.InOrder.{AreNumbered};

use crate::distinct::Numbered;

/// Whether the items have the numbers from the first on.
pub fn are_numbered<T: Numbered>(items: &[T], first: u16) -> bool
    ensures { IsTrue result ↔ AreNumbered T.number_of first items.now }
{
    let mut next = u32::from(first);
    for item in items {
        if u32::from(item.number()) != next {
            return false;
        }
        next += 1;
    }
    true
}

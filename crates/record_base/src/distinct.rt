//! Items of a board file that have numbers of their own.
ghost use Rattle.std.specs.Prelude.{◌≡◌, ◌≤◌, ◌==◌, ◌↔◌, ℕ, IsTrue, IsSome, IfSome, length};
ghost use Rattle.std.specs.List.{list_any};
ghost use Rattle.record_base.specs.Distinct.{NamesDiffer};

use crate::items::Items;

/// An item that has a number of its own among its like.
pub trait Numbered {
    /// The item's number.
    ghost number_of: { Self → ℕ };

    /// The item's number.
    fn number(&self) -> u16
        ensures { result ≡ number_of self.now };
}

/// Items in the file's order. No two have the same number, and there are at most `MOST`.
#[derive(Debug)]
pub struct Distinct<T: Numbered, const MOST: usize> {
    pub items: Items<T>,
    ghost differ: { NamesDiffer T.number_of items },
    ghost few: { length items ≤ MOST },
}

// Written out: the crates above would prove a derived one anew.
impl<T: Numbered + Drop, const MOST: usize> Drop for Distinct<T, MOST> {
    fn drop(self) {
        let Distinct { items } = self;
        drop(items);
    }
}

impl<T: Numbered + Drop, const MOST: usize> Distinct<T, MOST> {
    /// A list of the items, or nothing where two have the same number or there are too many.
    pub fn new(items: Vec<T>) -> Option<Self>
        ensures made { IsSome result
            ↔ (NamesDiffer T.number_of items.items × (length items.items ≤ MOST)) }
        ensures items { IfSome result (λ made. made.items ≡ items.items) }
    {
        if items.len() > MOST || !numbers_differ(items.as_slice()) {
            return None;
        }
        Some(Distinct {
            items: Items::new(items),
        })
    }
}

/// Whether one of the items has the number.
pub fn is_taken<T: Numbered>(items: &[T], number: u16) -> bool
    ensures { result ≡ list_any (λ item. T.number_of item == number) items.now }
{
    items.iter().any(|item| item.number() == number)
}

/// Whether no two of the items have the same number.
fn numbers_differ<T: Numbered>(items: &[T]) -> bool
    ensures { IsTrue result ↔ NamesDiffer T.number_of items.now }
{
    for (place, item) in items.iter().enumerate() {
        if is_taken(&items[..place], item.number()) {
            return false;
        }
    }
    true
}

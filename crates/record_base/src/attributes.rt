//! The BIOS attributes of a board, in its list.
ghost use Rattle.std.specs.Prelude.{◌≤◌, length};
ghost use Rattle.record_base.specs.AttributeSizes.{most_attributes};
ghost use Rattle.record_base.specs.Attributes.{AreInPlace};
ghost use Rattle.record_base.specs.AttributesLaws.{AreInPlace-prop};

use crate::attribute::Attribute;
use crate::attribute_sizes::MOST_ATTRIBUTES;
use crate::in_order::are_numbered;
use crate::items::Items;

/// The attributes of a board, at most 64. The handle of each is its place, from 0.
#[derive(Debug)]
pub struct Attributes {
    pub items: Items<Attribute>,
    ghost placed: { AreInPlace items } by { AreInPlace-prop items },
    ghost few: { length items ≤ most_attributes },
}

// Written out: the crates above would prove a derived one anew.
impl Drop for Attributes {
    fn drop(self) {
        let Attributes { items } = self;
        drop(items);
    }
}

impl Attributes {
    ghost use Rattle.std.specs.Prelude.{◌≡◌, ◌≤◌, ◌↔◌, IsSome, IfSome, length};
    ghost use Rattle.record_base.specs.AttributeSizes.{most_attributes};
    ghost use Rattle.record_base.specs.Attributes.{AreInPlace};

    /// A board's attributes, or nothing where a handle isn't its attribute's place, or where there are too many.
    pub fn new(items: Vec<Attribute>) -> Option<Self>
        ensures made { IsSome result
            ↔ (AreInPlace items.items × (length items.items ≤ most_attributes)) }
        ensures items { IfSome result (λ made. made.items ≡ items.items) }
    {
        if items.len() > MOST_ATTRIBUTES || !are_numbered(items.as_slice(), 0) {
            return None;
        }
        Some(Attributes {
            items: Items::new(items),
        })
    }
}

//! Lists whose room is asked for once.
use std::alloc::{AllocError, Global};

/// A list whose room is asked for once, before its first item comes, by what its iterator promises. A refusal is answered at once, where a `Vec`'s own
/// `collect` asks again for less.
#[derive(Drop)]
pub struct AtOnce<T> {
    pub items: Vec<T>,
}

impl<T: Drop> FromIterator<T> for AtOnce<T> {
    ghost use Rattle.std.specs.Prelude.{◌≡◌};

    type Alloc = Global;

    ghost from_iter_gives = { λ xs list. list.items.items ≡ xs };

    fn from_iter<U: IntoIterator<Item = T>>(
        alloc: Global,
        iter: U,
    ) -> Result<AtOnce<T>, AllocError> {
        let rest = iter.into_iter();
        let mut items = Vec::with_capacity(alloc, rest.size_hint().0)?;
        items.extend(rest)?;
        Ok(AtOnce { items })
    }
}

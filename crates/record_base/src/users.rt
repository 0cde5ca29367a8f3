//! The users of a board.
ghost use Rattle.record_base.specs.Users.{AreUsers};
ghost use Rattle.record_base.specs.UsersLaws.{AreUsers-prop};

use crate::board_sizes::MOST_USERS;
use crate::in_order::are_numbered;
use crate::items::Items;
use crate::user::User;
use crate::user_sizes::USER_NAME_SIZE;

/// The users of a board: at most `MOST_USERS`, of numbers 1, 2 and so on in order. The first has no name.
#[derive(Debug)]
pub struct Users {
    pub items: Items<User>,
    ghost valid: { AreUsers items } by { AreUsers-prop items },
}

// Written out: the crates above would prove a derived one anew.
impl Drop for Users {
    fn drop(self) {
        let Users { items } = self;
        drop(items);
    }
}

impl Users {
    ghost use Rattle.std.specs.Prelude.{◌≡◌, ◌↔◌, IsSome, IfSome};
    ghost use Rattle.record_base.specs.Users.{AreUsers};

    /// A board's users, or nothing where no board can have them.
    pub fn new(items: Vec<User>) -> Option<Self>
        ensures made { IsSome result ↔ AreUsers items.items }
        ensures items { IfSome result (λ made. made.items ≡ items.items) }
    {
        let first = items.first()?;
        if first.name != [0; USER_NAME_SIZE]
            || items.len() > MOST_USERS
            || !are_numbered(items.as_slice(), 1)
        {
            return None;
        }
        Some(Users {
            items: Items::new(items),
        })
    }
}

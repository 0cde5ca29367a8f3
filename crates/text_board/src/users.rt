//! The users of a board file.
ghost use Rattle.std.specs.Prelude.{◌≡◌, ◌<◌, ◌≤◌, ◌+◌, true, map, length, is_some, IfOk, IfErr};
ghost use Rattle.std.specs.List.{list_all, AllZip};
ghost use Rattle.record_base.specs.InOrder.{AreNumbered};
ghost use Rattle.record_base.specs.BoardSizes.{most_users};
ghost use Rattle.toml.specs.View.{view, table_view};
ghost use Rattle.text_fields.specs.Trees.{members_in};
ghost use Rattle.text_fields.specs.Users.{name_of};
ghost use Rattle.text_board.specs.Holds.{IsNameIn};

use crate::fault::FileFault;
use crate::tables::TOP;
use record_base::{User, UserNumber, Users};
use std::alloc::Global;
use text_fields::tree::members_of;
use text_fields::users::name;
use text_fields::{Checked, Field};
use toml::Value;

/// The user behind those before, whose name the value is.
fn next_user(before: &[User], value: &Value) -> User
    requires few { length before.now < most_users }
    requires named { is_some (name_of (view value.now)) ≡ true }
    ensures numbered { result.number.number ≡ 1 + length before.now }
    ensures named { IsNameIn (view value.now) result }
{
    User {
        number: UserNumber::of(before.len() as u8 + 1),
        name: name(value).unwrap(),
    }
}

/// The users whose names these values are, in their order.
fn users_of(alloc: Global, values: &[Value]) -> Result<Vec<User>, FileFault>
    requires few { length values.now ≤ most_users }
    requires named { list_all (λ d. is_some (name_of d)) (map view values.now) ≡ true }
    ensures names { IfOk result (λ users. AllZip IsNameIn (map view values.now) users.items) }
    ensures numbers { IfOk result (λ users.
        AreNumbered (λ user. user.number.number) 1 users.items) }
    ensures err { IfErr result (λ why. why ≡ FileFault.Memory) }
{
    let mut users = Vec::new(alloc);
    for value in values {
        let user = next_user(users.as_slice(), value);
        match users.push(user) {
            Ok(()) => {}
            Err(_) => return Err(FileFault::Memory),
        }
    }
    Ok(users)
}

/// The users of the file.
pub fn users(alloc: Global, top: &Checked<'_>) -> Result<Users, FileFault>
    requires { top.now.rows.now ≡ TOP }
    ensures held { IfOk result (λ users.
        AllZip IsNameIn (members_in Field.Users (table_view top.now.table.now)) users.items) }
    ensures err { IfErr result (λ why. why ≡ FileFault.Memory) }
{
    let users = users_of(alloc, members_of(top.value(Field::Users)))?;
    Ok(Users::new(users).unwrap())
}

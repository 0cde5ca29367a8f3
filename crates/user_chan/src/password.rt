//! Passwords, and the operations of Set User Password (IPMI 2.0). No call shows a password.
ghost use Rattle.std.specs.Prelude.{◌≡◌, ◌↔◌, ◌<◌, drop, IsTrue};
ghost use Rattle.user_chan.specs.Passwords.{password_in, change_in, change_of, same_password, same_size, test_answer, with_enabled};

use record_base::mask::has;
use record_base::{Live, UserNumber, byte_at};
use std::alloc::{AllocError, Global};
use std::marker::Model;
use two_wire::Code;
use two_wire::code::INVALID_LENGTH;

/// The code of a test of a password with another text (IPMI 2.0, Set User Password).
const WRONG_TEXT: u8 = 0x80;

/// The code of a test of a password of another size.
const WRONG_SIZE: u8 = 0x81;

/// How many numbers users can have.
const NUMBERS: usize = 64;

/// The bit of a request's first byte that is set where a password has 20 bytes.
const TWENTY_PLACE: usize = 7;

/// A password, by its size in bytes. Nothing prints it.
#[derive(Clone, Copy)]
pub enum Password {
    Sixteen([u8; 16]),
    Twenty([u8; 20]),
}

/// A change of a user, or a test of the user's password.
#[derive(Clone, Copy)]
pub enum PasswordChange {
    Disable,
    Enable,
    Set(Password),
    Test(Password),
}

/// The password of each user, by the user's number. Contracts see the list of passwords. It takes all its memory when it is made.
pub struct Passwords {
    kept: Vec<Password>,
}

// Written out: the crates above would prove a derived one anew.
impl Drop for Passwords {
    fn drop(self) {
        let Passwords { kept } = self;
        drop(kept);
    }
}

impl Model for Passwords {
    ghost use Rattle.std.specs.Prelude.{◌≡◌, length};
    ghost use Rattle.user_chan.specs.Passwords.{KeptPasswords};

    ghost Value = { KeptPasswords };

    ghost view = { λ s. s.kept.items };

    ghost invariant = { λ s. length s.kept.items ≡ 64 };
}

/// Whether the bytes are the same. The function compares each pair, also behind a pair that differs.
fn are_same<const N: usize>(a: &[u8; N], b: &[u8; N]) -> bool
    ensures { IsTrue result ↔ (a.now ≡ b.now) }
{
    let mut same = true;
    for place in 0..N {
        same = (a[place] == b[place]) & same;
    }
    same
}

/// The password with these bytes.
fn password_in(twenty: bool, bytes: &[u8]) -> Result<Password, Code>
    ensures { result ≡ password_in twenty bytes.now }
{
    if twenty {
        if bytes.len() != 20 {
            return Err(INVALID_LENGTH);
        }
        let mut password = [0; 20];
        password.copy_from_slice(bytes);
        return Ok(Password::Twenty(password));
    }
    if bytes.len() != 16 {
        return Err(INVALID_LENGTH);
    }
    let mut password = [0; 16];
    password.copy_from_slice(bytes);
    Ok(Password::Sixteen(password))
}

/// The operation of this number (0 to 3), with the bytes of the request behind it.
fn change_in(twenty: bool, number: u8, bytes: &[u8]) -> Result<PasswordChange, Code>
    requires { number < 4 }
    ensures { result ≡ change_in twenty number bytes.now }
{
    match number {
        0 => Ok(PasswordChange::Disable),
        1 => Ok(PasswordChange::Enable),
        2 => Ok(PasswordChange::Set(password_in(twenty, bytes)?)),
        _ => Ok(PasswordChange::Test(password_in(twenty, bytes)?)),
    }
}

/// The bytes behind the first two.
fn behind(body: &[u8]) -> &[u8]
    ensures { result.now ≡ drop 2 body.now }
{
    match body {
        [_, _, rest @ ..] => rest,
        _ => &[],
    }
}

/// The operation of Set User Password with these data, without the user.
pub fn change_of(body: &[u8]) -> Result<PasswordChange, Code>
    ensures { result ≡ change_of body.now }
{
    let twenty = has(byte_at(body, 0), TWENTY_PLACE);
    change_in(twenty, byte_at(body, 1) % 4, behind(body))
}

impl Password {
    /// Whether both passwords are the same.
    fn is(&self, other: &Password) -> bool
        ensures { result ≡ same_password self.now other.now }
    {
        match (self, other) {
            (Password::Sixteen(a), Password::Sixteen(b)) => are_same(a, b),
            (Password::Twenty(a), Password::Twenty(b)) => are_same(a, b),
            _ => false,
        }
    }

    /// Whether both passwords have the same size.
    fn is_as_long(&self, other: &Password) -> bool
        ensures { result ≡ same_size self.now other.now }
    {
        matches!(
            (self, other),
            (Password::Sixteen(_), Password::Sixteen(_))
                | (Password::Twenty(_), Password::Twenty(_))
        )
    }

    /// The answer to a test against this password: success, or a code that tells another text from another size.
    fn test(&self, given: &Password) -> Result<(), Code>
        ensures { result ≡ test_answer self.now given.now }
    {
        if self.is(given) {
            return Ok(());
        }
        let code = if self.is_as_long(given) {
            WRONG_TEXT
        } else {
            WRONG_SIZE
        };
        Err(Code::new(code).unwrap())
    }
}

impl Passwords {
    ghost use Rattle.std.specs.Prelude.{◌≡◌, IfOk};
    ghost use Rattle.user_chan.specs.Passwords.{test_answer, opening_passwords, password_of, after_set};

    /// The passwords with which a board begins: sixteen bytes 00h for each user.
    pub fn opening(alloc: Global) -> Result<Self, AllocError>
        ensures { IfOk result (λ s. s ≡ opening_passwords) }
    {
        Ok(Passwords {
            kept: vec![in alloc; Password::Sixteen([0; 16]); NUMBERS]?,
        })
    }

    /// The password of this user.
    fn of(&self, user: UserNumber) -> &Password
        ensures { result.now ≡ password_of self.now user.number }
    {
        let _ = &user.number;
        &self.kept[user.number as usize]
    }

    /// The answer to a test of this user's password.
    pub fn test(&self, user: UserNumber, given: &Password) -> Result<(), Code>
        ensures { result ≡ test_answer (password_of self.now user.number) given.now }
    {
        self.of(user).test(given)
    }

    /// Makes this password the user's password.
    pub fn put(&mut self, user: UserNumber, password: Password)
        ensures { self.new ≡ after_set self.old user.number password }
    {
        self.kept[user.number as usize] = password;
    }
}

/// Enables or disables the user.
pub fn set_enabled(live: &mut Live, user: UserNumber, enabled: bool)
    ensures { live.new ≡ with_enabled live.old user.number enabled }
{
    if enabled {
        live.enabled_users |= 1 << user.number;
    } else {
        live.enabled_users &= !(1 << user.number);
    }
}

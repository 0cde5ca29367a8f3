//! Laws of the definitions of passwords.
ghost use Rattle.user_chan.specs.Passwords.{AllTestsTell, AllSetsAreKept, ChangesOneStatus};

/// Only the stored password passes a test, and the test tells a password of another size from a password with another text. The last
/// Set stores its password, and changes no other user's. To enable or disable a user changes this user's status alone.
pub fn passwords_law()
    ensures tests { AllTestsTell }
    ensures sets { AllSetsAreKept }
    ensures status { ChangesOneStatus }
{}

//! What a look asks for and comes to.
ghost use Rattle.undo_look.specs.Course.{LooksFollowGets};

/// Whatever comes, a look asks for what is asked for behind the replies that came, as its record's Get is, and shows what they show together.
pub fn looks_follow_gets()
    ensures { LooksFollowGets }
{}

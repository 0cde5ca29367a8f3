//! What holds of the requests of a greeting and of a look.

ghost use Rattle.model_headline.specs.GreetingRequests.{GreeterFreshens, GreetingsSetNothing, NoPlanGreets};
ghost use Rattle.model_headline.specs.LookRequests.{LooksSetNothing};

/// The requests of a greeting set nothing: every board refuses each for its length, and stays what it was. No request that a manager makes
/// for a plan, or to take one back, has the bytes of one. Behind a greeting's first and last request the manager's window is fresh.
pub fn greetings_set_nothing()
    ensures nothing { GreetingsSetNothing }
    ensures unlike { NoPlanGreets }
    ensures fresh { GreeterFreshens }
{}

/// The requests of a look set nothing: each record of every board stays what it was, whatever its port did before, and behind a Get the whole
/// board does. A reservation is no record.
pub fn looks_set_nothing()
    ensures { LooksSetNothing }
{}

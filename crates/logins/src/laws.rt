//! A theorem over whole runs, which stands on no call.
ghost use Rattle.logins.specs.Laws.{OneAtATime};

/// Once a login by a row is accepted, no other is, until that row is logged out.
pub fn one_login_at_a_time()
    ensures { OneAtATime }
{}

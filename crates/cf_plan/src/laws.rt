//! Laws about what may follow in an operation. None of these functions does anything when it runs.
ghost use Rattle.cf_plan.specs.Proper.{GrantedIsProper};

/// What comes next in an operation, of whatever kind and in whatever stage, can be written.
pub fn granted_is_proper()
    ensures { GrantedIsProper }
{}

//! What `==` promises where it is derived.
ghost use Rattle.terms.specs.Same.{RefusalEqIsExact};

/// The derived `==` of refusals is true exactly where the two are the same. A derive has no
/// clause to say so; this function is there for its clause alone.
pub fn equality_is_exact()
    ensures { RefusalEqIsExact }
{}

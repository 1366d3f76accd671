//! What `==` promises where it is derived.
ghost use Rattle.rules.specs.Same.{ComponentEqIsExact, DescriptorEqIsExact};

/// The derived `==` of components, and that of descriptors, is true exactly where the two are
/// the same. A derive has no clause to say so; this function is there for its clauses alone.
pub fn equality_is_exact()
    ensures components { ComponentEqIsExact }
    ensures descriptors { DescriptorEqIsExact }
{}

//! What holds of every order: laws that are proved, and have no code.
ghost use Rattle.std.specs.Prelude.{◌≡◌, ◌<◌, ℕ, Bool, length};
ghost use Rattle.bd_transitive.specs.Triangle.{AgreesWithClasses, MeetsTriangles};
ghost use Rattle.bd_transitive.specs.declared.graph.Order.{Order as AnyOrder};

/// Edge values that agree with some classes meet the triangles.
pub fn classes_meet_triangles()
    ensures { (order : AnyOrder) (value : ℕ → Bool) (class : ℕ → ℕ) →
        AgreesWithClasses order.edges value class → MeetsTriangles order value }
{}

/// Only the values of the order's edges count.
pub fn meets_by_edges()
    ensures { (order : AnyOrder) (value other : ℕ → Bool) →
        ((e : ℕ) → e < length order.edges → value e ≡ other e) →
        MeetsTriangles order value → MeetsTriangles order other }
{}

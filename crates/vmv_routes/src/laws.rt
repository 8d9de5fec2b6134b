ghost use Rattle.std.specs.Prelude.{◌≡◌, ◌↔◌, ◌++◌, ◌∷◌, ℕ, List, Some, IsUtf8};
ghost use Rattle.matchit.specs.Level.{IsText};
ghost use Rattle.vmv_routes.specs.declared.route.Route.{Route as SeenRoute};
ghost use Rattle.vmv_routes.specs.Paths.{part_of, slash, question_mark};
ghost use Rattle.vmv_routes.specs.Routes.{route_of};
ghost use Rattle.vmv_routes.specs.Matching.{IsPart, path_in, path_at, IsPathOf};
ghost use Rattle.vmv_routes.specs.Asked.{asked_of};

/// A path has a route exactly where it is the route's pattern with a part in place of each name.
pub fn routes_are_matched_part_by_part()
    ensures { (path : List ℕ) (route : SeenRoute) → IsText path → IsUtf8 path → (route_of path ≡ Some route ↔ IsPathOf route path) }
{}

/// The parts of a path that are read are those in place of its pattern's names.
pub fn parts_are_read_in_their_places()
    ensures owner { (owner project rest : List ℕ) → IsPart owner → part_of 2 (path_in owner project rest) ≡ owner }
    ensures project { (owner project rest : List ℕ) → IsPart owner → IsPart project → part_of 3 (path_in owner project (slash ∷ rest)) ≡ project }
    ensures number { (owner project n rest : List ℕ) → IsPart owner → IsPart project → IsPart n → part_of 5 (path_at owner project n (slash ∷ rest)) ≡ n }
{}

/// What stands behind a question mark in a target decides nothing.
pub fn queries_decide_nothing()
    ensures { (called path query : List ℕ) (members : ℕ) (member body : List ℕ) →
        asked_of called (path ++ question_mark ∷ query) members member body ≡ asked_of called path members member body }
{}

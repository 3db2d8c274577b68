// What holds of the definitions themselves. Each law is the contract of a function that does nothing.

ghost use Rattle.std.specs.Prelude.{◌≡◌, ◌↔◌, ℕ, List, Some};
ghost use Rattle.graph_routes.specs.{declared.routes.Route.Route as TheRoute, Reading.routes_in, Routes.AreRoutesIn};

/// The routes that are computed of a text are those whose text it is.
pub fn routes_are_read_from_their_text()
    ensures { (text : List ℕ) (routes : List TheRoute) → (routes_in text ≡ Some routes) ↔ AreRoutesIn text routes }
{}

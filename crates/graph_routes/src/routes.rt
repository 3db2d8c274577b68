// Routes of entities to graphs.

ghost use Rattle.std.specs.Prelude.{◌≡◌, ◌↔◌, ◌+◌, ◌≤◌, List, length, IfOk, Some};
ghost use Rattle.graph_routes.specs.{declared.routes.Route.Route as TheRoute, Routes.AreRoutesIn, Routes.graph_name};

use crate::reading::read_routes;
use base::{List, OutOfMemory, Text};
use entity_model::EntityId;
use std::alloc::Global;
use std::marker::Model;

/// A route: the graph with this name has the entities that are an instance of one of these classes.
#[derive(Drop)]
pub(crate) struct Route {
    pub(crate) name: Text,
    pub(crate) classes: List<EntityId>,
}

/// Routes of entities to graphs: one graph for each route, and a last one for all other entities. Contracts see the list of the routes.
#[derive(Drop)]
pub struct Routes {
    pub(crate) routes: List<Route>,
}

impl Model for Routes {
    ghost use Rattle.std.specs.Prelude.{List};
    ghost use Rattle.graph_routes.specs.{declared.routes.Route.Route, Routes.AreRoutes};

    ghost Value = { List Route };

    ghost view = { λ r. r.routes };

    ghost invariant = { λ r. AreRoutes r.routes };
}

impl Routes {
    /// Reads routes, as `people:Q5;papers:Q13442814,Q580922`: 1 to 16 routes with a semicolon between each two. A route is a name, a colon,
    /// and the ids of 1 to 64 items with a comma between each two. A name has 1 to 16 letters from a to z; it isn't `main`, and no two routes
    /// have the same. Any other text is none.
    pub fn read(alloc: Global, text: &str) -> Result<Option<Routes>, OutOfMemory>
        ensures { IfOk result (λ found. (routes : List TheRoute) → (found ≡ Some routes) ↔ AreRoutesIn text.now routes) }
    {
        match read_routes(alloc, text)? {
            Some(routes) => Ok(Some(Routes { routes })),
            None => Ok(None),
        }
    }

    /// The number of graphs: one more than the number of routes. It takes no memory.
    pub fn graphs(&self) -> usize
        ensures count { result ≡ length self.now + 1 }
        ensures few { result ≤ 17 }
    {
        self.routes.len() + 1
    }

    /// The name of a graph, by its index from 0: that of its route, and `main` for the last one. It takes no memory.
    pub fn name(&self, graph: usize) -> &str
        requires { graph ≤ length self.now }
        ensures { result.now ≡ graph_name self.now graph }
    {
        match self.routes.get(graph) {
            Some(route) => route.name.as_str(),
            None => "main",
        }
    }
}

// What holds of the definitions themselves. Each law is the contract of a function that does nothing.

ghost use Rattle.subgraph.specs.Laws.{GraphsAreTheUnion, GraphsFollowTheRecords, GraphsNeedNoMoreRoom};

/// Where each page is routed to one of n graphs, a triple is in one of the graphs exactly where it is in the union of all that is held.
pub fn graphs_are_the_union()
    ensures { GraphsAreTheUnion }
{}

/// Where each entity has the entry of what it holds, a graph has the triples of what is routed to it.
pub fn graphs_follow_the_records()
    ensures { GraphsFollowTheRecords }
{}

/// Where each entity has the entry of what it holds, a graph needs room for no more terms than all that is held does, each with the same other
/// triples: where these have room beside all that is held, they have it beside a graph.
pub fn graphs_need_no_more_room()
    ensures { GraphsNeedNoMoreRoom }
{}

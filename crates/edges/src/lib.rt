// The table of edges, shown of the meanings of the sheets.
#![tactic(auto)]

ghost use Rattle.edges.specs.Edges.{Edges};

// Shows that the meanings of the sheets answer each row of the table as it says; it does nothing when run.
pub fn show_edges()
    ensures { Edges }
{}

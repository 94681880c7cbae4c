// Document 01, "Proved examples".
ghost use Rattle.std.specs.Prelude.{◌≡◌, []};
ghost use Rattle.rules.specs.Examples.{disagreeing, rows};

// The examples of document 01 hold of the definitions: no row of the table disagrees.
pub fn worked_examples()
    ensures { disagreeing rows ≡ [] }
{}

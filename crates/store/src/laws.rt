// Theorems about the tables of both stores. The contract of each law is a theorem.
ghost use Rattle.store.specs.Plain as law;

// What is computed from a table alone is what the stores keep, so it can stand in a type.
pub fn plain_is_okay()
    ensures { law.PlainIsOkay }
{}

// The same of the law that a cell of count 0 is wiped.
pub fn plain_is_clean()
    ensures { law.PlainIsClean }
{}

// And of each cell being as its store's way to lower leaves it, which stands in the type of a bench.
pub fn tidy_is_clean()
    ensures { law.TidyIsClean }
{}

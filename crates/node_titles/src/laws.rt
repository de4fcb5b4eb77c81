//! Laws of walks, each stated as the contract of a function with an empty body.
ghost use Rattle.node_titles.specs.Laws.{WalksFindAll, WalksFindFirst};

/// A walk finds the first of the rows that pass a test, and the others are those from the place where the next walk
/// begins. That place is behind its own start, by 20,000 rows at most.
pub fn walks_find_first()
    ensures { WalksFindFirst }
{}

/// Walks that follow one another from the first row on find each row that passes a test once, in the order of the rows.
pub fn walks_find_all()
    ensures { WalksFindAll }
{}

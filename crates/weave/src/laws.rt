ghost use Rattle.weave.specs.Known.{Known};
ghost use Rattle.weave.specs.Places.{ShownByPlaces};
ghost use Rattle.weave.specs.Relation.{TheOnlySet};

// What a set shows, said by places in the body.
pub fn shown_by_places()
    ensures { ShownByPlaces }
{}

// The set of a version, said as a relation that has one solution.
pub fn the_only_set()
    ensures { TheOnlySet }
{}

// Known bodies and tables, and what comes of them.
pub fn known_tables()
    ensures { Known }
{}

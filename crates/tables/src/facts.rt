// What is known of the tables as they stand.
ghost use Rattle.tables.specs.Facts.{TableFacts, TableDistances};

// The words of each table are complements, turns or sums of one another.
pub fn tables_obey_their_rules()
    ensures { TableFacts }
{}

// The least distances: N for the (N,1) codes, 4, 6 and 12 for (8,4), (16,4) and (32,4), and 1 for the straight code.
pub fn tables_keep_their_distances()
    ensures { TableDistances }
{}

//! Laws of the definitions.
ghost use Rattle.es_query.specs.Laws.{IsReadByClause, ReadIsSound, SamePrintIsSame};

/// A query is read as an object with one member, which is a clause.
pub fn is_read_by_clause()
    ensures { IsReadByClause }
{}

/// What is read is sound.
pub fn read_is_sound()
    ensures { ReadIsSound }
{}

/// Sound queries that print the same tree are the same query.
pub fn same_print_is_same()
    ensures { SamePrintIsSame }
{}

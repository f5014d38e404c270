//! What reading, checking and printing say of one another.
ghost use Rattle.es_compose.specs.Laws.{QueryBack, CheckedBack};

/// It does nothing. Its contract is the laws that what is printed of a role's query that was read reads back to it, and
/// that a descriptor that was read and checked is read and checked to the same from what is printed of it.
pub fn laws()
    ensures query_back { QueryBack }
    ensures checked_back { CheckedBack }
{
    es_template::laws();
}

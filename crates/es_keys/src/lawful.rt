//! What holds of every key.
ghost use Rattle.es_keys.specs.Laws.{EncodedBack, IdsPlain, MadeBack, IdsApart, MadeUnexpired};

/// It does nothing. Its contract is the laws that what a client sends of a key says the key's id and secret, that an id is
/// in UTF-8 and has no colon, that so each key that is made reads back, that different places have different ids, and that a
/// key expires at its moment plus its duration and not before.
pub fn laws()
    ensures encoded_back { EncodedBack }
    ensures ids_plain { IdsPlain }
    ensures made_back { MadeBack }
    ensures ids_apart { IdsApart }
    ensures made_unexpired { MadeUnexpired }
{}

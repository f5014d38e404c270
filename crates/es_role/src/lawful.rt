//! What reading and printing descriptors say of one another.
ghost use Rattle.es_role.specs.Laws.{DescriptorBack};

/// It does nothing. Its contract is the law that what is printed of a descriptor that was read reads back to it.
pub fn laws()
    ensures descriptor_back { DescriptorBack }
{}

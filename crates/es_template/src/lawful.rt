//! What reading, printing and filling templates say of one another.
ghost use Rattle.es_template.specs.Laws.{TemplateBack, FilledInTree, ShapeKept};

/// It does nothing. Its contract is these laws: what is printed of a template that was read reads back to it; filling
/// is substitution in the tree that was read; and no value changes the shape of that tree, but in place of a hole.
pub fn laws()
    ensures template_back { TemplateBack }
    ensures filled_in_tree { FilledInTree }
    ensures shape_kept { ShapeKept }
{}

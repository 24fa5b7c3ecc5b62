//! Laws of the definitions. These functions do nothing: their contracts are what they are for.
ghost use Rattle.lt_core.specs.Laws.{GrowsByParts};

/// What a call adds to each story that a core stands for, it adds to each list.
pub fn stories_grow_by_parts()
    ensures { GrowsByParts }
{}

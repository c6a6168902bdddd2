// What a replay of records has to do with an image.
ghost use Rattle.tree_region.specs.Laws.{ReplayAgreesWithImage};

/// Where an image's entries make a tree, a replay of records gives the names that the image's entries stand
/// for after the same records; and it gives none exactly where the image has none.
pub fn replay_agrees_with_image()
    ensures { ReplayAgreesWithImage }
{}

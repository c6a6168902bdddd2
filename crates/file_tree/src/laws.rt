// Laws on the definitions, each the contract of a function.
ghost use Rattle.file_tree.specs.Laws.{BodyAgreesWithImage, OnlyBlocksAreLeft};

/// The tree that is read in a body is the one that the entries of the image stand for.
pub fn body_agrees_with_image()
    ensures { BodyAgreesWithImage }
{}

/// Where a tree is read in a body and the image gives no entries, only the blocks of the body are bad.
pub fn only_blocks_are_left()
    ensures { OnlyBlocksAreLeft }
{}

//! Laws of images: which of them stand for the empty state, which for none, and which bytes don't matter.
#![tactic(auto)]

ghost use Rattle.image_laws.specs.Laws.{TableFitsSuperblock, EmptyImageIsEmpty, ClosedImageIsUnformatted, UnnamedBlocksDontMatter, SlotsTellNamedBlocks};

/// The bytes of an accepted table have room in the superblock.
pub fn table_fits_superblock()
    ensures { TableFitsSuperblock }
{}

/// A formatted image stands for the state in which nothing was ever stored.
pub fn empty_image_is_empty()
    ensures { EmptyImageIsEmpty }
{}

/// A long enough image whose superblock is closed is not formatted.
pub fn closed_image_is_unformatted()
    ensures { ClosedImageIsUnformatted }
{}

/// Data blocks that the newest body of a tree, changed by its leading records, doesn't name, are no part of the tree.
pub fn unnamed_blocks_dont_matter()
    ensures { UnnamedBlocksDontMatter }
{}

/// Which data blocks are named is told by the bytes of the two slots.
pub fn slots_tell_named_blocks()
    ensures { SlotsTellNamedBlocks }
{}

//! Laws of a whole image: where its parts stand, that they tell its state, and what a cut leaves of it by what it leaves
//! of each part.
#![tactic(auto)]

ghost use Rattle.image_layout.specs.Laws.{PartsAreBetween, PartsAreNow, StateIsInLayout, StateIsOfParts};
ghost use Rattle.image_layout.specs.Layout.{TableIsLaidOut};

/// The superblock, the regions of trees and those of logbooks lie one behind another.
pub fn table_is_laid_out()
    ensures { TableIsLaidOut }
{}

/// An image stands for a state exactly where its superblock is the table's and its regions stand for the state's parts.
pub fn state_is_of_parts()
    ensures { StateIsOfParts }
{}

/// What a cut leaves of each part, by itself, is what it leaves of the whole.
pub fn parts_are_between()
    ensures { PartsAreBetween }
{}

/// Between calls an image stands for what a cut of the world leaves.
pub fn parts_are_now()
    ensures { PartsAreNow }
{}

/// What stands behind the layout says nothing of the state.
pub fn state_is_in_layout()
    ensures { StateIsInLayout }
{}

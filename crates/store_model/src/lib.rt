//! What the store of a tree and the handles into it stand for.
#![tactic(auto)]

ghost use Rattle.std.specs.Prelude.{◌≡◌};
ghost use Rattle.apex_model.specs.Durable.{IsCutOfTree};
ghost use Rattle.apex_model.specs.Files.{File};
ghost use Rattle.apex_model.specs.Firsts.{first_tree};
ghost use Rattle.apex_model.specs.Trees.{Tree};
ghost use Rattle.store_model.specs.Standing.{IsTree};
ghost use Rattle.store_model.specs.Stores.{StoreValue, durable_of};

/// What is durable of a store is the synchronised tree of what the store stands for.
pub fn durable_is_synchronised()
    ensures { (v : StoreValue) (tree : Tree File) → IsTree v tree → durable_of v ≡ first_tree tree }
{}

/// A cut may leave each file of a tree its synchronised content.
pub fn synchronised_is_a_cut()
    ensures { (tree : Tree File) → IsCutOfTree tree (first_tree tree) }
{}

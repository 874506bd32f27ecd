//! What holds of the tree at every time, and what each write to it keeps.

#![tactic(auto)]

ghost use Rattle.model_tree.specs.Theorems.{TreeKeeps, MapsKeep};

/// A good tree stays good under every write of an add or a removal, and says of itself what a walk learns.
pub fn tree_keeps()
    ensures { TreeKeeps }
{}

/// The map of what is held follows the writes.
pub fn maps_keep()
    ensures { MapsKeep }
{}

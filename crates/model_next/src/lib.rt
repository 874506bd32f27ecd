//! What `next` found is the first pair not below its key.

#![tactic(auto)]

ghost use Rattle.model_next.specs.Examples.{Sights};
ghost use Rattle.model_next.specs.Laws.{OrderLaws, TreeLaws, WalkLaws, FreshLaws, OneAnswer};
ghost use Rattle.model_next.specs.Next.{Snapshot};
ghost use Rattle.model_next.specs.Walk.{plain, held};

/// Byte order: total, transitive, and decided where keys part.
pub fn byte_order()
    ensures { OrderLaws }
{}

/// A leaf lies below one child, and the smallest leaf below the smallest child.
pub fn smallest_below()
    ensures { TreeLaws }
{}

/// With each permit sound at one time, the result in hand is the map's answer at that time: of nodes held by where they
/// stand alone, and of nodes held with their permits.
pub fn snapshot_answers()
    ensures plain { Snapshot plain }
    ensures with_permits { Snapshot held }
{}

/// The map has one answer.
pub fn one_answer()
    ensures { OneAnswer }
{}

/// What next has seen is kept to its final checks, and these pass only with the map's answer in hand.
pub fn walk_keeps()
    ensures plain { WalkLaws plain }
    ensures with_permits { WalkLaws held }
{}

/// With each permit sound, no look is stale.
pub fn looks_fresh()
    ensures plain { FreshLaws plain }
    ensures with_permits { FreshLaws held }
{}

/// Looks at a small tree.
pub fn small_tree()
    ensures { Sights }
{}

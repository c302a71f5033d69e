//! Theorems on the definitions. Each is the contract of a function with an empty body.
ghost use Rattle.btr_verify.specs.Laws.{NodesOfOneVersionAreOne, RightNodesAreOwn, NodesAreJudgedOnce};
ghost use Rattle.btr_verify.specs.Laws.{LeavesAreJudged, RootsAreRight, FirstWrongIsOne, RootsLeadOrAreWrong};

/// A block leads to a node of a version exactly if it leads to it in the version that the node has.
pub fn nodes_of_one_version_are_one()
    ensures { NodesOfOneVersionAreOne }
{}

/// A node that is right with all nodes below it has its own fields right, and so has each child of its slots.
pub fn right_nodes_are_own()
    ensures { RightNodesAreOwn }
{}

/// A node is right with all nodes below it exactly if its own fields are right and the children of its slots are right. So one
/// pass over the blocks, children before parents, judges each node once.
pub fn nodes_are_judged_once()
    ensures { NodesAreJudgedOnce }
{}

/// A node without slots is right exactly if its own fields are right.
pub fn leaves_are_judged()
    ensures { LeavesAreJudged }
{}

/// The root of a version leads to its tree exactly if it has the version of the tree's root and is right. The root of a version
/// without points is 0.
pub fn roots_are_right()
    ensures { RootsAreRight }
{}

/// At most one block has the first wrong node of a version, and none has it if the root leads to the version's tree.
pub fn first_wrong_is_one()
    ensures { FirstWrongIsOne }
{}

/// If each stored node is placed as a page is, the root of a version leads to the version's tree, or there is a first wrong node.
pub fn roots_lead_or_are_wrong()
    ensures { RootsLeadOrAreWrong }
{}

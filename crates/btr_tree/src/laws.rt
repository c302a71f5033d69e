//! Theorems on the definitions. Each is a function with an empty body whose contract is the theorem.
ghost use Rattle.std.specs.Prelude.{ℕ};
ghost use Rattle.btr_tree.specs.History.{Past};
ghost use Rattle.btr_tree.specs.Nodes.{up_to};
ghost use Rattle.btr_tree.specs.Agree.{AgreeSince};

/// A span whose node or slot has a version has equal points in every version from that one to the latest. So a query for
/// what changed since a version need not look below a node or slot that is not newer.
pub fn equal_since_its_version()
    ensures { (h : Past) (version : ℕ) → AgreeSince version (up_to version h) h }
{}

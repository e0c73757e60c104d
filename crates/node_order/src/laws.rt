//! What is proved of the order of nodes.

ghost use Rattle.node_order.specs.Laws.{ModulesAreInOrder};

/// The nodes of a module that has the form and the places of a text stand in the order of the text, the outer before the inner.
pub fn modules_are_in_order()
    ensures { ModulesAreInOrder }
{}

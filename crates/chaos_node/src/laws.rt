//! Laws of a node. The function does nothing; its contract is the law.
ghost use Rattle.chaos_node.specs.EndLaws.{NodesEndWithRun};

/// At the end of a plan node 0 has the text of the run; each node has the refusal, its own counts, and the
/// executions that inspect.
pub fn nodes_end_with_the_run()
    ensures { NodesEndWithRun }
{}

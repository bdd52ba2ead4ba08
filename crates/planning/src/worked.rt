// Worked examples of the definitions: these functions do nothing but carry their statements, so that the check asks for their
// proofs.
ghost use Rattle.planning.specs.Worked.{Standing};
ghost use Rattle.planning.specs.WorkedRuns.{FourTasksRun};

// The definitions give the standing list the plan that is worked out by hand.
fn worked_plans()
    ensures { Standing }
{}

// The definitions run plans of four tasks, and count their jobs, as worked out by hand.
fn worked_runs()
    ensures { FourTasksRun }
{}

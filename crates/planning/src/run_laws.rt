// What holds of every run: these functions do nothing but carry its statements, so that the check asks for their proofs.
ghost use Rattle.planning.specs.Patterns.{PatternsDemand};
ghost use Rattle.planning.specs.RunLaws.{RunsAreReplays, RunsKeepBooks, WindowsHold};

// The events of a run have one log, and it is the computed one.
fn runs_are_replays()
    ensures { RunsAreReplays }
{}

// Every job that is released comes due or is awaited, what is kept is due, a task has one job at a time, and what is refused
// leaves the log.
fn runs_keep_books()
    ensures { RunsKeepBooks }
{}

// A job of a task with a response is done that many ticks after it became ready, in every run.
fn windows_hold()
    ensures { WindowsHold }
{}

// If the demanding pattern on a task misses nothing, the task's demand is met in time after its hold.
fn patterns_demand()
    ensures { PatternsDemand }
{}

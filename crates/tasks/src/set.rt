// A set of tasks is a 32-bit word: bit k stands for task k.
ghost use Rattle.std.specs.Prelude.{◌≡◌, ◌-◌, ◌^◌, ◌==◌};
ghost use Rattle.tasks.specs.Set.{bit, without, first_set};

// Whether the set has the task.
pub fn has(set: u32, task: usize) -> bool
    ensures { result ≡ ((bit set task) == 1) }
{
    task < 32 && (set >> task) % 2 == 1
}

// The set with the task taken out.
pub fn take_out(set: u32, task: usize) -> u32
    ensures { result ≡ without set task }
{
    if has(set, task) {
        set - (1 << task)
    } else {
        set
    }
}

// The set of the tasks below `count`, or of all 32 where `count` is above that.
pub fn first_tasks(count: usize) -> u32
    ensures { result ≡ first_set count }
{
    if count >= 32 {
        u32::MAX
    } else {
        (1 << count) - 1
    }
}

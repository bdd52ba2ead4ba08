// The demand of a task below a set of tasks.
ghost use Rattle.std.specs.Prelude.{◌≡◌, ◌*◌, ◌^◌, ◌<◌};
ghost use Rattle.analysis.specs.Demand.{ceil, demand as demand_of};

use crate::question::Question;
use tasks::task::Task;

// What the jobs of a task that begin in so many ticks ask for.
fn jobs_charge(task: Task, ticks: u16) -> u64
    ensures value { result ≡ task.cost * ceil ticks task.period }
    ensures small { result < 2 ^ 32 }
{
    u64::from(task.cost) * u64::from(ticks.div_ceil(task.period))
}

impl Question<'_> {
    // The demand of the task below the set, in so many ticks.
    pub(crate) fn demand(&self, ticks: u16) -> u64
        ensures { result ≡ demand_of self.now.list.now self.now.set self.now.task ticks }
    {
        let mut sum = u64::from(self.asked().cost);
        for (number, other) in self.list.tasks().iter().enumerate() {
            if (self.set >> number) % 2 == 1 {
                sum += jobs_charge(*other, ticks);
            }
        }
        sum
    }
}

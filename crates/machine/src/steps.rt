// A run's counter, step tally and bus; how it begins and ends; and one step, which takes all three and hands all back, and the place that it wrote.
ghost use Rattle.std.specs.Prelude.{◌≡◌, ◌+◌, ◌*◌, ◌<◌, ◌≤◌, length};
ghost use Rattle.model.specs.Limits.{row_width};
ghost use Rattle.model.specs.Answers.{ended, halted, spent};
ghost use Rattle.model.specs.Places.{place};
ghost use Rattle.model.specs.Stored.{line_at};
ghost use Rattle.machine.specs.Loop.{addresses, machine, step_of};

use super::tables::{Masks, Weights};
use model::Ending;

#[derive(Clone, Copy)]
pub struct Run {
    pub counter: u16,
    pub steps: u16,
    pub bus: u16,
}

// A run after a step, and the place that the step wrote, past the state where it wrote none.
#[derive(Clone, Copy)]
pub struct Stepped {
    pub run: Run,
    pub place: usize,
}

impl Run {
    // A run before its first step.
    pub fn new(start: u16) -> Self
        ensures { result ≡ record { counter = start; steps = 0; bus = 0 } }
    {
        Run {
            counter: start,
            steps: 0,
            bus: 0,
        }
    }

    // How it ends past its last line, and with its budget used up.
    pub fn halted(self) -> Ending
        ensures { ended result ≡ halted self.counter self.steps }
    {
        Ending::Halted {
            counter: self.counter,
            steps: self.steps,
        }
    }

    pub fn spent(self) -> Ending
        ensures { ended result ≡ spent self.counter self.steps }
    {
        Ending::Spent {
            counter: self.counter,
            steps: self.steps,
        }
    }

    // One step of a stored program, with room in the trace store for its row.
    #[inline(always)]
    pub fn step(
        self,
        program: &[u16],
        masks: &Masks,
        weights: &Weights,
        state: &mut [u8],
        trace: &mut [u16],
    ) -> Stepped
        requires { (self.counter < 65535) × (self.steps < 65535) × (self.bus < addresses) × (row_width * self.steps + row_width ≤ length trace.old) }
        ensures stepped { machine result.run state.new trace.new ≡ step_of program.now (machine self state.old trace.old) }
        ensures bus_and_place { (result.run.bus < addresses) × (result.place ≡ place (line_at program.now self.counter).destination state.old) }
    {
        let n = coding::numbers_at(program, self.counter as usize);
        let done = super::perform(
            n[0],
            n[1],
            n[2],
            n[3],
            n[4],
            n[5],
            self.counter,
            self.bus,
            masks,
            weights,
            state,
        );
        super::write_row(trace, self.steps as usize, done.row);
        Stepped {
            run: Run {
                counter: done.next,
                steps: self.steps + 1,
                bus: done.bus,
            },
            place: done.place,
        }
    }
}

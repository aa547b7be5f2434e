ghost use Rattle.std.specs.Prelude.{◌≡◌, ◌+◌, ◌<◌, ◌≤◌, true, [], ◌∷◌, length, drop, is_some, Some, None, MatchOption};
ghost use Rattle.push.specs.Machine.{at, pushed, loaded, stored, negated, branched, copied, swapped, dropped, integers_on, integer_on, flag_on, StepFollowsTheRules};
ghost use Rattle.push.specs.Numbers.{SumsStopAtTheEnds};
ghost use Rattle.push.specs.StackKinds.{StepsGoByKinds};
ghost use Rattle.push.specs.Run.{label_of, stack_of, values_of, begun, run, CountedSteps, TrueStatus, AdvancesTo, NewRunsAreTrue};

use crate::VARIABLES;
use crate::instruction::Instruction;
use crate::number::nearest;
use crate::program::Program;
use crate::stack::Stack;
use crate::status::Status;
use crate::value::Value;
use std::marker::Model;

/// A program under way: its status, the label of the instruction that comes next, its stack, and the values of the variables.
#[derive(Drop)]
pub struct Run {
    program: Program,
    status: Status,
    label: usize,
    stack: Stack,
    values: [i32; VARIABLES],
}

// In a clause a run is its program and its state: the status, and the machine of its label, stack and values.
impl Model for Run {
    ghost use Rattle.std.specs.Prelude.{◌≡◌, length};
    ghost use Rattle.push.specs.Machine.{at};
    ghost use Rattle.push.specs.Run.{ProgramRun};

    ghost Value = { ProgramRun };

    ghost view = { λ r. record {
      program = r.program;
      state = record { status = r.status; machine = at r.label r.stack r.values };
    } };

    ghost invariant = { λ r. length r.values ≡ 32 };
}

// That the label is below 128 holds only where it has an instruction, so it is a clause of the calls that a step makes.
impl Run {
    ghost use Rattle.push.specs.Stepped.{next, stepped, stepped_by, settled};

    /// A run at label 0 with an empty stack, on the values of the variables. Without instructions it has halted.
    pub fn begin(program: Program, values: [i32; VARIABLES]) -> Self
        ensures is_a_new_run { result.state ≡ begun program values }
        ensures same_program { result.program ≡ program }
    {
        let status = if program.len() == 0 {
            Status::Halted
        } else {
            Status::Going
        };
        Run {
            program,
            status,
            label: 0,
            stack: Stack::empty(),
            values,
        }
    }

    /// Makes steps until the run stops or `budget` are made, and answers the status then and how many were made.
    pub fn advance(&mut self, budget: u32) -> (Status, u32)
        ensures runs_the_budget { (result.1, self.new.state)
            ≡ run self.old.program budget self.old.state }
        ensures answers_the_status { result.0 ≡ self.new.state.status }
        ensures same_program { self.new.program ≡ self.old.program }
        ensures makes_the_machines_steps { CountedSteps
            self.old.program budget result.1 self.old.state self.new.state }
        ensures follows_the_rules_of_an_advance { TrueStatus self.old.program self.old.state
            → AdvancesTo
            self.old.program budget self.old.state result.1 self.new.state }
        ensures new_runs_are_true { NewRunsAreTrue }
        ensures steps_follow_the_rules { StepFollowsTheRules }
        ensures steps_go_by_kinds { StepsGoByKinds }
        ensures sums_stop_at_the_ends { SumsStopAtTheEnds }
    {
        let steps = self.steps(budget);
        (self.status, steps)
    }

    /// The status, the program and the values that the run leaves.
    pub fn finish(self) -> (Status, Program, [i32; VARIABLES])
        ensures hands_back_what_it_leaves { result
            ≡ (self.state.status, self.program, values_of self.state.machine) }
    {
        let values = self.values;
        (self.status, self.program, values)
    }

    // Makes steps until none can be made or so many are made, and answers how many. A step does not write the status;
    // `settle` does, where the steps end: a status that each step wrote would be read again at the next.
    fn steps(&mut self, budget: u32) -> u32
        ensures runs_the_budget { (result, self.new.state)
            ≡ run self.old.program budget self.old.state }
        ensures same_program { self.new.program ≡ self.old.program }
    {
        for steps in 0..budget {
            if self.step().is_none() {
                self.settle(steps, Status::Faulted);
                return steps;
            }
        }
        self.settle(budget, Status::Going);
        budget
    }

    // Where so many steps end, a run that is going becomes halted if they came to the exit, and otherwise what is passed.
    // Where none was made it has come nowhere: a run that is going at the exit is none that `begin` and `advance` leave,
    // but the type does not say so, since between steps there is one.
    fn settle(&mut self, steps: u32, otherwise: Status)
        ensures { self.new ≡ settled steps otherwise self.old }
    {
        if self.status == Status::Going {
            self.status = if steps > 0 && self.label == self.program.len() {
                Status::Halted
            } else {
                otherwise
            };
        }
    }

    // Makes the step that the status and the instruction at the label ask for. None, and nothing changed, where there is none.
    // The instruction is lent and not copied: of it a step reads what it needs.
    fn step(&mut self) -> Option<()>
        ensures { (is_some result, self.new) ≡ stepped self.old (next self.old) }
    {
        match (self.status, self.program.look(self.label)) {
            (Status::Going, Some(&Instruction::Load(variable))) => self.load(variable),
            (Status::Going, Some(&Instruction::Store(variable))) => self.store(variable),
            (Status::Going, Some(&Instruction::Push(number))) => self.push(Value::Int(number)),
            (Status::Going, Some(Instruction::Add)) => {
                self.combine(|u, t| Value::Int(nearest(i64::from(u) + i64::from(t))))
            }
            (Status::Going, Some(Instruction::Sub)) => {
                self.combine(|u, t| Value::Int(nearest(i64::from(u) - i64::from(t))))
            }
            (Status::Going, Some(Instruction::Eq)) => self.combine(|u, t| Value::Flag(u == t)),
            (Status::Going, Some(Instruction::Less)) => self.combine(|u, t| Value::Flag(u < t)),
            (Status::Going, Some(Instruction::Not)) => self.negate(),
            (Status::Going, Some(&Instruction::Goto(target))) => self.go(usize::from(target)),
            (Status::Going, Some(&Instruction::GotoF { target, .. })) => self.branch(target),
            (Status::Going, Some(Instruction::Copy)) => self.copy_top(),
            (Status::Going, Some(Instruction::Swap)) => self.swap_top_two(),
            (Status::Going, Some(Instruction::Drop)) => self.drop_top(),
            (Status::Going, None) => None,
            (Status::Halted | Status::Faulted, _) => None,
        }
    }

    // Comes to a label.
    fn go(&mut self, label: usize) -> Option<()>
        ensures { (is_some result, self.new)
            ≡ stepped_by self.old (λ l s vs. Some (at label s vs)) }
    {
        self.label = label;
        Some(())
    }

    // Goes on to the next label with a value in place of so many popped ones.
    fn put(&mut self, popped: usize, value: Value) -> Option<()>
        requires label { label_of self.old.state.machine < 128 }
        requires places { (popped ≤ length (stack_of self.old.state.machine))
            × (length (stack_of self.old.state.machine) < 8 + popped) }
        ensures { (is_some result, self.new)
            ≡ stepped_by self.old (λ l s vs. Some (at (l + 1) (value ∷ drop popped s) vs)) }
    {
        // The label first: tried after the stack, a step of the nest of branches took a fifth longer.
        self.label += 1;
        self.stack.put(popped, value);
        Some(())
    }

    // Goes on to the next label with the top popped.
    fn pop(&mut self) -> Option<()>
        requires label { label_of self.old.state.machine < 128 }
        requires place { 1 ≤ length (stack_of self.old.state.machine) }
        ensures { (is_some result, self.new)
            ≡ stepped_by self.old (λ l s vs. Some (at (l + 1) (drop 1 s) vs)) }
    {
        self.label += 1;
        self.stack.pop();
        Some(())
    }

    // Pushes a value, where a place is free.
    fn push(&mut self, value: Value) -> Option<()>
        requires { label_of self.old.state.machine < 128 }
        ensures { (is_some result, self.new) ≡ stepped_by self.old (pushed value) }
    {
        if !self.stack.has_room() {
            return None;
        }
        self.put(0, value)
    }

    // Pushes a variable.
    fn load(&mut self, variable: u8) -> Option<()>
        requires { label_of self.old.state.machine < 128 }
        ensures { (is_some result, self.new) ≡ stepped_by self.old (loaded variable) }
    {
        let number = *self.values.get(usize::from(variable))?;
        self.push(Value::Int(number))
    }

    // Pops the integer on top into a variable.
    fn store(&mut self, variable: u8) -> Option<()>
        requires { label_of self.old.state.machine < 128 }
        ensures { (is_some result, self.new)
            ≡ stepped_by self.old (λ l s vs. stored variable (integer_on s) l s vs) }
    {
        let index = usize::from(variable);
        let &[Value::Int(number), ..] = self.stack.places() else {
            return None;
        };
        if index >= VARIABLES {
            return None;
        }
        // Not through `get_mut`: of what is written through it a proof knows the length alone.
        self.values[index] = number;
        self.pop()
    }

    // Puts what is made of the integers u and t in their place, where t is on top and u under it.
    fn combine<F: Fn(i32, i32) -> Value>(&mut self, make: F) -> Option<()>
        requires label { label_of self.old.state.machine < 128 }
        requires callable { F.IsAlwaysCallable make }
        ensures { MatchOption (integers_on (stack_of self.old.state.machine))
            ((is_some result, self.new) ≡ stepped self.old None)
            (λ p. (v : Value) × F.post make p.0 p.1 v
            × ((is_some result, self.new)
            ≡ stepped_by self.old (λ l s vs. Some (at (l + 1) (v ∷ drop 2 s) vs)))) }
    {
        let &[Value::Int(t), Value::Int(u), ..] = self.stack.places() else {
            return None;
        };
        self.put(2, make(u, t))
    }

    // Replaces the boolean on top by its opposite.
    fn negate(&mut self) -> Option<()>
        requires { label_of self.old.state.machine < 128 }
        ensures { (is_some result, self.new)
            ≡ stepped_by self.old (λ l s vs. negated (flag_on s) l s vs) }
    {
        let &[Value::Flag(flag), ..] = self.stack.places() else {
            return None;
        };
        self.put(1, Value::Flag(!flag))
    }

    // Goes to the target where the boolean on top is false.
    fn branch(&mut self, target: u8) -> Option<()>
        requires { label_of self.old.state.machine < 128 }
        ensures { (is_some result, self.new)
            ≡ stepped_by self.old (λ l s vs. branched target (flag_on s) l s vs) }
    {
        // Two arms: tried as one choice of a label, a step of the nest of branches took 3 % longer.
        match self.stack.places() {
            [Value::Flag(true), ..] => self.pop(),
            [Value::Flag(false), ..] => {
                self.stack.pop();
                self.go(usize::from(target))
            }
            _ => None,
        }
    }

    // Pushes the top again.
    fn copy_top(&mut self) -> Option<()>
        requires { label_of self.old.state.machine < 128 }
        ensures { (is_some result, self.new) ≡ stepped_by self.old copied }
    {
        // Two arms: with a value that was copied whole, a step of the nest of branches took a seventh longer.
        match self.stack.places() {
            &[Value::Int(number), ..] => self.push(Value::Int(number)),
            &[Value::Flag(flag), ..] => self.push(Value::Flag(flag)),
            [] => None,
        }
    }

    // Exchanges the top two places.
    fn swap_top_two(&mut self) -> Option<()>
        requires { label_of self.old.state.machine < 128 }
        ensures { (is_some result, self.new) ≡ stepped_by self.old swapped }
    {
        let &[top, under, ..] = self.stack.places() else {
            return None;
        };
        self.stack.put(2, top);
        self.put(0, under)
    }

    // Takes the top away.
    fn drop_top(&mut self) -> Option<()>
        requires { label_of self.old.state.machine < 128 }
        ensures { (is_some result, self.new) ≡ stepped_by self.old dropped }
    {
        if self.stack.places().is_empty() {
            return None;
        }
        self.pop()
    }
}

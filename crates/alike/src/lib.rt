//! Lists of calls that are alike for an observer, over each kind of lattice of the bench: where both runs halt, the
//! observer's two sheets are the same, and those for the highest level differ.
#![tactic(auto)]

#[cfg(test)]
mod tests {
    use controller::{Answer, Call, Ending, SHEET, Sheet, two_transcripts};
    use lattice::{Flip, Ladder, Lattice, Owners, Pair};
    use std::alloc::{AllocError, Global};
    use std::process::Abort;
    use std::test::Fail;

    // The codes of a lattice's ends, of an observer, of a level that is closed to it, and of their join.
    #[derive(Clone, Copy)]
    struct Levels {
        lowest: u8,
        observer: u8,
        closed: u8,
        joined: u8,
        highest: u8,
    }

    // A place of the stack, by its kind and level.
    #[derive(Clone, Copy)]
    enum Place {
        Int(u8),
        Bool(u8),
    }

    impl Place {
        // The bytes of a place: its kind and its level.
        fn bytes(self) -> [u8; 2] {
            match self {
                Place::Int(level) => [0, level],
                Place::Bool(level) => [1, level],
            }
        }
    }

    // An instruction with its operand. `GotoFalse` goes to its target where the top is false, and its ways meet at the
    // junction.
    #[derive(Clone, Copy)]
    enum Instruction {
        Load(u8),
        Store(u8),
        Push(u8),
        Add,
        Sub,
        Eq,
        Goto(u8),
        GotoFalse { junction: u8, target: u8 },
        Copy,
        Swap,
        Drop,
    }

    impl Instruction {
        // The bytes of a record: the operation, the junction and the operand.
        fn record(self) -> [u8; 6] {
            let [operation, junction, operand] = match self {
                Instruction::Load(variable) => [1, 0, variable],
                Instruction::Store(variable) => [2, 0, variable],
                Instruction::Push(value) => [3, 0, value],
                Instruction::Add => [4, 0, 0],
                Instruction::Sub => [5, 0, 0],
                Instruction::Eq => [6, 0, 0],
                Instruction::Goto(label) => [9, 0, label],
                Instruction::GotoFalse { junction, target } => [10, junction, target],
                Instruction::Copy => [11, 0, 0],
                Instruction::Swap => [12, 0, 0],
                Instruction::Drop => [13, 0, 0],
            };
            [operation, junction, operand, 0, 0, 0]
        }
    }

    // Variable 2 becomes 5 where variable 1 is 0, and else 9; then variable 0 becomes the sum of variables 3 and 4.
    const PUSHES: [Instruction; 12] = [
        Instruction::Load(1),
        Instruction::Push(0),
        Instruction::Eq,
        Instruction::GotoFalse {
            junction: 7,
            target: 6,
        },
        Instruction::Push(5),
        Instruction::Goto(7),
        Instruction::Push(9),
        Instruction::Store(2),
        Instruction::Load(3),
        Instruction::Load(4),
        Instruction::Add,
        Instruction::Store(0),
    ];

    // The ways of the branch differ in what they make of two places that were there before it, variable 4 on top of 3. Where
    // variable 1 is 0, the upper one is dropped and the other is added to its copy; else the two are swapped, and the lower
    // one is subtracted from the upper. Variable 2 becomes the result, and then variable 0 the sum of variables 3 and 4.
    const MOVES: [Instruction; 17] = [
        Instruction::Load(3),
        Instruction::Load(4),
        Instruction::Load(1),
        Instruction::Push(0),
        Instruction::Eq,
        Instruction::GotoFalse {
            junction: 12,
            target: 10,
        },
        Instruction::Drop,
        Instruction::Copy,
        Instruction::Add,
        Instruction::Goto(12),
        Instruction::Swap,
        Instruction::Sub,
        Instruction::Store(2),
        Instruction::Load(3),
        Instruction::Load(4),
        Instruction::Add,
        Instruction::Store(0),
    ];

    // The observer's sheet after a run of either: 42, 30 and 12 in variables 0, 3 and 4.
    const OPEN: [u8; 15] = [0, 42, 0, 0, 0, 3, 30, 0, 0, 0, 4, 12, 0, 0, 0];

    // The record of a claim with at most four places on the stack, of which the top comes first.
    fn claim(surrounding: u8, stack: &[Place]) -> [u8; 16] {
        let count = stack.len().min(4) as u8;
        let [top, second, third, fourth] = [0, 1, 2, 3].map(|at| stack
            .get(at)
            .map_or([0; 2], |place| place.bytes()));
        [
            1,
            count,
            surrounding,
            0,
            top[0],
            top[1],
            0,
            second[0],
            second[1],
            0,
            third[0],
            third[1],
            0,
            fourth[0],
            fourth[1],
            0,
        ]
    }

    // The claims of `PUSHES`, with variable 1 at the closed level, 2 at the joined one, and 0, 3 and 4 at the observer's.
    fn claims_of_pushes(levels: &Levels) -> [[u8; 16]; 12] {
        let Levels {
            lowest,
            observer,
            closed,
            ..
        } = *levels;
        [
            claim(lowest, &[]),
            claim(lowest, &[Place::Int(closed)]),
            claim(lowest, &[Place::Int(lowest), Place::Int(closed)]),
            claim(lowest, &[Place::Bool(closed)]),
            claim(closed, &[]),
            claim(closed, &[Place::Int(closed)]),
            claim(closed, &[]),
            claim(lowest, &[Place::Int(closed)]),
            claim(lowest, &[]),
            claim(lowest, &[Place::Int(observer)]),
            claim(lowest, &[Place::Int(observer), Place::Int(observer)]),
            claim(lowest, &[Place::Int(observer)]),
        ]
    }

    // The claims of `MOVES`, over the same levels. The branch raises both places to the joined level.
    fn claims_of_moves(levels: &Levels) -> [[u8; 16]; 17] {
        let Levels {
            lowest,
            observer,
            closed,
            joined,
            ..
        } = *levels;
        let open = Place::Int(observer);
        let secret = Place::Int(closed);
        let raised = Place::Int(joined);
        [
            claim(lowest, &[]),
            claim(lowest, &[open]),
            claim(lowest, &[open, open]),
            claim(lowest, &[secret, open, open]),
            claim(lowest, &[Place::Int(lowest), secret, open, open]),
            claim(lowest, &[Place::Bool(closed), open, open]),
            claim(closed, &[raised, raised]),
            claim(closed, &[raised]),
            claim(closed, &[raised, raised]),
            claim(closed, &[raised]),
            claim(closed, &[raised, raised]),
            claim(closed, &[raised, raised]),
            claim(lowest, &[raised]),
            claim(lowest, &[]),
            claim(lowest, &[open]),
            claim(lowest, &[open, open]),
            claim(lowest, &[open]),
        ]
    }

    // The bytes of a job.
    fn job(
        heap: Global,
        program: &[Instruction],
        claims: &[[u8; 16]],
    ) -> Result<Vec<u8>, AllocError> {
        let labels = program.len().min(128) as u8;
        let mut job = vec![in heap; labels, 0, 4, 0]?;
        for instruction in program {
            job.extend_from_slice(instruction.record().as_slice())?;
        }
        for claim in claims {
            job.extend_from_slice(claim.as_slice())?;
        }
        Ok(job)
    }

    // A grade of a variable by a code of one byte.
    fn grade<'x>(variable: u8, level: u8) -> Call<'x> {
        Call::Grade {
            variable,
            level: u16::from(level),
        }
    }

    // A set of a variable.
    fn set<'x>(variable: u8, value: i32) -> Call<'x> {
        Call::Set { variable, value }
    }

    // A show for a level, into a buffer that any sheet fits.
    fn show<'x>(level: u8) -> Call<'x> {
        Call::Show {
            observer: u16::from(level),
            length: SHEET,
        }
    }

    // A run of the job on a secret in variable 1, which is 0 again before the shows: variable 2 alone tells of it then.
    fn calls<'x>(job: &'x [u8], levels: &Levels, secret: i32, budget: u32) -> [Call<'x>; 16] {
        [
            grade(0, levels.observer),
            grade(1, levels.closed),
            grade(2, levels.joined),
            grade(3, levels.observer),
            grade(4, levels.observer),
            Call::Seal,
            set(1, secret),
            set(3, 30),
            set(4, 12),
            Call::Mount(job),
            Call::Start,
            Call::Advance(budget),
            Call::End,
            set(1, 0),
            show(levels.observer),
            show(levels.highest),
        ]
    }

    // The sheet that a show answers.
    fn sheet(answer: &Answer) -> Result<&Sheet, Fail> {
        match answer {
            Answer::Shown(Ok(sheet)) => Ok(sheet),
            _ => Err(Fail::new("no sheet")),
        }
    }

    // The sheets for the observer and for the highest level, where the job was accepted and has halted.
    fn sheets<'x>(rt: &impl Abort, answers: &'x [Answer]) -> Result<(&'x Sheet, &'x Sheet), Fail> {
        let [.., mounted, _, _, ended, _, open, all] = answers else {
            return Err(Fail::new("too few answers"));
        };
        assert!(rt;
            matches!(mounted, Answer::Mounted(Ok(()))),
            "the job was refused"
        );
        assert!(rt;
            matches!(ended, Answer::Ended(Ending::Halted)),
            "the run had not halted"
        );
        Ok((sheet(open)?, sheet(all)?))
    }

    // Compares the sheets after two runs of a job on secrets that take the two ways of the branch. The first has just the
    // budget for its steps. The rows are those of variable 2 in the sheets for the highest level.
    fn compare<L: Lattice>(
        rt: &impl Abort,
        heap: Global,
        lattice: &L,
        levels: &Levels,
        job: &[u8],
        steps: u32,
        rows: [[u8; 5]; 2],
    ) -> Result<(), Fail> {
        let (left, right) = two_transcripts(
            heap,
            lattice,
            &calls(job, levels, 0, steps),
            &calls(job, levels, -1, 1000),
        )?;
        let (left_open, left_all) = sheets(rt, left.as_slice())?;
        let (right_open, right_all) = sheets(rt, right.as_slice())?;
        assert_eq!(rt; left_open.count(), 3);
        assert_eq!(rt; left_open.bytes.as_slice(), right_open.bytes.as_slice());
        assert_eq!(rt; left_open.bytes.as_slice(), OPEN.as_slice());
        let [left_row, right_row] = rows;
        assert_eq!(rt; left_all.bytes.get(10..15), Some(left_row.as_slice()));
        assert_eq!(rt; right_all.bytes.get(10..15), Some(right_row.as_slice()));
        Ok(())
    }

    // Variable 2 is 5, and then 9.
    fn compare_pushes<L: Lattice>(
        rt: &impl Abort,
        heap: Global,
        lattice: &L,
        levels: &Levels,
    ) -> Result<(), Fail> {
        let job = job(heap, &PUSHES, &claims_of_pushes(levels))?;
        let rows = [[2, 5, 0, 0, 0], [2, 9, 0, 0, 0]];
        compare(rt, heap, lattice, levels, job.as_slice(), 11, rows)
    }

    // Variable 2 is 60, and then -18.
    fn compare_moves<L: Lattice>(
        rt: &impl Abort,
        heap: Global,
        lattice: &L,
        levels: &Levels,
    ) -> Result<(), Fail> {
        let job = job(heap, &MOVES, &claims_of_moves(levels))?;
        let rows = [[2, 60, 0, 0, 0], [2, 238, 255, 255, 255]];
        compare(rt, heap, lattice, levels, job.as_slice(), 15, rows)
    }

    // Of a ladder of 16. The closed level is above the observer's.
    const GRADES: Levels = Levels {
        lowest: 0,
        observer: 2,
        closed: 3,
        joined: 3,
        highest: 15,
    };

    // Of four owners. The closed level and the observer's are two owners, neither at most the other.
    const TWO_OWNERS: Levels = Levels {
        lowest: 0,
        observer: 1,
        closed: 4,
        joined: 5,
        highest: 15,
    };

    // Of the pair of a ladder of 4 and its flip. The observer's parts are 1 and 2. The closed level's, 0 and 0, are at most
    // these in the first only. The joined level's are 1 and 0.
    const PARTS: Levels = Levels {
        lowest: 3,
        observer: 6,
        closed: 0,
        joined: 4,
        highest: 12,
    };

    #[test]
    fn pushes_over_a_ladder(rt: HostRuntime) -> Result<(), Fail> {
        compare_pushes(&rt, rt.alloc(), &Ladder::new(16), &GRADES)
    }

    #[test]
    fn pushes_over_four_owners(rt: HostRuntime) -> Result<(), Fail> {
        compare_pushes(&rt, rt.alloc(), &Owners::new(4), &TWO_OWNERS)
    }

    #[test]
    fn pushes_over_a_pair(rt: HostRuntime) -> Result<(), Fail> {
        let pair = Pair::new(Ladder::new(4), Flip::new(Ladder::new(4)));
        compare_pushes(&rt, rt.alloc(), &pair, &PARTS)
    }

    #[test]
    fn moves_over_a_ladder(rt: HostRuntime) -> Result<(), Fail> {
        compare_moves(&rt, rt.alloc(), &Ladder::new(16), &GRADES)
    }

    #[test]
    fn moves_over_four_owners(rt: HostRuntime) -> Result<(), Fail> {
        compare_moves(&rt, rt.alloc(), &Owners::new(4), &TWO_OWNERS)
    }

    #[test]
    fn moves_over_a_pair(rt: HostRuntime) -> Result<(), Fail> {
        let pair = Pair::new(Ladder::new(4), Flip::new(Ladder::new(4)));
        compare_moves(&rt, rt.alloc(), &pair, &PARTS)
    }
}

//! Trials of mount: at least one job for every answer, the ends of a job's sizes, and the causes and words of a refusal.
#![tactic(auto)]

ghost use Rattle.std.specs.Prelude.{◌<◌};

#[cfg(test)]
mod tests {
    use checker::{MountFault, Rule, check, mount_answer};
    use job::{ClaimField, Field, InstructionField, ReadFault, RecordFault};
    use lattice::Ladder;
    use std::alloc::{AllocError, Global};
    use std::test::Fail;

    // 0 load 1, 1 push 0, 2 eq, 3 gotoF 6 (junction 7), 4 push 5, 5 goto 7, 6 push 9, 7 store 2, with its claims.
    const BRANCH: [u8; 132] = [
        8, 0, 2, 0, 1, 0, 1, 0, 0, 0, 3, 0, 0, 0, 0, 0, 6, 0, 0, 0, 0, 0, 10, 7, 6, 0, 0, 0, 3, 0,
        5, 0, 0, 0, 9, 0, 7, 0, 0, 0, 3, 0, 9, 0, 0, 0, 2, 0, 2, 0, 0, 0, 1, 0, 0, 0, 0, 0, 0, 0,
        0, 0, 1, 1, 0, 0, 0, 3, 0, 0, 0, 0, 1, 2, 0, 0, 0, 0, 0, 0, 3, 0, 1, 1, 0, 0, 1, 3, 0, 0,
        0, 0, 1, 0, 3, 0, 0, 0, 0, 0, 0, 0, 1, 1, 3, 0, 0, 3, 0, 0, 0, 0, 1, 0, 3, 0, 0, 0, 0, 0,
        0, 0, 1, 1, 0, 0, 0, 3, 0, 0, 0, 0,
    ];

    // Where the branch's junction and the surrounding level of label 6 stand.
    const JUNCTION: usize = 23;

    const SURROUNDING: usize = 114;

    // 0 push 5, 1 copy (surrounded by 3), 2 push 5, 3 eq, 4 swap (surrounded by 4), 5 drop (surrounded by 5), 6 drop, with
    // its claims. Label 5 claims int 4, bool 4: the swap exchanges two kinds.
    const MOVES: [u8; 137] = [
        7, 0, 3, 0, 3, 0, 5, 0, 0, 0, 11, 0, 0, 0, 0, 0, 3, 0, 5, 0, 0, 0, 6, 0, 0, 0, 0, 0, 12, 0,
        0, 0, 0, 0, 13, 0, 0, 0, 0, 0, 13, 0, 0, 0, 0, 0, 1, 0, 0, 0, 0, 0, 0, 0, 0, 0, 0, 0, 0, 1,
        1, 3, 0, 0, 0, 0, 0, 0, 0, 0, 0, 0, 1, 2, 0, 0, 0, 3, 0, 0, 0, 0, 0, 0, 0, 1, 3, 0, 0, 0,
        0, 0, 0, 3, 0, 0, 0, 0, 1, 2, 4, 0, 1, 3, 0, 0, 0, 0, 0, 0, 0, 1, 2, 5, 0, 0, 4, 0, 1, 4,
        0, 0, 0, 0, 1, 1, 0, 0, 1, 4, 0, 0, 0, 0, 0, 0, 0,
    ];

    // Where the levels stand that label 2 claims for the copy, label 5 for the places that the swap exchanged, and label 6
    // for the place that the drop left.
    const COPIED: usize = 77;

    const BROUGHT_UP: usize = 116;

    const PUT_UNDER: usize = 119;

    const LEFT: usize = 129;

    // The first fault over a ladder of 16, with variable 0 at level 0 and every other at 3.
    fn verdict(bytes: &[u8]) -> Result<(), MountFault> {
        let mut levels = [3; 32];
        levels[0] = 0;
        check(&Ladder::new(16), &levels, bytes)?;
        Ok(())
    }

    // Its number and label.
    fn answer(bytes: &[u8]) -> (u8, u16) {
        mount_answer(&verdict(bytes))
    }

    // The verdict on the job of the branch with one byte changed.
    fn verdict_with(place: usize, byte: u8) -> Result<(), MountFault>
        requires { place < 132 }
    {
        let mut job = BRANCH;
        job[place] = byte;
        verdict(&job)
    }

    // A fault in a field of the bytes: any, and that a number there is not below its limit.
    fn fault_in(field: Field, fault: ReadFault) -> MountFault {
        MountFault::Record(RecordFault { field, fault })
    }

    fn not_below(field: Field, place: usize, found: i32, limit: u32) -> MountFault {
        let fault = ReadFault::NotBelow {
            place,
            found,
            limit,
        };
        fault_in(field, fault)
    }

    // Whether a fault has these words.
    fn says(heap: Global, fault: MountFault, words: &str) -> Result<bool, AllocError> {
        let said = format!(in heap; "{fault}")?;
        Ok(said.as_str() == words)
    }

    // The answer to a job of one instruction, with an instruction record and a claim of the empty stack.
    fn answer_to_record(record: [u8; 6]) -> (u8, u16) {
        let [operation, junction, a, b, c, d] = record;
        answer(&[1, 0, 0, 0, operation, junction, a, b, c, d, 1, 0, 0, 0])
    }

    // The answer to 0 goto 0, 1 an operation with no operand, where label 1 claims so many places at level 0. The top is of
    // a kind, and the others are ints.
    fn answer_on_stack(operation: u8, depth: u8, kind: u8) -> (u8, u16) {
        let mut job = [0; 72];
        job[0] = 2;
        job[2] = 8;
        job[4] = 9;
        job[10] = operation;
        job[16] = 1;
        job[44] = 1;
        job[45] = depth;
        job[48] = kind;
        answer(&job)
    }

    // The words of a fault of the bytes: of the opening, of the length, of a record.
    #[test]
    fn words_of_records(rt: HostRuntime) -> Result<(), Fail> {
        let few = ReadFault::TooShort {
            place: 0,
            found: 3,
            needed: 4,
        };
        let words = "opening at byte 0 has 3 bytes of 4";
        assert!(rt; says(rt.alloc(), fault_in(Field::Opening, few), words)?);
        let many = ReadFault::WrongLength { found: 5, right: 4 };
        let words = "length is 5 bytes, and has to be 4: byte 4 is too much";
        assert!(rt; says(rt.alloc(), fault_in(Field::Length, many), words)?);
        let short = ReadFault::WrongLength {
            found: 3,
            right: 14,
        };
        let words = "length is 3 bytes, and has to be 14: byte 3 is missing";
        assert!(rt; says(rt.alloc(), fault_in(Field::Length, short), words)?);
        let unknown = ReadFault::NoOperation {
            place: 34,
            found: 14,
        };
        let fault = fault_in(Field::Instruction(5, InstructionField::Operation), unknown);
        let words =
            "label 5: instruction record: operation at byte 34 is 14, and no operation has that number";
        assert!(rt; says(rt.alloc(), fault, words)?);
        let fault = not_below(Field::Instruction(5, InstructionField::Junction), 35, 7, 1);
        let words = "label 5: instruction record: junction at byte 35 is 7, and has to be 0";
        assert!(rt; says(rt.alloc(), fault, words)?);
        let fault = not_below(Field::Claim(14, ClaimField::Depth), 131, 3, 3);
        let words = "label 14: claim record: depth at byte 131 is 3, and has to be 0 to 2";
        assert!(rt; says(rt.alloc(), fault, words)?);
        // Over a lattice of no levels.
        let fault = not_below(Field::Claim(14, ClaimField::Level(1)), 138, 0, 0);
        let words =
            "label 14: claim record: level of place 1 at byte 138 is 0, and no number is right";
        assert!(rt; says(rt.alloc(), fault, words)?);
        Ok(())
    }

    // The words of a rule that is broken.
    #[test]
    fn words_of_rules(rt: HostRuntime) -> Result<(), Fail> {
        let words = "label 0: no claim of the empty stack that a run begins with";
        assert!(rt; says(rt.alloc(), MountFault::Claims(Rule::Entry), words)?);
        let rule = Rule::Stack { label: 5 };
        let words = "label 5: the stack would fault";
        assert!(rt; says(rt.alloc(), MountFault::Claims(rule), words)?);
        let rule = Rule::Store {
            label: 1,
            variable: 0,
        };
        let words = "label 1: the store to variable 0 would lower what it stores";
        assert!(rt; says(rt.alloc(), MountFault::Claims(rule), words)?);
        let rule = Rule::Successor {
            label: 3,
            successor: 6,
        };
        let words = "label 3: its successor 6 does not take what leaves";
        assert!(rt; says(rt.alloc(), MountFault::Claims(rule), words)?);
        let rule = Rule::RegionExit { label: 3, exit: 8 };
        let words = "label 3: the exit, 8, is in the branch's region";
        assert!(rt; says(rt.alloc(), MountFault::Claims(rule), words)?);
        let rule = Rule::RegionLevel {
            label: 3,
            inside: 6,
        };
        let words = "label 3: the surrounding level of label 6, in the branch's region, is too low";
        assert!(rt; says(rt.alloc(), MountFault::Claims(rule), words)?);
        Ok(())
    }

    // Whole faults of the opening and of the length.
    #[test]
    fn causes_in_the_opening(rt: HostRuntime) {
        let few = ReadFault::TooShort {
            place: 0,
            found: 3,
            needed: 4,
        };
        assert!(rt; verdict(&[129, 0, 0]) == Err(fault_in(Field::Opening, few)));
        let instructions = not_below(Field::Instructions, 0, 129, 129);
        assert!(rt; verdict_with(0, 129) == Err(instructions));
        let places = not_below(Field::Places, 2, 9, 9);
        assert!(rt; verdict_with(2, 9) == Err(places));
        let many = ReadFault::WrongLength {
            found: 132,
            right: 108,
        };
        assert!(rt; verdict_with(2, 1) == Err(fault_in(Field::Length, many)));
    }

    // Whole faults of records: the first field that is wrong, what stands there and what it has to be below.
    #[test]
    fn causes_in_records(rt: HostRuntime) {
        let unknown = ReadFault::NoOperation {
            place: 28,
            found: 14,
        };
        let operation = fault_in(Field::Instruction(4, InstructionField::Operation), unknown);
        assert!(rt; verdict_with(28, 14) == Err(operation));
        let junction = not_below(Field::Instruction(3, InstructionField::Junction), 23, 9, 9);
        assert!(rt; verdict_with(JUNCTION, 9) == Err(junction));
        // The store's operand, 2, with 128 for its upper byte: it is named at its first byte.
        let field = Field::Instruction(7, InstructionField::Operand);
        let operand = not_below(field, 48, -2_147_483_646, 32);
        assert!(rt; verdict_with(51, 128) == Err(operand));
        let depth = not_below(Field::Claim(2, ClaimField::Depth), 73, 3, 3);
        assert!(rt; verdict_with(73, 3) == Err(depth));
        let level = not_below(Field::Claim(2, ClaimField::Level(1)), 80, 259, 16);
        assert!(rt; verdict_with(81, 1) == Err(level));
        let unclaimed = not_below(Field::Claim(1, ClaimField::Kind(1)), 69, 1, 1);
        assert!(rt; verdict_with(69, 1) == Err(unclaimed));
    }

    // Whole rules: the variable, the successor, the exit, and the lowest label of the region that is too low.
    #[test]
    fn causes_in_claims(rt: HostRuntime) {
        let store = Rule::Store {
            label: 7,
            variable: 0,
        };
        assert!(rt; verdict_with(48, 0) == Err(MountFault::Claims(store)));
        let successor = Rule::Successor {
            label: 3,
            successor: 6,
        };
        assert!(rt; verdict_with(113, 1) == Err(MountFault::Claims(successor)));
        let exit = Rule::RegionExit { label: 3, exit: 8 };
        assert!(rt; verdict_with(JUNCTION, 6) == Err(MountFault::Claims(exit)));
        let region = Rule::RegionLevel {
            label: 3,
            inside: 6,
        };
        assert!(rt; verdict_with(SURROUNDING, 0) == Err(MountFault::Claims(region)));
        let mut job = BRANCH;
        job[104] = 0;
        job[SURROUNDING] = 0;
        let lowest = Rule::RegionLevel {
            label: 3,
            inside: 5,
        };
        assert!(rt; verdict(&job) == Err(MountFault::Claims(lowest)));
    }

    #[test]
    fn bytes_and_records(rt: HostRuntime) {
        assert_eq!(rt; answer(&[]), (4, 0));
        assert_eq!(rt; answer(&[0, 0, 0]), (4, 0));
        assert_eq!(rt; answer(&[129, 0, 0, 0]), (5, 0));
        assert_eq!(rt; answer(&[0, 0, 9, 0]), (6, 0));
        assert_eq!(rt; answer(&[1, 0, 0, 0]), (7, 0));
        assert_eq!(rt; answer(&[1, 0, 0, 0, 0, 0, 0, 0, 0, 0, 1, 0, 0, 0]), (8, 0));
        assert_eq!(rt; answer(&[1, 0, 0, 0, 9, 0, 0, 0, 0, 0, 2, 0, 0, 0]), (9, 0));
        assert_eq!(rt;
            answer(&[1, 0, 0, 0, 9, 0, 0, 0, 0, 0, 1, 0, 16, 0]),
            (9, 0)
        );
    }

    #[test]
    fn claims(rt: HostRuntime) {
        assert_eq!(rt; answer(&[0, 0, 0, 0]), (0, 0));
        assert_eq!(rt; answer(&[1, 0, 0, 0, 9, 0, 0, 0, 0, 0, 1, 0, 0, 0]), (0, 0));
        assert_eq!(rt;
            answer(&[1, 0, 0, 0, 9, 0, 0, 0, 0, 0, 0, 0, 0, 0]),
            (10, 0)
        );
        assert_eq!(rt;
            answer(&[1, 0, 0, 0, 4, 0, 0, 0, 0, 0, 1, 0, 0, 0]),
            (11, 0)
        );
        // 0 load 1, 1 store 0: variable 0 is too low, and then the level claimed at label 1.
        let mut job = [
            2, 0, 1, 0, 1, 0, 1, 0, 0, 0, 2, 0, 0, 0, 0, 0, 1, 0, 0, 0, 0, 0, 0, 1, 1, 0, 0, 0, 3,
            0,
        ];
        assert_eq!(rt; answer(&job), (12, 1));
        job[28] = 2;
        assert_eq!(rt; answer(&job), (13, 0));
    }

    #[test]
    fn regions(rt: HostRuntime) {
        let mut job = BRANCH;
        assert_eq!(rt; answer(&job), (0, 0));
        job[JUNCTION] = 6;
        assert_eq!(rt; answer(&job), (14, 3));
        job[JUNCTION] = 8;
        assert_eq!(rt; answer(&job), (15, 3));
        job[JUNCTION] = 7;
        job[SURROUNDING] = 0;
        assert_eq!(rt; answer(&job), (15, 3));
    }

    // Operations 11, 12 and 13 have no operand and no junction, and there is no operation 0 or 14.
    #[test]
    fn records_of_copy_swap_and_drop(rt: HostRuntime) {
        for operation in 11..14 {
            assert_eq!(rt; answer_to_record([operation, 0, 0, 0, 0, 0]), (11, 0));
            assert_eq!(rt; answer_to_record([operation, 1, 0, 0, 0, 0]), (8, 0));
            assert_eq!(rt; answer_to_record([operation, 0, 1, 0, 0, 0]), (8, 0));
            assert_eq!(rt; answer_to_record([operation, 0, 0, 0, 0, 255]), (8, 0));
        }
        assert_eq!(rt; answer_to_record([0, 0, 0, 0, 0, 0]), (8, 0));
        assert_eq!(rt; answer_to_record([14, 0, 0, 0, 0, 0]), (8, 0));
    }

    // A stack that fits leaves a stack that the exit does not take, but for a drop of the only place.
    #[test]
    fn stacks_of_copy_swap_and_drop(rt: HostRuntime) {
        for kind in 0..2 {
            assert_eq!(rt; answer_on_stack(11, 1, kind), (13, 1));
            assert_eq!(rt; answer_on_stack(11, 7, kind), (13, 1));
            assert_eq!(rt; answer_on_stack(11, 8, kind), (11, 1));
            assert_eq!(rt; answer_on_stack(12, 1, kind), (11, 1));
            assert_eq!(rt; answer_on_stack(12, 2, kind), (13, 1));
            assert_eq!(rt; answer_on_stack(12, 8, kind), (13, 1));
            assert_eq!(rt; answer_on_stack(13, 1, kind), (0, 0));
            assert_eq!(rt; answer_on_stack(13, 2, kind), (13, 1));
            assert_eq!(rt; answer_on_stack(13, 8, kind), (13, 1));
        }
        assert_eq!(rt; answer_on_stack(11, 0, 0), (11, 1));
        assert_eq!(rt; answer_on_stack(12, 0, 0), (11, 1));
        assert_eq!(rt; answer_on_stack(13, 0, 0), (11, 1));
    }

    // A copy and both places of a swap are joined with the surrounding level; what is copied and what a drop leaves are not.
    #[test]
    fn levels_of_copy_swap_and_drop(rt: HostRuntime) {
        let mut job = MOVES;
        assert_eq!(rt; answer(&job), (0, 0));
        job[COPIED] = 2;
        assert_eq!(rt; answer(&job), (13, 1));
        job[COPIED] = 3;
        job[BROUGHT_UP] = 3;
        assert_eq!(rt; answer(&job), (13, 4));
        job[BROUGHT_UP] = 4;
        job[PUT_UNDER] = 3;
        assert_eq!(rt; answer(&job), (13, 4));
        job[PUT_UNDER] = 4;
        job[LEFT] = 3;
        assert_eq!(rt; answer(&job), (13, 5));
    }

    // The largest job has 4,356 bytes: with these its length is right, and its first record is not.
    #[test]
    fn largest(rt: HostRuntime) -> Result<(), Fail> {
        let mut job = vec![in rt.alloc(); 0u8; 4356]?;
        assert!(rt; job.len() == 4356);
        job[0] = 128;
        job[2] = 8;
        assert_eq!(rt; answer(job.as_slice()), (8, 0));
        job.push(0)?;
        assert_eq!(rt; answer(job.as_slice()), (7, 0));
        Ok(())
    }
}

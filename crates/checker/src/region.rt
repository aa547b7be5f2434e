use arrayvec::ArrayVec;
use push::{INSTRUCTIONS, Program};
use std::marker::Model;

// The labels of the longest program and its exit.
const LABELS: usize = INSTRUCTIONS + 1;

// The region of a branch, a byte for each of its labels, in the order in which they are found. The junction, which is one
// of the labels 0 to 128, is never in it: so there is room for 128.
#[derive(Drop)]
pub(crate) struct Region {
    junction: u8,
    labels: ArrayVec<u8, INSTRUCTIONS>,
    // Whether a label is in the list, so that it needs no search.
    listed: [bool; LABELS],
}

// In a clause it is the junction and the list of the labels.
impl Model for Region {
    ghost use Rattle.checker.specs.RegionList.{RegionList, WellListed, TableOf};

    ghost Value = { RegionList };

    ghost view = { λ r. record { junction = r.junction; labels = r.labels.items } };

    ghost invariant = { λ r. WellListed (record { junction = r.junction; labels = r.labels.items })
        × TableOf r.listed r.labels.items };
}

impl Region {
    ghost use Rattle.std.specs.Prelude.{◌≡◌, ◌≤◌, [], length};
    ghost use Rattle.checker.specs.Region.{next_labels};
    ghost use Rattle.checker.specs.RegionList.{has as has_of, NoDup, WellListed, with_label, with_labels, IsTheRegion, LabelsWithin};

    fn empty(junction: u8) -> Self
        requires { junction ≤ 128 }
        ensures { result ≡ record { junction = junction; labels = [] } }
    {
        Region {
            junction,
            labels: ArrayVec::new(),
            listed: [false; LABELS],
        }
    }

    // The labels, in the order in which they were found.
    pub(crate) fn labels(&self) -> &[u8]
        ensures are_its_labels { result.now ≡ self.now.labels }
        ensures each_once_without_the_junction { WellListed self.now }
        ensures at_most_128 { length result.now ≤ 128 }
    {
        self.labels.as_slice()
    }

    // Whether a label is in the region.
    pub(crate) fn has(&self, label: u8) -> bool
        requires { label ≤ 128 }
        ensures { result ≡ has_of self.now.labels label }
    {
        self.listed[usize::from(label)]
    }

    // Enters a label that comes next.
    fn enter(&mut self, label: u8)
        requires { label ≤ 128 }
        ensures { self.new ≡ with_label self.old label }
    {
        if label != self.junction && !self.listed[usize::from(label)] {
            self.listed[usize::from(label)] = true;
            self.labels.push(label);
        }
    }

    // Enters what comes after a label.
    #[tactic(auto, using(crate::proofs::Ends::comes_within))]
    fn enter_next(&mut self, program: &Program, label: u8)
        requires { LabelsWithin program.now }
        ensures { self.new ≡ with_labels self.old (next_labels program.now label) }
    {
        let Some(instruction) = program.fetch(usize::from(label)) else {
            return;
        };
        let [next, target] = instruction.successors(label);
        if let Some(next) = next {
            self.enter(next as u8);
        }
        if let Some(target) = target {
            self.enter(target as u8);
        }
    }

    // The region of a branch: what can come after it before the junction.
    pub(crate) fn of_branch(program: &Program, junction: u8, branch: u8) -> Self
        requires labels_are_within { LabelsWithin program.now }
        requires junction_is_within { junction ≤ length program.now }
        ensures is_the_region { IsTheRegion program.now branch result }
        ensures each_label_once { NoDup result.labels }
        ensures at_most_as_many_as_instructions { length result.labels ≤ length program.now }
        ensures keeps_the_junction { result.junction ≡ junction }
    {
        let mut region = Region::empty(junction);
        region.enter_next(program, branch);
        let mut read = 0;
        while read < region.labels().len() {
            let label = region.labels()[read];
            region.enter_next(program, label);
            read += 1;
        }
        region
    }
}

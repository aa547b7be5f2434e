ghost use Rattle.lattice.specs.Meaning.{SpanAndAtMostDecide, LadderGoesByNumber, OwnersGoByInclusion, PairGoesByParts};

/// Computes nothing: its promises are the theorems on what the kinds mean.
pub fn kinds_mean_what_they_say()
    ensures span_and_at_most_decide { SpanAndAtMostDecide }
    ensures ladder_goes_by_number { LadderGoesByNumber }
    ensures owners_go_by_inclusion { OwnersGoByInclusion }
    ensures pair_goes_by_parts { PairGoesByParts }
{}

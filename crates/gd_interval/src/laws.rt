ghost use Rattle.gd_interval.specs.Nests.{SumNests, DifferenceNests, MultipleNests, ProductNests, SquareNests};
ghost use Rattle.gd_interval.specs.Nests.{QuotientNests, NarrowedNests, RootNests};

/// Smaller intervals give a result inside: the law of each call, over the ends that its contract names.
/// It does nothing when it runs; a proof cites its clauses.
#[inline(always)]
pub fn results_nest()
    ensures sum { SumNests }
    ensures difference { DifferenceNests }
    ensures multiple { MultipleNests }
    ensures product { ProductNests }
    ensures square { SquareNests }
    ensures quotient { QuotientNests }
    ensures narrowed { NarrowedNests }
    ensures root { RootNests }
{}

// How blocks are asked for the pairs outside of a Hall set.
ghost use Rattle.block_checker.specs.Closed.{BoundedMeansClosed, UnderMeansOutside};

/// Let row numbers be above all costs for some persons and below all for the others, and let prices
/// lift each cost of some objects to those numbers and be 0 for the others. Then a block is bounded only
/// if these persons list none but these objects there; and a pair below its person's number is one of
/// these persons with another object.
pub fn bounds_show_closed()
    ensures closed { BoundedMeansClosed }
    ensures outside { UnderMeansOutside }
{}

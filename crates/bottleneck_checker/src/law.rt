// The law on bottlenecks.
ghost use Rattle.bottleneck_checker.specs.Bottleneck.{ShortMeansBottleneck};

/// If some persons list, at better costs than an assignment's worst pair, only objects that are fewer
/// than they are, no assignment has a better worst pair: it would give these persons different objects
/// out of fewer (P. Hall, On representatives of subsets, 1935).
pub fn short_means_bottleneck()
    ensures { ShortMeansBottleneck }
{}

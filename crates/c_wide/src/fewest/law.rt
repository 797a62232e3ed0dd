// What combined costs mean.
ghost use Rattle.c_wide.specs.fewest.Changes.{CombinedMeansFewest};

/// A plan that is best at combined costs is best, and of all best plans none changes fewer persons. The law is for
/// proofs. The function does nothing.
pub fn combined_means_fewest()
    ensures { CombinedMeansFewest }
{}

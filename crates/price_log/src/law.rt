// Laws of logs.
ghost use Rattle.std.specs.Prelude.{◌≡◌, ℕ, ℤ, List, ◌+◌, ◌≤◌};
ghost use Rattle.assign_core.specs.Numbered.{renumbered};
ghost use Rattle.assign_core.specs.Prices.{IsBelow};
ghost use Rattle.price_log.specs.History.{Continues, History, IsEarlier, IsHistory, last_version, table_at, today};
ghost use Rattle.price_log.specs.Changes.{after_raise, trimmed};

use crate::log::MOST_KEPT;

/// The greatest number of raises that a log keeps.
pub fn log_limits()
    ensures { MOST_KEPT ≡ 65_536 }
{}

/// `Continues` between logs is reflexive and transitive, and each change of a log continues it.
pub fn logs_continue()
    ensures itself { (log : History) → Continues log log }
    ensures through { (first second third : History) → Continues first second → Continues second third
        → Continues first third }
    ensures raise { (log : History) (object : ℕ) (level : ℤ) → Continues log (after_raise log object level) }
    ensures trim { (log : History) (version : ℕ) → log.first_kept ≤ version → version ≤ last_version log
        → Continues log (trimmed log version) }
{}

/// A raise adds one version and changes one price; a trim changes no price and no version.
pub fn changes_are_versions()
    ensures raise_prices { (log : History) (object : ℕ) (level : ℤ)
        → today (after_raise log object level) ≡ renumbered (today log) object level }
    ensures raise_version { (log : History) (object : ℕ) (level : ℤ)
        → last_version (after_raise log object level) ≡ last_version log + 1 }
    ensures trim_prices { (log : History) (version : ℕ) → today (trimmed log version) ≡ today log }
    ensures trim_version { (log : History) (version : ℕ) → log.first_kept ≤ version → version ≤ last_version log
        → last_version (trimmed log version) ≡ last_version log }
{}

/// A table of an earlier version is below that of a later one.
pub fn earlier_tables_are_below()
    ensures { (log : History) (early late : ℕ) → IsHistory log → early ≤ late
        → IsBelow (table_at log early) (table_at log late) }
{}

/// A table that can catch up still can after the log went on, and has the same version.
pub fn earlier_tables_stay()
    ensures { (old new : History) (table : List ℤ) (version : ℕ) → IsHistory old → Continues old new
        → IsBelow (today old) (today new) → IsEarlier old table version
        → IsEarlier new table version }
{}

//! The version of a release, which the program and the library for C have. A new version proves
//! again only what stands on this crate.
#![tactic(auto)]

ghost use Rattle.std.specs.Prelude.{◌≡◌, codes};

/// The version, as the file VERSION at the top has it.
pub const VERSION: &str = "5.13.0";

/// The version as a text.
pub fn version_text()
    ensures { VERSION.now ≡ codes "5.13.0" }
{}

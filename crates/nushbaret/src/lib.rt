//! Nushbaret's calls for programs in C. `c/nushbaret.h` declares them, and says what a caller must
//! do.
#![tactic(auto)]

mod blocks;
mod bottleneck;
mod check;
mod counts;
mod dense;
mod doubles;
mod exact;
mod fewest;
mod groups;
mod next;
mod ranked;
mod rows;
mod sparse;
mod unique;
mod version;
mod wide;

pub use blocks::{nushbaret_block, nushbaret_block_doubles};
pub use bottleneck::nushbaret_bottleneck;
pub use check::{nushbaret_check, nushbaret_check_hall};
pub use counts::{
    nushbaret_check_counts, nushbaret_check_shortage, nushbaret_counts, nushbaret_counts_from,
};
pub use dense::{nushbaret_dense, nushbaret_dense_from};
pub use doubles::{nushbaret_check_doubles, nushbaret_doubles, nushbaret_doubles_from};
pub use exact::{nushbaret_check_exact_doubles, nushbaret_exact_doubles};
pub use fewest::nushbaret_fewest_changes;
pub use groups::nushbaret_groups;
pub use next::nushbaret_next;
pub use ranked::nushbaret_ranked;
pub use rows::nushbaret_rows;
pub use sparse::{nushbaret_sparse, nushbaret_sparse_from};
pub use unique::nushbaret_unique;
pub use version::nushbaret_version;
pub use wide::{nushbaret_check_wide, nushbaret_wide};

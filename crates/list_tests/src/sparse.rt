// Sparse problems: what a search finds is judged by a plain checker and compared with a slow search.
pub mod drawn;
pub mod judged;
mod large;
mod worked;

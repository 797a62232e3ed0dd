// Costs over lists, the checker of exact prices and Hall sets, and the solver: worked values, and drawn problems
// compared with slow searches.
mod called;
mod confirmed;
mod decided;
mod drawn;
mod given;
mod larger;
mod mended;
mod problem;
mod searched;
mod slow;
mod slow_hall;
mod tests;
mod worked;

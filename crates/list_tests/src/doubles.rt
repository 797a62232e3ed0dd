// Costs in doubles: verdicts of the checker, worked by hand, and a call of many persons. Smaller calls are tested in C.
mod called;
mod checked;
mod drawn;

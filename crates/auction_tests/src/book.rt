// The log of prices and the book: worked by hand, and drawn and compared with a plain book.
mod calls;
mod drawn;
mod drawn_runs;
mod listed;
mod logs;
mod plain;
mod plain_calls;
mod plain_world;
mod refused;
mod seen;
mod sequences;
mod worked;
mod worked_runs;

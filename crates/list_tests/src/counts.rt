// The search for plans of counts: problems worked by hand, and drawn ones next to a plain search of all plans.
mod drawn;
mod held;
mod plain;
mod wild;
mod worked;

// Dense problems: what a search finds is judged by a plain checker and compared with a slow search.
mod drawn;
mod lists;
mod wild;
mod worked;

// The layouts of texts.

/// Dense: n and then n * n costs. Sparse: n and then triples of a person, an object and a cost.
#[derive(Clone, Copy)]
pub enum Layout {
    Dense,
    Sparse,
}

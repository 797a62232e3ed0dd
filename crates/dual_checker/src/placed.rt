// Persons and objects of any width, by their numbers.
ghost use Rattle.std.specs.Prelude.{◌≡◌, ℕ, ◌-◌, ◌<◌, List, length, refl, get_or};

use assign_core::Object;

/// A person or an object, whose number begins at 1.
///
/// For functions that treat numbers of every width alike.
pub trait Placed: Copy {
    ghost number_of: { Self → ℕ };

    ghost numbers_of: { List Self → List ℕ };

    ghost as_many: { (xs : List Self) → length (numbers_of xs) ≡ length xs };

    ghost in_order: { (xs : List Self) (k : ℕ) (x : Self)
        → get_or (numbers_of xs) k (number_of x) ≡ number_of (get_or xs k x) };

    /// The place of this number in a list, from 0.
    fn place(self) -> usize
        requires { 0 < number_of self }
        ensures { result ≡ number_of self - 1 };
}

impl Placed for Object {
    ghost number_of = { λ o. o };

    ghost numbers_of = { λ xs. xs };

    ghost as_many = { λ xs. refl };

    ghost in_order = { λ xs k x. refl };

    fn place(self) -> usize {
        self.0 as usize - 1
    }
}

impl Placed for u32 {
    ghost number_of = { λ n. n };

    ghost numbers_of = { λ xs. xs };

    ghost as_many = { λ xs. refl };

    ghost in_order = { λ xs k x. refl };

    fn place(self) -> usize {
        self as usize - 1
    }
}

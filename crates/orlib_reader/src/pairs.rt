// The numbers of a text, in either layout.
ghost use Rattle.std.specs.Prelude.{◌≡◌, ◌≢◌, ◌≤◌, ◌↔◌, pos, Some, [], ◌∷◌, IfOk, IsTrue, OnOk, OnErr, length};
ghost use Rattle.assign_core.specs.Rows.{IsSize};
ghost use Rattle.orlib_reader.specs.Texts.{wanted_in, ended, Gives, Meets};
ghost use Rattle.orlib_reader.specs.inside.Steps.{with_token};
ghost use Rattle.orlib_reader.specs.inside.Held.{layout_in, found_in};
ghost use Rattle.orlib_reader.specs.Wanted;

use super::dense::DenseRows;
use super::fault::InputFault;
use super::layout::Layout;
use super::machine::TEXT_LIMIT;
use super::sparse::Triples;
use super::token::{OpenToken, VALUE_LIMIT};
use assign_core::Problem;
use std::alloc::{AllocError, Global};

// What has come: no number yet, or the size and the numbers after it.
#[derive(Drop)]
pub enum Pairs {
    Nothing(Global, Layout),
    Dense(DenseRows),
    Sparse(Triples),
}

impl Pairs {
    // The size alone.
    fn begin(alloc: Global, layout: Layout, n: u16) -> Result<Pairs, AllocError>
        requires { IsSize n }
        ensures layout { IfOk result (λ pairs. layout_in pairs ≡ layout) }
        ensures found { IfOk result (λ pairs. found_in pairs ≡ pos n ∷ []) }
    {
        Ok(match layout {
            Layout::Dense => Pairs::Dense(DenseRows::new(alloc, n)?),
            Layout::Sparse => Pairs::Sparse(Triples::new(alloc, n)),
        })
    }

    // Whether the text is complete, so that no further token is allowed.
    pub fn are_complete(&self) -> bool
        ensures { IsTrue result
            ↔ wanted_in (layout_in self.now) (found_in self.now) ≡ Wanted.Nothing }
    {
        match self {
            Pairs::Dense(rows) => rows.are_full(),
            Pairs::Nothing(_, _) | Pairs::Sparse(_) => false,
        }
    }

    // Whether the size has come, and another token is allowed.
    pub fn are_open(&self) -> bool
        ensures { IsTrue result
            → wanted_in (layout_in self.now) (found_in self.now) ≢ Wanted.Nothing }
    {
        match self {
            Pairs::Nothing(_, _) => false,
            Pairs::Dense(rows) => !rows.are_full(),
            Pairs::Sparse(_) => true,
        }
    }

    // Takes a token that has ended.
    #[inline(always)]
    pub fn take(&mut self, token: OpenToken) -> Result<(), InputFault>
        requires { token.value ≤ VALUE_LIMIT }
        ensures layout { layout_in self.new ≡ layout_in self.old }
        ensures found { Gives (λ _. found_in self.new) result
            (with_token (layout_in self.old) (Some token) (found_in self.old)) }
        ensures err { OnErr result (length (found_in self.new) ≤ length (found_in self.old)) }
    {
        match self {
            Pairs::Nothing(alloc, layout) => {
                *self = Pairs::begin(*alloc, *layout, token.size()?)?;
                Ok(())
            }
            Pairs::Dense(rows) => rows.take(token),
            Pairs::Sparse(triples) => triples.take(token),
        }
    }

    // The problem, at the end of the text.
    pub fn finish(self) -> Result<Problem, InputFault>
        requires { length (found_in self) ≤ TEXT_LIMIT }
        ensures { Meets (layout_in self) result (ended (layout_in self) (found_in self)) }
    {
        match self {
            Pairs::Nothing(_, _) => Err(InputFault::Empty),
            Pairs::Dense(rows) => rows.finish(),
            Pairs::Sparse(triples) => triples.finish(),
        }
    }
}

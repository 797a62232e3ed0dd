// Laws of plain rounds.
ghost use Rattle.std.specs.Prelude.{◌≡◌, ◌≤◌, ℕ, ℤ, List, length};
ghost use Rattle.assign_core.specs.declared.outcome.Outcome.{Outcome};
ghost use Rattle.scaled_values.specs.Scaled.{ScaledProblem};
ghost use Rattle.bidder.specs.declared.offers.Ask.{Ask};
ghost use Rattle.bidder.specs.Offers.{benefits_at, offer_of};
ghost use Rattle.auction_book.specs.Book.{BookData};
ghost use Rattle.auction_book.specs.Free.{IsFree};
ghost use Rattle.auction_book.specs.Phases.{opened};
ghost use Rattle.auction_book.specs.Session.{next_if_over};
ghost use Rattle.rounds.specs.Offers.{named};
ghost use Rattle.rounds.specs.Outcomes.{IsOfRounds};
ghost use Rattle.rounds.specs.Plain.{Plain, End, Ends, run};
ghost use Rattle.rounds.specs.Rounds.{IsAtRest};

/// Persons who list the same objects with the same benefits have the same offer under a table of
/// prices, except for the name.
pub fn like_persons_share_an_offer()
    ensures { (s : ScaledProblem) (prices : List ℤ) (version : ℕ) (ask : Ask) (i k : ℕ)
        → benefits_at s k ≡ benefits_at s i
        → named i (offer_of s prices version ask k) ≡ offer_of s prices version ask i }
{}

/// A newly opened book with a worker for each person is at rest, and the next phase of a book at
/// rest begins at rest.
pub fn books_begin_at_rest()
    ensures opened { (s : ScaledProblem) (prices : List ℤ) → IsFree (opened s prices (length s.problem))
        → IsAtRest (opened s prices (length s.problem)) }
    ensures phase { (b : BookData) → IsAtRest b → IsFree (next_if_over b) → IsAtRest (next_if_over b) }
{}

/// A run of plain rounds has only one end, and a run that has ended stays as it is.
pub fn rounds_end_once()
    ensures once { (s : ScaledProblem) (start : Plain) (m k : ℕ) (first second : End)
        → run s m start ≡ Ends first → run s k start ≡ Ends second → first ≡ second }
    ensures stays { (s : ScaledProblem) (start : Plain) (m k : ℕ) (end : End) → m ≤ k
        → run s m start ≡ Ends end → run s k start ≡ Ends end }
{}

/// Rounds of a problem that begin at the same prices have only one outcome. So the outcome doesn't
/// depend on the number of threads.
pub fn rounds_have_one_outcome()
    ensures { (s : ScaledProblem) (prices : List ℤ) (first second : Outcome)
        → IsOfRounds s prices first → IsOfRounds s prices second → first ≡ second }
{}

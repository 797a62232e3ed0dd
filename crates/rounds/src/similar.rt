// Persons with the same row have the same offer, except for the name: in a round only one of them
// bids.
ghost use Rattle.std.specs.Prelude.{◌≡◌, ℕ, ◌<◌, ◌≤◌, length, All, IfOk, OnOk, IsTrue, slice_index_or};
ghost use Rattle.assign_core.specs.Numbered.{IsNumber, numbered};
ghost use Rattle.assign_core.specs.Rows.{IsSize};
ghost use Rattle.scaled_values.specs.Scaled.{ScaledProblem};
ghost use Rattle.bidder.specs.Offers.{benefits_at};
ghost use Rattle.candidates.specs.Candidates.{HaveCandidates};
ghost use Rattle.rounds.specs.Offers.{AreMade, CanOffer, named};
ghost use Rattle.rounds.specs.inside.Similar.{AreSimilar, HasAlike, IsGathered, IsPlaced};

use super::offers::Offering;
use assign_core::{Benefit, Object, Person, Prices};
use bidder::{Ask, BelowFloor, Bid, Offer};
use candidates::CandidateLists;
use scaled_values::{Row, Scaled};
use std::alloc::{AllocError, Global};
use std::hash::{FoldHasher, Hasher};

// The number of entries at the start in which different rows mostly differ.
const START: usize = 16;

// The hash of at most `most` benefits at a row's start. It finds candidates for equal rows, and a
// comparison decides.
fn hash_of_benefits(benefits: &[Benefit], most: usize) -> u64 {
    let mut hasher = FoldHasher::default();
    for benefit in benefits.iter().take(most) {
        hasher.write_i64(*benefit);
    }
    hasher.finish()
}

// The hash of at most `most` objects at a row's start, with their benefits.
fn hash_of_pairs(pairs: &[(Object, Benefit)], most: usize) -> u64 {
    let mut hasher = FoldHasher::default();
    for (object, benefit) in pairs.iter().take(most) {
        hasher.write_u16(object.0);
        hasher.write_i64(*benefit);
    }
    hasher.finish()
}

fn hash_of(row: Row<'_>, most: usize) -> u64 {
    match row {
        Row::Full(benefits) => hash_of_benefits(benefits, most),
        Row::Pairs(pairs) => hash_of_pairs(pairs, most),
    }
}

// All persons, each with the hash of its row's start.
fn hashed_persons(alloc: Global, scaled: &Scaled) -> Result<Vec<(u64, Person)>, AllocError>
    ensures { IfOk result
        (λ hashed. All (λ e. IsNumber (length scaled.now.problem) e.1) hashed.items) }
{
    let n = scaled.n();
    let mut hashed = Vec::with_capacity(alloc, n as usize)?;
    for i in 0..n {
        let person = Person(i + 1);
        hashed.push((hash_of(scaled.row(person), START), person))?;
    }
    Ok(hashed)
}

// Whether a neighbour in a sorted list has the same hash.
fn has_neighbour(hashed: &[(u64, Person)], place: usize) -> bool
    requires { place < length hashed.now }
{
    let hash = hashed[place].0;
    place > 0 && hashed[place - 1].0 == hash
        || place + 1 < hashed.len() && hashed[place + 1].0 == hash
}

// The persons of a sorted list that share a hash, each with the hash of its whole row.
fn rehashed_persons(
    alloc: Global,
    scaled: &Scaled,
    hashed: &[(u64, Person)],
) -> Result<Vec<(u64, Person)>, AllocError>
    requires { All (λ e. IsNumber (length scaled.now.problem) e.1) hashed.now }
    ensures { IfOk result
        (λ again. All (λ e. IsNumber (length scaled.now.problem) e.1) again.items) }
{
    let mut again = Vec::new(alloc);
    for i in 0..hashed.len() {
        if has_neighbour(hashed, i) {
            let person = hashed[i].1;
            again.push((hash_of(scaled.row(person), usize::MAX), person))?;
        }
    }
    Ok(again)
}

// Each person's own number.
fn all_apart(alloc: Global, scaled: &Scaled) -> Result<Vec<Person>, AllocError>
    ensures { IfOk result (λ alike. HasAlike scaled.now alike.items) }
{
    let n = scaled.n();
    let mut alike = Vec::with_capacity(alloc, n as usize)?;
    for i in 0..n {
        alike.push(Person(i + 1))?;
    }
    Ok(alike)
}

// Whether two lists of benefits are the same.
fn are_same_benefits(first: &[Benefit], second: &[Benefit]) -> bool
    ensures { IsTrue result → first.now ≡ second.now }
{
    first == second
}

// Whether two lists of objects with benefits are the same.
fn are_same_pairs(first: &[(Object, Benefit)], second: &[(Object, Benefit)]) -> bool
    ensures { IsTrue result → first.now ≡ second.now }
{
    first == second
}

// Whether two persons have the same row.
fn are_alike(scaled: &Scaled, first: Person, second: Person) -> bool
    requires first { IsNumber (length scaled.now.problem) first }
    requires second { IsNumber (length scaled.now.problem) second }
    ensures { IsTrue result → benefits_at scaled.now first ≡ benefits_at scaled.now second }
{
    match (scaled.row(first), scaled.row(second)) {
        (Row::Full(first), Row::Full(second)) => are_same_benefits(first, second),
        (Row::Pairs(first), Row::Pairs(second)) => are_same_pairs(first, second),
        _ => false,
    }
}

// Compares each person's row with that of the person before it, if both have the same hash. Returns
// whether some are equal.
fn find_alike(scaled: &Scaled, hashed: &[(u64, Person)], alike: &mut [Person]) -> bool
    requires numbers { All (λ e. IsNumber (length scaled.now.problem) e.1) hashed.now }
    requires alike { HasAlike scaled.now alike.old }
    ensures { HasAlike scaled.now alike.new }
{
    let mut some = false;
    for i in 1..hashed.len() {
        let (before, other) = hashed[i - 1];
        let (hash, person) = hashed[i];
        let first = alike[other.place()];
        if hash == before && are_alike(scaled, first, person) {
            alike[person.place()] = first;
            some = true;
        }
    }
    some
}

// The offer under another person's name.
fn named(offer: Offer, person: Person) -> Offer
    ensures { result ≡ named person offer }
{
    match offer {
        Offer::Bid(bid) => Offer::Bid(Bid { person, ..bid }),
        Offer::Below(below) => Offer::Below(BelowFloor { person, ..below }),
    }
}

// The place of a person's kind among the first persons of a round. A person of a new kind joins
// them.
fn place_of(
    alike: &[Person],
    marks: &mut [u16],
    firsts: &mut Vec<Person>,
    person: Person,
) -> Result<u16, AllocError>
    requires person { IsNumber (length alike.now) person }
    requires within { All (IsNumber (length alike.now)) alike.now }
    requires marks { length marks.old ≡ length alike.now }
    requires firsts { All (IsNumber (length alike.now)) firsts.old.items }
    requires few { length firsts.old.items < length alike.now }
    requires size { IsSize (length alike.now) }
    ensures place { IfOk result (λ place. IsPlaced alike.now firsts.old.items firsts.new.items person place) }
{
    let kind = alike[person.place()];
    let place = marks[kind.place()];
    if let Some(first) = firsts.get(place as usize) {
        if alike[first.place()] == kind {
            return Ok(place);
        }
    }
    let place = firsts.len() as u16;
    marks[kind.place()] = place;
    firsts.push(person)?;
    Ok(place)
}

// The first person of each kind among the persons of a round, and for each person the place of its
// kind.
fn gather(
    alike: &[Person],
    persons: &[Person],
    marks: &mut [u16],
    firsts: &mut Vec<Person>,
    places: &mut Vec<u16>,
) -> Result<(), AllocError>
    requires persons { All (IsNumber (length alike.now)) persons.now }
    requires within { All (IsNumber (length alike.now)) alike.now }
    requires marks { length marks.old ≡ length alike.now }
    requires few { length persons.now ≤ length alike.now }
    requires size { IsSize (length alike.now) }
    ensures { OnOk result (IsGathered alike.now persons.now firsts.new.items places.new.items) }
{
    firsts.clear();
    places.clear();
    for person in persons {
        places.push(place_of(alike, marks, firsts, *person)?)?;
    }
    Ok(())
}

// Gives each person the offer at its place, under its own name.
fn hand_out(
    made: &[Offer],
    places: &[u16],
    persons: &[Person],
    offers: &mut Vec<Offer>,
) -> Result<(), AllocError>
    requires long { length places.now ≡ length persons.now }
    requires within { (k d : ℕ) → k < length persons.now → slice_index_or places.now k d < length made.now }
    ensures long { OnOk result (length offers.new.items ≡ length persons.now) }
    ensures each { OnOk result ((k : ℕ) (d e : Offer) (f g : ℕ) → k < length persons.now
        → slice_index_or offers.new.items k d
        ≡ named (slice_index_or persons.now k f) (slice_index_or made.now (slice_index_or places.now k g) e)) }
{
    offers.clear();
    for i in 0..persons.len() {
        offers.push(named(made[places[i] as usize], persons[i]))?;
    }
    Ok(())
}

/// The persons of a problem that have the same row, and what a round needs so that one of them bids
/// for all. If no two are known to be alike it takes no memory; otherwise it takes 4 bytes a
/// person, and lists that grow with the rounds in which some are alike.
#[derive(Drop)]
pub struct SimilarPersons {
    // Whether some two persons are known to be alike. If not, the lists are empty.
    some: bool,
    // For each person a person with the same row.
    alike: Vec<Person>,
    // By the person in `alike`, the place where the first person of this kind may be. A reader
    // checks this place, so the list is never cleared.
    marks: Vec<u16>,
    firsts: Vec<Person>,
    places: Vec<u16>,
    made: Vec<Offer>,
}

impl SimilarPersons {
    // Similar persons where no two are known to be alike.
    fn none(alloc: Global) -> SimilarPersons
        ensures { (s : ScaledProblem) → AreSimilar s result }
    {
        SimilarPersons {
            some: false,
            alike: Vec::new(alloc),
            marks: Vec::new(alloc),
            firsts: Vec::new(alloc),
            places: Vec::new(alloc),
            made: Vec::new(alloc),
        }
    }

    // The similar ones of persons that are sorted by the hashes of their rows.
    fn among(
        alloc: Global,
        scaled: &Scaled,
        hashed: &[(u64, Person)],
    ) -> Result<SimilarPersons, AllocError>
        requires { All (λ e. IsNumber (length scaled.now.problem) e.1) hashed.now }
        ensures { IfOk result (AreSimilar scaled.now) }
    {
        let mut alike = all_apart(alloc, scaled)?;
        if !find_alike(scaled, hashed, alike.as_mut_slice()) {
            return Ok(SimilarPersons::none(alloc));
        }
        Ok(SimilarPersons {
            some: true,
            alike,
            marks: vec![in alloc; 0; scaled.n() as usize]?,
            firsts: Vec::new(alloc),
            places: Vec::new(alloc),
            made: Vec::new(alloc),
        })
    }

    /// A problem's similar persons, in at most one pass over their rows and one comparison a
    /// person.
    pub fn find(alloc: Global, scaled: &Scaled) -> Result<SimilarPersons, AllocError>
        ensures { IfOk result (AreSimilar scaled.now) }
    {
        let mut hashed = hashed_persons(alloc, scaled)?;
        hashed.sort_unstable();
        let mut again = rehashed_persons(alloc, scaled, hashed.as_slice())?;
        if again.is_empty() {
            return Ok(SimilarPersons::none(alloc));
        }
        again.sort_unstable();
        SimilarPersons::among(alloc, scaled, again.as_slice())
    }

    /// The offers of the persons. Only the first person of each kind makes its own offer.
    pub fn make<O: Offering>(
        &mut self,
        offering: &mut O,
        scaled: &Scaled,
        prices: &Prices,
        ask: Ask,
        persons: &[Person],
        lists: &mut CandidateLists,
        offers: &mut Vec<Offer>,
    ) -> Result<(), AllocError>
        requires ready { O.ready }
        requires can { CanOffer scaled.now prices.now ask persons.now }
        requires lists { HaveCandidates scaled.now prices.now lists.old }
        requires few { length persons.now ≤ length scaled.now.problem }
        requires size { IsSize (length scaled.now.problem) }
        requires similar { AreSimilar scaled.now self.old }
        ensures made { AreMade scaled.now prices.now ask persons.now result offers.new.items }
        ensures lists { HaveCandidates scaled.now prices.now lists.new }
        ensures similar { AreSimilar scaled.now self.new }
    {
        if !self.some || persons.len() < 2 {
            return offering.make(scaled, prices, ask, persons, lists, offers);
        }
        gather(
            self.alike.as_slice(),
            persons,
            self.marks.as_mut_slice(),
            &mut self.firsts,
            &mut self.places,
        )?;
        if self.firsts.len() == persons.len() {
            return offering.make(scaled, prices, ask, persons, lists, offers);
        }
        offering.make(
            scaled,
            prices,
            ask,
            self.firsts.as_slice(),
            lists,
            &mut self.made,
        )?;
        hand_out(
            self.made.as_slice(),
            self.places.as_slice(),
            persons,
            offers,
        )?;
        Ok(())
    }
}

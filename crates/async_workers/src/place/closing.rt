// The closing of a place.
ghost use Rattle.std.specs.Prelude.{◌≡◌, ◌<◌, [], All, vec_len};
ghost use Rattle.crossbeam_queue.specs.Passes.{view, IsPassOf, IsSamePass};
ghost use Rattle.auction_book.specs.Book.{BookData};
ghost use Rattle.auction_book.specs.Free.{IsFree};
ghost use Rattle.async_workers.specs.PlaceRule.{IsCurrent};
ghost use Rattle.async_workers.specs.inside.Passing.{Closes, IsClosing};
ghost use Rattle.async_workers.specs.Desk.{IsReady, IsTrueOf};
ghost use Rattle.async_workers.specs.declared.rule.LastSession.{LastSession};
ghost use Rattle.async_workers.specs.declared.rule.View.TheVariants.{Away};

use super::taking::take_book;
use super::{BookPlace, Desk};
use crate::rule::{DeskPass, Meet, Queue};
use auction_book::Book;
use std::sync::Wait;

/// Takes the book out of its place for good, as soon as it is there. The book is free, and all that
/// the desks last learnt is true of it. It may wait for workers whose desks aren't among these. It
/// takes no memory.
pub fn close_place<R: Wait>(rt: &R, place: BookPlace, mut desks: Vec<Desk>) -> Book
    requires some_desk { 0 < vec_len desks }
    requires ready { All (IsReady place) desks.items }
    ensures current { All (IsTrueOf result) desks.items }
    ensures free { IsFree result }
{
    let Some(closer) = desks.pop() else {
        unreachable!()
    };
    let mut pass = closer.into_pass();
    let book = take_book(rt, &place.queue, &mut pass, &mut 0);
    meet_all(&place.queue, &mut pass, desks);
    book.into_book()
}

impl Desk {
    fn into_pass(self) -> DeskPass
        ensures view { view result ≡ self.view }
        ensures place { result.table_id ≡ self.place }
        ensures idle { result.me.1 ≡ [] }
    {
        let Desk { pass, .. } = self;
        pass
    }
}

// Takes in these desks, while the book is in hand.
fn meet_all(queue: &Queue, pass: &mut DeskPass, mut desks: Vec<Desk>)
    requires queue { IsPassOf queue.now pass.old }
    requires closing { Closes (view pass.old) }
    requires ready { All (IsReady queue.now.table.shared.table_id) desks.items }
    ensures { (t : LastSession) (taken : BookData) → IsClosing (view pass.old) t taken
        → All (IsTrueOf taken) desks.items }
{
    while let Some(desk) = desks.pop() {
        meet(queue, pass, desk.into_pass());
    }
}

// Takes in one desk, and compares what it last learnt with the book in hand.
fn meet(queue: &Queue, pass: &mut DeskPass, other: DeskPass)
    requires queue { IsPassOf queue.now pass.old × IsPassOf queue.now other }
    requires closing { Closes (view pass.old) }
    requires away { (u : LastSession) × (view other ≡ Away u) }
    ensures queue { IsSamePass pass.old pass.new }
    ensures closing { (t : LastSession) (taken : BookData) → IsClosing (view pass.old) t taken
        → IsClosing (view pass.new) t taken }
    ensures current { (t : LastSession) (taken : BookData) (u : LastSession) → IsClosing (view pass.old) t taken
        → view other ≡ Away u → IsCurrent taken u }
{
    queue.absorb::<Meet>(pass, other);
    queue.learn_as::<Meet>(pass);
}

// What is shown to all passes: the newest look, with a note of the events over which it was taken. A pass can learn it
// without the turn.
ghost use Rattle.std.specs.Prelude.{◌≡◌, ◌⊎◌, ◌≤◌, length, IfOk, IfSome};
ghost use Rattle.jf_turn.specs.Seats.{IsNoteOf};
ghost use Rattle.jf_store.specs.News.{IsShownLook};
ghost use Rattle.jf_store.specs.Passes.{store_of};

use crate::boxed_vault::BoxedVault;
use crate::look::Look;
use crate::store::Store;
use jf_disk::Disk;
use jf_path::Memory;
use jf_turn::{Note, Turn};
use jf_window::Fits;
use std::sync::Wait;

/// A look, and the events over which it was taken.
#[derive(Drop)]
pub struct ShownLook<D: Disk> {
    pub(crate) note: Note<BoxedVault<D>>,
    pub(crate) look: Look,
}

/// How many events the pass had seen that was the last to show something, and the look that it showed. It has none once
/// the disk has failed, or if memory ran out.
#[derive(Drop)]
pub struct News<D: Disk> {
    pub(crate) seen: u64,
    pub(crate) shown: Option<ShownLook<D>>,
}

impl<D: Disk> Fits<Turn<BoxedVault<D>>> for News<D> {
    ghost use Rattle.std.specs.Prelude.{IfSome};
    ghost use Rattle.jf_store.specs.News.{IsShownLook};
    ghost use Rattle.jf_store.specs.Passes.{store_of};

    ghost fits = { λ turn news. IfSome news.shown (λ s. IsShownLook (store_of turn) s.note s.look) };
}

impl Look {
    // The same look, whose snapshot is shared and not copied.
    pub(crate) fn share(&self) -> Result<Look, Memory>
        ensures { IfOk result (λ l. l ≡ self.now) }
    {
        let head = self.head.share()?;
        Ok(Look {
            seen: self.seen,
            head,
            state: self.state,
            retired: self.retired,
            forks: self.forks,
        })
    }
}

impl<D: Disk> ShownLook<D> {
    // The same once more, if it is over at least so many events and there is memory for it.
    fn again(&mut self, turn: &Turn<BoxedVault<D>>, least: u64) -> Option<ShownLook<D>>
        requires { IsNoteOf self.old.note turn.now }
        ensures unchanged { self.new ≡ self.old }
        ensures copy { IfSome result (λ s. (s ≡ self.old) × (least ≤ length self.old.note.seen)) }
    {
        if self.note.seen_count() < least {
            return None;
        }
        let Ok(look) = self.look.share() else {
            return None;
        };
        let note = self.note.again(turn);
        Some(ShownLook { note, look })
    }
}

impl<D: Disk> News<D> {
    // What is shown once more, if it is over at least so many events and there is memory for it.
    fn again(&mut self, turn: &Turn<BoxedVault<D>>, least: u64) -> Option<ShownLook<D>>
        requires { IfSome self.old.shown (λ s. IsShownLook (store_of turn.now) s.note s.look) }
        ensures unchanged { self.new ≡ self.old }
        ensures copy { IfSome result (λ s. IsShownLook (store_of turn.now) s.note s.look × (least ≤ length s.note.seen)) }
    {
        match &mut self.shown {
            None => None,
            Some(shown) => shown.again(turn, least),
        }
    }
}

// What is shown at a store, if it is over at least so many events and there is memory for it. It waits for those alone who
// look or show something at this moment, and for no landing.
pub(crate) fn glance<D: Disk, H: Wait>(rt: &H, store: &Store<D>, least: u64) -> Option<ShownLook<D>>
    ensures { IfSome result (λ s. IsShownLook store.now s.note s.look × (least ≤ length s.note.seen)) }
{
    let Some(window) = &store.window else {
        return None;
    };
    let (grip, mut news) = window.take(rt);
    let copy = news.again(&store.turn, least);
    window.give(grip, news);
    copy
}

// Shows news, unless newer ones are shown. What is no longer shown is dropped after the window was given back.
pub(crate) fn show<D: Disk, H: Wait>(rt: &H, store: &Store<D>, news: News<D>)
    requires { IfSome news.shown (λ s. IsShownLook store.now s.note s.look) }
{
    let Some(window) = &store.window else {
        return;
    };
    let (grip, shown) = window.take(rt);
    let (newer, _older) = in_order(shown, news);
    window.give(grip, newer);
}

// First the one whose pass had seen more events, and the second if both had seen as many.
fn in_order<D: Disk>(shown: News<D>, news: News<D>) -> (News<D>, News<D>)
    ensures { (result.0 ≡ shown) ⊎ (result.0 ≡ news) }
{
    if news.seen < shown.seen {
        return (shown, news);
    }
    (news, shown)
}

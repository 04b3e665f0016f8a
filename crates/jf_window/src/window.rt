//! The window itself: one word, one slot, in a table.
ghost use Rattle.std.specs.Prelude.{◌≡◌, ◌≢◌, ◌<◌, [], ◌∷◌, Some, None, true, false, IfOk};
ghost use Rattle.jf_window.specs.declared.view.Grasp.TheVariants.{Full};
ghost use Rattle.jf_window.specs.Rule.{newcomer};
ghost use Rattle.jf_window.specs.Steps.{with_grasp};

use crate::fits::Fits;
use crate::grip::Grip;
use crate::rule::WindowRule;
use crate::steps::{Claim, Enter, Release};
use crate::view::WindowView;
use atomic_table::{Refused, Seat as Token, Table};
use std::alloc::{AllocError, Global};
use std::hint::spin_loop;
use std::marker::Model;
use std::sync::Wait;

/// How often the word is tried before one waits.
const TRIES: u32 = 64;

/// A window that shows a value, which fits a key. Threads share it by `&`.
pub struct Window<K, T: Fits<K>> {
    pub(crate) table: Table<Option<T>, WindowView<K>, K, WindowRule, Global>,
}

impl<K, T: Fits<K>> Model for Window<K, T> {
    ghost use Rattle.std.specs.Prelude.{◌≡◌};
    ghost use Rattle.jf_window.specs.Windows.{WindowState};

    ghost Value = { WindowState K };

    ghost view = { λ w. record { id = w.table.shared.table_id; key = w.table.shared.key } };

    ghost invariant = { λ w. (w.table.shared.table_id.words ≡ 1) × (w.table.shared.table_id.slots ≡ 1) };
}

impl<K, T: Fits<K> + Drop> Drop for Window<K, T> {
    fn drop(self) {
        let Self { table: _ } = self;
    }
}

impl<K, T: Fits<K>> Window<K, T> {
    // A token of one more who comes to the window.
    fn enter(&self) -> Token<Option<T>, WindowView<K>>
        ensures { (result.table_id ≡ self.now.id) × (result.me ≡ (newcomer self.now.key, [])) }
    {
        let (_, token) = self.table.shared.load_new_seat::<Enter>(0);
        token
    }

    // Takes the slot if the word is 0, which then becomes 1, and returns the word that was found.
    fn claim(&self, token: &mut Token<Option<T>, WindowView<K>>) -> u64
        requires own { token.old.table_id ≡ self.now.id }
        requires away { token.old.me ≡ (newcomer self.now.key, []) }
        ensures rest { token.new.table_id ≡ token.old.table_id }
        ensures hit { result ≡ 0 → (y : T) × (token.new.me ≡ (with_grasp token.old.me.0 Full, (0, Some y) ∷ [])) × T.fits self.now.key y }
        ensures miss { result ≢ 0 → token.new.me ≡ token.old.me }
    {
        self.table.shared.compare_exchange::<Claim>(token, 0, 0, 1)
    }

    // Takes the slot if the word is 0 at one of some tries, and returns whether it was. Whoever has the value holds it for a
    // moment, so this is mostly shorter than to wait.
    fn claim_soon(&self, token: &mut Token<Option<T>, WindowView<K>>) -> bool
        requires own { token.old.table_id ≡ self.now.id }
        requires away { token.old.me ≡ (newcomer self.now.key, []) }
        ensures rest { token.new.table_id ≡ token.old.table_id }
        ensures hit { result ≡ true → (y : T) × (token.new.me ≡ (with_grasp token.old.me.0 Full, (0, Some y) ∷ [])) × T.fits self.now.key y }
        ensures miss { result ≡ false → token.new.me ≡ token.old.me }
    {
        for _ in 0..TRIES {
            if self.claim(token) == 0 {
                return true;
            }
            spin_loop();
        }
        false
    }

    // Takes the slot if the word is 0. The word becomes 2, which says that somebody waits.
    fn claim_or_mark(&self, token: &mut Token<Option<T>, WindowView<K>>) -> u64
        requires own { token.old.table_id ≡ self.now.id }
        requires away { token.old.me ≡ (newcomer self.now.key, []) }
        ensures rest { token.new.table_id ≡ token.old.table_id }
        ensures hit { result ≡ 0 → (y : T) × (token.new.me ≡ (with_grasp token.old.me.0 Full, (0, Some y) ∷ [])) × T.fits self.now.key y }
        ensures miss { result ≢ 0 → token.new.me ≡ token.old.me }
    {
        self.table.shared.swap::<Claim>(token, 0, 2)
    }

    // The value that the token took out of the slot.
    fn fetch(&self, token: &mut Token<Option<T>, WindowView<K>>) -> T
        requires own { token.old.table_id ≡ self.now.id }
        requires full { (y : T) × (token.old.me.1 ≡ (0, Some y) ∷ []) }
        ensures rest { (token.new.table_id ≡ token.old.table_id) × (token.new.me ≡ (token.old.me.0, (0, None) ∷ [])) }
        ensures value { token.old.me.1 ≡ (0, Some result) ∷ [] }
    {
        let found = self.table.shared.exchange(token, 0, None);
        let Some(value) = found else { unreachable!() };
        value
    }

    // Waits until the token has the slot, and takes the value.
    fn acquire<H: Wait>(&self, rt: &H, token: &mut Token<Option<T>, WindowView<K>>) -> T
        requires own { token.old.table_id ≡ self.now.id }
        requires away { token.old.me ≡ (newcomer self.now.key, []) }
        ensures rest { token.new.table_id ≡ token.old.table_id }
        ensures holds { token.new.me ≡ (with_grasp token.old.me.0 Full, (0, None) ∷ []) }
        ensures fits { T.fits self.now.key result }
    {
        if self.claim_soon(token) {
            return self.fetch(token);
        }
        for _ in rt.forever() {
            if self.claim_or_mark(token) == 0 {
                return self.fetch(token);
            }
            self.table.shared.park(rt, 0, 2);
        }
        unreachable!()
    }

    /// Takes the value out, with the right to put one back. It waits only for those who have it at the moment.
    pub fn take<H: Wait>(&self, rt: &H) -> (Grip<K, T>, T)
        // The grip is of this window.
        ensures grip { result.0 ≡ self.now.id }
        // The value that was taken fits the window's key.
        ensures fits { T.fits self.now.key result.1 }
    {
        let mut token = self.enter();
        let value = self.acquire(rt, &mut token);
        (Grip { token }, value)
    }

    /// Puts a value back, this one or another, and wakes one who waits. It waits for nobody.
    pub fn give(&self, grip: Grip<K, T>, value: T)
        // The grip is of this window.
        requires own { grip ≡ self.now.id }
        // The value to put back fits the window's key.
        requires fits { T.fits self.now.key value }
    {
        let Grip { mut token } = grip;
        self.bring(&mut token, value);
    }

    // Puts a value into the slot that the token has, and gives the slot back.
    fn bring(&self, token: &mut Token<Option<T>, WindowView<K>>, value: T)
        requires own { token.old.table_id ≡ self.now.id }
        requires holds { (token.old.me.0.grasp ≡ Full) × (token.old.me.1 ≡ (0, None) ∷ []) }
        requires fits { T.fits self.now.key value }
    {
        let found = self.table.shared.exchange(token, 0, Some(value));
        let None = found else { unreachable!() };
        if self.table.shared.swap::<Release>(token, 0, 0) == 2 {
            self.table.shared.wake_one(0);
        }
    }
}

impl<K, T: Fits<K> + Drop> Window<K, T> {
    /// A window that shows a value. If memory runs out, the value is dropped.
    pub fn new(alloc: Global, key: &K, value: T) -> Result<Window<K, T>, AllocError>
        // The value fits the key.
        requires { T.fits key.now value }
        // After `Ok` the window's key is this one.
        ensures { IfOk result (λ w. w.key ≡ key.now) }
    {
        let mut slots = Vec::with_capacity(alloc, 1)?;
        slots.push_reserved(Some(value));
        match Table::new(alloc, &[0], slots, key) {
            Ok((table, _)) => Ok(Window { table }),
            Err(Refused { slots: _ }) => Err(AllocError),
        }
    }
}

//! The turn.

ghost use Rattle.std.specs.Prelude.{◌≡◌, ℕ, ◌<◌, false, [], ◌∷◌, IfOk, MatchResult, Some};
ghost use Rattle.un_facts.specs.Numbers.{one_if};
ghost use Rattle.un_turn.specs.Steps.{opening_view, entered, lost, left, split_left, split_right, joined};
ghost use Rattle.un_turn.specs.Views.{KeepsMachine, IsOut, Follows, LostMore, StartsWith};

use crate::guard::{Guard, Held};
use crate::rule::{Amount, Cuts, Enters, Leaves, Meets, Opening, TurnRule};
use crate::seat::{Seat, Token};
use crate::view::View;
use atomic_table::{Refused, Table};
use std::alloc::{AllocError, Global};
use std::hint::spin_loop;
use std::marker::{Brand, Model};
use std::snapshot::Snapshot;
use std::sync::Wait;
use std::sync::atomic::{AtomicU64, Ordering};
use un_journal::Machine;

// The pauses between looks at a turn that is held, before the waiter sleeps: in all a few times the time of a hold.
const PAUSES: [u32; 6] = [1, 2, 4, 8, 16, 32];

/// A lock over one machine, under the rule of the turn. Contracts see which turn it is.
#[derive(Drop)]
pub struct Turn<M: Machine> {
    pub(crate) table: Table<Option<M>, View<M::Script>, Opening<M>, TurnRule<M>, Global>,
    // How many sleep on the word, or are about to.
    sleepers: AtomicU64,
}

impl<M: Machine> Model for Turn<M> {
    ghost use Rattle.std.specs.Prelude.{◌≡◌};
    ghost use Rattle.atomic_table.specs.Seated.{TableId, table_id_coded};

    ghost Value = { TableId };

    ghost coded = { table_id_coded };

    ghost view = { λ t. t.table.shared.table_id };

    ghost invariant = { λ t. (t.table.shared.table_id.words ≡ 1) × (t.table.shared.table_id.slots ≡ 1) };
}

impl<M: Machine> Turn<M> {
    /// A turn over a machine with no flight out, with so many shares (1 to 2^32 - 1), and the first seat, which has them all and
    /// has seen the machine's history. `AllocError` comes for want of memory, and the machine is then given up.
    pub fn make(alloc: Global, machine: M, shares: u32) -> Result<(Turn<M>, Seat<M>), AllocError>
        requires shares { 0 < shares }
        requires none_out { M.flights machine ≡ [] }
        ensures { IfOk result (λ made. (made.1.turn ≡ made.0) × (made.1.view ≡ opening_view (M.script machine) (M.history machine) shares)) }
    {
        let about = Opening {
            machine: Snapshot::of(&machine),
            shares: u64::from(shares),
        };
        let mut slots = Vec::with_capacity(alloc, 1)?;
        slots.push_reserved(Some(machine));
        match Table::new(alloc, &[0], slots, &about) {
            Ok((table, token)) => {
                let sleepers = AtomicU64::new(0);
                Ok((Turn { table, sleepers }, Seat { token }))
            },
            Err(Refused { slots: _ }) => Err(AllocError),
        }
    }

    /// Tries once to get the turn, and doesn't wait. `Held` comes only where the word that the exchange found was 1; the seat then
    /// has one loss more and is otherwise unchanged. A guard finds the seat's script, and a history that begins with all that the
    /// seat had seen.
    pub fn try_enter(&self, seat: Seat<M>) -> Result<Guard<'_, M>, Held<M>>
        requires { seat.turn ≡ self.now }
        ensures { MatchResult result
            (λ guard. (guard.turn ≡ self.now) × (guard.id ≡ seat.id) × (guard.called ≡ false) × (guard.view ≡ entered seat.view (M.history guard.machine) (M.flights guard.machine)) × (seat.view.script ≡ Some (M.script guard.machine)) × StartsWith (M.history guard.machine) seat.view.seen × IsOut seat.view.known (M.flights guard.machine))
            (λ held. (held.word ≡ 1) × (held.seat.turn ≡ self.now) × (held.seat.id ≡ seat.id) × (held.seat.view ≡ lost seat.view)) }
    {
        let Seat { mut token } = seat;
        let word = self
            .table
            .shared
            .compare_exchange::<Enters<M>>(&mut token, 0, 0, 1);
        if word != 0 {
            let seat = Seat { token };
            return Err(Held { word, seat });
        }
        let machine = self.table.shared.exchange(&mut token, 0, None).unwrap();
        Ok(Guard {
            turn: self,
            token,
            machine,
            called: false,
        })
    }

    /// Tries again until it has the turn, and waits between the tries; that it ever gets it isn't promised. What it finds is as in
    /// `try_enter`, after no fewer losses.
    pub fn enter<R: Wait>(&self, rt: &R, seat: Seat<M>) -> Guard<'_, M>
        requires { seat.turn ≡ self.now }
        ensures turn { (result.turn ≡ self.now) × (result.called ≡ false) }
        ensures view { (v : _) × LostMore seat.view v × (result.view ≡ entered v (M.history result.machine) (M.flights result.machine)) }
        ensures fresh { (seat.view.script ≡ Some (M.script result.machine)) × StartsWith (M.history result.machine) seat.view.seen }
        ensures out { IsOut seat.view.known (M.flights result.machine) }
        ensures number { result.id ≡ seat.id }
    {
        let mut waiting = seat;
        for _ in rt.forever() {
            match self.try_enter(waiting) {
                Ok(guard) => return guard,
                Err(Held { word: _, seat }) => waiting = seat,
            }
            self.stand_by(rt);
        }
        unreachable!()
    }

    /// A second seat, with so many of the seat's shares (at least 1, and fewer than it has). It has seen as much, knows no flight
    /// and has 0 calls and 0 losses. The first keeps the rest.
    pub fn split(&self, seat: Seat<M>, shares: u32) -> (Seat<M>, Seat<M>)
        requires turn { seat.turn ≡ self.now }
        requires some { 0 < shares }
        requires less { shares < seat.view.shares }
        ensures turn { (result.0.turn ≡ self.now) × (result.1.turn ≡ self.now) }
        ensures kept { result.0.view ≡ split_left shares seat.view }
        ensures given { result.1.view ≡ split_right shares seat.view }
        ensures number { result.0.id ≡ seat.id }
    {
        let Seat { mut token } = seat;
        let other = self.cut::<Brand>(&mut token, shares);
        (Seat { token }, Seat { token: other })
    }

    /// One seat of two, of which the right one knows no flight. It has seen the longer of the two histories, which begins with the
    /// other, and has the shares, the calls and the losses of both. It is the left seat, by its number.
    pub fn join(&self, left: Seat<M>, right: Seat<M>) -> Seat<M>
        requires turn { (left.turn ≡ self.now) × (right.turn ≡ self.now) }
        requires none_known { right.view.known ≡ [] }
        ensures turn { result.turn ≡ self.now }
        ensures view { result.view ≡ joined left.view right.view }
        ensures longer { StartsWith result.view.seen left.view.seen × StartsWith result.view.seen right.view.seen }
        ensures number { result.id ≡ left.id }
    {
        let Seat { mut token } = left;
        let Seat { token: other } = right;
        self.table.shared.join_seat::<Meets>(&mut token, other);
        self.table.shared.load::<Meets>(&mut token, 0);
        Seat { token }
    }

    /// Ends the turn by a seat that has all its shares and knows no flight, and gives the machine, out of which no flight is. It
    /// has the seat's script, and a history that begins with what the seat had seen.
    pub fn close(self, seat: Seat<M>) -> M
        requires turn { seat.turn ≡ self }
        requires all { seat.view.shares ≡ seat.view.total }
        requires none_known { seat.view.known ≡ [] }
        ensures script { seat.view.script ≡ Some (M.script result) }
        ensures history { StartsWith (M.history result) seat.view.seen }
        ensures none_out { M.flights result ≡ [] }
    {
        let Turn { table, sleepers: _ } = self;
        let Seat { token } = seat;
        let mut closed = table.close_with(token);
        let machine = closed.take(0).unwrap();
        closed.free();
        machine
    }

    // Looks for a while whether the turn is free, and then sleeps until it is left. Who sleeps has counted itself before the kernel compares
    // the word, and who leaves looks at the count after it stored the word: so one of the two sees the other, and no wake is lost.
    fn stand_by<R: Wait>(&self, rt: &R) {
        for pauses in PAUSES {
            for _ in 0..pauses {
                spin_loop();
            }
            if self.table.shared.peek(0) == 0 {
                return;
            }
        }
        self.sleepers.fetch_add(1, Ordering::SeqCst);
        self.table.shared.park(rt, 0, 1);
        self.sleepers.fetch_sub(1, Ordering::SeqCst);
    }

    // Wakes one of those who sleep until the turn is left.
    pub(crate) fn wake(&self) {
        if self.sleepers.load(Ordering::SeqCst) > 0 {
            self.table.shared.wake_one(0);
        }
    }

    // The store that frees the word.
    pub(crate) fn free<N: Amount>(&self, token: &mut Token<M>, _called: bool)
        requires turn { token.old.table_id ≡ self.now }
        requires pick { N.amount ≡ one_if _called }
        requires held { (machine : M) × (token.old.me.1 ≡ (0, Some machine) ∷ []) × KeepsMachine M.script M.history M.flights token.old.me.0 machine _called }
        ensures turn { (token.new.table_id ≡ token.old.table_id) × (token.new.id ≡ token.old.id) }
        ensures left { (machine : M) → token.old.me.1 ≡ (0, Some machine) ∷ [] → (token.new.me ≡ (left token.old.me.0 (one_if _called) (M.history machine) token.new.me.0.known, [])) × Follows token.old.me.0.flying (M.flights machine) token.old.me.0.known token.new.me.0.known }
    {
        self.table.shared.store::<Leaves<M, N>>(token, 0, 0);
    }

    // The split that gives so many shares away.
    fn cut<N: Amount>(&self, token: &mut Token<M>, _shares: u32) -> Token<M>
        requires turn { token.old.table_id ≡ self.now }
        requires pick { N.amount ≡ _shares }
        requires away { (token.old.me.1 ≡ []) × (token.old.me.0.holds ≡ false) }
        requires shares { (0 < _shares) × (_shares < token.old.me.0.shares) }
        ensures turn { (token.new.table_id ≡ token.old.table_id) × (token.new.id ≡ token.old.id) × (result.table_id ≡ token.old.table_id) }
        ensures kept { token.new.me ≡ (split_left _shares token.old.me.0, []) }
        ensures given { result.me ≡ (split_right _shares token.old.me.0, []) }
    {
        self.table.shared.split_seat::<Cuts<N>>(token)
    }
}

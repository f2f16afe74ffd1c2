// One value that two seats take by turns, and what each seat has seen of its history.
ghost use Rattle.std.specs.Prelude.{◌≡◌, ◌∷◌, [], IfOk, None, Some};
ghost use Rattle.shared_table.specs.Turns.{HasTaken};
ghost use Rattle.shared_table.specs.Views.{Begins, SitsAt, found_in, seen_in, seen_of};

use crate::view::View;
use atomic_table::{Badge, Join, Play, Refused, Seat, Split, Table, TableRule};
use net_base::{OutOfMemory, Settings};
use std::alloc::Global;
use std::marker::{Model, PhantomData};
use std::sync::Wait;

// A value with settings, and with a history of calls.
pub trait Recording {
    ghost use Rattle.std.specs.Prelude.{List};
    ghost use Rattle.net_base.specs.declared.settings.Settings.{Settings};
    ghost use Rattle.shared_table.specs.declared.entry.Entry.{Entry};

    ghost history: { Self → List Entry };

    ghost settings: { Self → Settings };
}

// The rule of a place, and the step of a seat that asks for its turn.
pub struct Turns<T> {
    marker: PhantomData<T>,
}

impl<T: Recording> TableRule<Option<T>, View, Settings> for Turns<T> {
    ghost use Rattle.shared_table.specs.Turns.{Stands};
    ghost use Rattle.shared_table.specs.declared.view.View.TheVariants.{Whole};

    ghost holds = { Stands T.history T.settings };

    ghost first = { λ key. Whole key };
}

impl<T: Recording> Play<Option<T>, View> for Turns<T> {
    ghost use Rattle.shared_table.specs.Turns.{AsksForTurn};

    ghost then = { AsksForTurn T.history T.settings };
}

// The end of a turn in which a call was made: the seat has seen all calls.
struct Ends<T> {
    marker: PhantomData<T>,
}

impl<T: Recording> Play<Option<T>, View> for Ends<T> {
    ghost use Rattle.shared_table.specs.Turns.{EndsTurn};

    ghost then = { EndsTurn T.history T.settings };
}

// The end of a turn in which nothing was done.
struct Leaves<T> {
    marker: PhantomData<T>,
}

impl<T: Recording> Play<Option<T>, View> for Leaves<T> {
    ghost use Rattle.shared_table.specs.Turns.{LeavesTurn};

    ghost then = { LeavesTurn };
}

// Two seats of one, and one of two.
struct Two;

impl Split<View> for Two {
    ghost use Rattle.shared_table.specs.Turns.{new_seat};

    ghost left = { new_seat };

    ghost right = { new_seat };
}

impl Join<View> for Two {
    ghost use Rattle.shared_table.specs.Turns.{joined};
    ghost use Rattle.shared_table.specs.declared.view.View.TheVariants.{Gone};

    ghost both = { joined };

    ghost spent = { Gone };
}

// Contracts see which place it is, and with which settings its value began.
#[derive(Drop)]
pub struct Place<T: Recording> {
    table: Table<Option<T>, View, Settings, Turns<T>, Global>,
    ghost sized: { (table.shared.table_id.words ≡ 1) × (table.shared.table_id.slots ≡ 1) },
}

impl<T: Recording> Model for Place<T> {
    ghost use Rattle.shared_table.specs.Views.{TableName};

    ghost Value = { TableName };

    ghost view = { λ p. record { id = p.table.shared.table_id; settings = p.table.shared.key } };
}

// A value that is out, in the hands of a seat.
pub struct Taken<T> {
    pub value: T,
    pub turn: Turn<T>,
}

// Whoever has it gives the value back. It has no `Drop`.
pub struct Turn<T> {
    seat: Seat<Option<T>, View>,
}

impl<T: Recording + Drop> Place<T> {
    // A place with a value that has no history yet, and its two seats.
    pub fn new(
        alloc: Global,
        value: T,
        settings: &Settings,
    ) -> Result<(Place<T>, Badge<View>, Badge<View>), OutOfMemory>
        requires { (T.history value ≡ []) × (T.settings value ≡ settings.now) }
        ensures settings { IfOk result (λ made. made.0.settings ≡ settings.now) }
        ensures one { IfOk result (λ made. SitsAt made.0 made.1 × (seen_of made.1.views ≡ [])) }
        ensures other { IfOk result (λ made. SitsAt made.0 made.2 × (seen_of made.2.views ≡ [])) }
    {
        let mut slots = Vec::with_capacity(alloc, 1)?;
        slots.push_reserved(Some(value));
        let (table, mut seat) = match Table::new(alloc, &[0], slots, settings) {
            Ok(made) => made,
            Err(Refused { slots: _ }) => return Err(OutOfMemory),
        };
        let other = table.shared.split_seat::<Two>(&mut seat);
        Ok((Place { table }, seat.into_badge(), other.into_badge()))
    }

    // Waits until it is nobody's turn.
    pub fn take<R: Wait>(&self, rt: &R, badge: Badge<View>) -> Taken<T>
        requires { SitsAt self.now badge }
        ensures turn { HasTaken self.now result.turn.seat }
        ensures seen { seen_in result.turn.seat.me.0 ≡ seen_of badge.views }
        ensures found { found_in result.turn.seat.me.0 ≡ T.history result.value }
        ensures settings { T.settings result.value ≡ self.now.settings }
        ensures begins { Begins (seen_of badge.views) (T.history result.value) }
    {
        let shared = &self.table.shared;
        let mut seat = badge.into_seat();
        for _ in rt.forever() {
            if shared.swap::<Turns<T>>(&mut seat, 0, 1) == 0 {
                let value = shared.exchange(&mut seat, 0, None).unwrap();
                let turn = Turn { seat };
                return Taken { value, turn };
            }
        }
        unreachable!()
    }

    // Gives the value back, whose history has gone on. The seat has seen all of it.
    pub fn give_back(&self, taken: Taken<T>) -> Badge<View>
        requires turn { HasTaken self.now taken.turn.seat }
        requires settings { T.settings taken.value ≡ self.now.settings }
        requires grown { Begins (found_in taken.turn.seat.me.0) (T.history taken.value) }
        ensures { SitsAt self.now result × (seen_of result.views ≡ T.history taken.value) }
    {
        let mut seat = self.put(taken);
        self.table.shared.store::<Ends<T>>(&mut seat, 0, 0);
        seat.into_badge()
    }

    // Gives the value back as it was found. The seat has seen no more than before.
    pub fn leave(&self, taken: Taken<T>) -> Badge<View>
        requires turn { HasTaken self.now taken.turn.seat }
        requires settings { T.settings taken.value ≡ self.now.settings }
        requires same { T.history taken.value ≡ found_in taken.turn.seat.me.0 }
        ensures { SitsAt self.now result × (seen_of result.views ≡ seen_in taken.turn.seat.me.0) }
    {
        let mut seat = self.put(taken);
        self.table.shared.store::<Leaves<T>>(&mut seat, 0, 0);
        seat.into_badge()
    }

    // Puts the value into its place. It is still this seat's turn.
    fn put(&self, taken: Taken<T>) -> Seat<Option<T>, View>
        requires { HasTaken self.now taken.turn.seat }
        ensures id { result.table_id ≡ self.now.id }
        ensures me { result.me ≡ (taken.turn.seat.me.0, (0, Some taken.value) ∷ []) }
    {
        let Taken { value, turn } = taken;
        let Turn { mut seat } = turn;
        drop(self.table.shared.exchange(&mut seat, 0, Some(value)));
        seat
    }

    // The value, once both seats are back.
    pub fn into_value(self, one: Badge<View>, other: Badge<View>) -> T
        requires one { SitsAt self one }
        requires other { SitsAt self other }
        ensures settings { T.settings result ≡ self.settings }
        ensures one { Begins (seen_of one.views) (T.history result) }
        ensures other { Begins (seen_of other.views) (T.history result) }
    {
        let Place { table } = self;
        let mut seat = one.into_seat();
        table.shared.join_seat::<Two>(&mut seat, other.into_seat());
        let mut closed = table.close_with(seat);
        let value = closed.take(0);
        closed.free();
        value.unwrap()
    }
}

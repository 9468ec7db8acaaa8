// A row of at most N items by value, in fixed memory: the items stand at its front, and every place beyond them is blank. It is no
// `ArrayVec`, since flowsheets and plans are copied by value, and what lies beyond their items is zero and not left open.
#![tactic(auto)]

ghost use Rattle.std.specs.Prelude.{◌≡◌, ◌≤◌, ◌<◌, ◌+◌, [], ◌∷◌, ◌++◌, ⊤, length, set};
ghost use Rattle.std.specs.List.{insert, remove};
ghost use Rattle.std.specs.Cmp.Lexicographic.{pointwise, lists_per};
ghost use Rattle.std.specs.Float.{binary64};
ghost use Rattle.std.specs.Float.Ieee.{of_bits};

use std::alloc::AllocError;
use std::marker::Model;

// What stands in a place beyond the items.
pub trait Blank: Copy {
    ghost blank: { Self };

    fn blank() -> Self
        ensures { result ≡ blank };
}

impl Blank for u8 {
    ghost blank = { 0 };

    fn blank() -> u8 {
        0
    }
}

impl Blank for u16 {
    ghost blank = { 0 };

    fn blank() -> u16 {
        0
    }
}

impl Blank for f64 {
    ghost blank = { of_bits binary64 0 };

    fn blank() -> f64 {
        0.0
    }
}

#[derive(Copy)]
pub struct Row<T: Blank, const N: usize> {
    count: usize,
    places: [T; N],
}

// A clause sees the items. The places beyond them are blank, so the items give the whole row.
impl<T: Blank, const N: usize> Model for Row<T, N> {
    ghost use Rattle.std.specs.Prelude.{◌≡◌, ◌≤◌, List, length, take};
    ghost use Rattle.rows.specs.Rows.{padded};
    ghost use Rattle.std.proofs.Common.{arith, sym, length-take-le};

    ghost Value = { List T };

    ghost view = { λ r. take r.count r.places };

    ghost invariant = { λ r. (r.count ≤ N) × (length r.places ≡ N) × (r.places ≡ padded N T.blank (take r.count r.places)) };

    ghost inverse = { λ items. record { count = length items; places = padded N T.blank items } };

    ghost inverse_ok = { λ r h i. record {
      count = length-take-le r.count r.places (omega (arith, h.0, h.1)) i;
      places = sym h.2 i;
    } };
}

// By hand: a derived clone would clone place by place, and a clone of a blank place need not be blank.
impl<T: Blank, const N: usize> Clone for Row<T, N> {
    ghost is_clone = { λ row copy. copy ≡ row };

    ghost is_infallible = { λ row. ⊤ };

    fn clone(&self) -> Result<Self, AllocError> {
        Ok(*self)
    }
}

// Rows with the same items are one.
impl<T: Blank + PartialEq, const N: usize> PartialEq for Row<T, N> {
    ghost eq = { λ row other. pointwise T.eq row other };

    ghost laws = { lists_per T.PartialEq.laws };

    fn eq(&self, other: &Self) -> bool {
        self.items() == other.items()
    }
}

impl<T: Blank, const N: usize> Row<T, N> {
    // A row of no items.
    pub fn new() -> Self
        ensures { result ≡ [] }
    {
        Row {
            count: 0,
            places: [T::blank(); N],
        }
    }

    // The items.
    pub fn items(&self) -> &[T]
        ensures items { result.now ≡ self.now }
        ensures few { length self.now ≤ N }
    {
        &self.places[..self.count]
    }

    // One item more, behind those that it has.
    pub fn push(&mut self, item: T)
        requires { length self.old < N }
        ensures { self.new ≡ self.old ++ item ∷ [] }
    {
        self.places[self.count] = item;
        self.count += 1;
    }

    // These items, behind those that it has.
    pub fn extend(&mut self, items: &[T])
        requires { length self.old + length items.now ≤ N }
        ensures { self.new ≡ self.old ++ items.now }
    {
        for item in items {
            self.push(*item);
        }
    }
    // The item in place of the one that stands at `at`.
    pub fn set(&mut self, at: usize, item: T)
        requires { at < length self.old }
        ensures { self.new ≡ set self.old at item }
    {
        let items = &mut self.places[..self.count];
        items[at] = item;
    }

    // One item more, before the one that stands at `at`.
    pub fn insert(&mut self, at: usize, item: T)
        requires { (length self.old < N) × (at ≤ length self.old) }
        ensures { self.new ≡ insert self.old at item }
    {
        let items = self.items();
        let mut more = Row::new();
        more.extend(&items[..at]);
        more.push(item);
        more.extend(&items[at..]);
        *self = more;
    }

    // All items but the one that stands at `at`.
    pub fn remove(&mut self, at: usize)
        requires { at < length self.old }
        ensures { self.new ≡ remove self.old at }
    {
        let items = self.items();
        let mut fewer = Row::new();
        fewer.extend(&items[..at]);
        fewer.extend(&items[at + 1..]);
        *self = fewer;
    }
}

//! Enums and structs of one's own: as keys or values, as errors, and around a map.
#![tactic(auto, using(micromap::proofs::Rules::calls))]

ghost use Rattle.std.specs.Prelude.{◌≡◌, ◌↔◌, ◌+◌, ◌<◌, ◌==◌, ◌^◌, [], Err, IfOk, IfSome, IsFalse, IsOk, IsTrue, None, OnErr, OnOk, Option, Some, drop, fold, if◌then◌else◌, nat_eq, nat_lt, unwrap_or, ℕ};
ghost use Rattle.std.proofs.Common.{rules};
ghost use Rattle.std.proofs.lemmas.Cmp.{nat_eq_equiv};
ghost use Rattle.std.specs.Bool.{OnTrue};
ghost use Rattle.std.specs.Cmp.Rules.{comparing};
ghost use Rattle.std.specs.List.{list_any, zip};
ghost use Rattle.std.specs.Map.{lookup, values_of};
ghost use Rattle.std.specs.Option.{option_and_then, option_eq, option_map_or};
ghost use Rattle.std.specs.Ordering.{on};
ghost use Rattle.micromap.specs.Clones.{copies_are_equal};
ghost use Rattle.micromap.specs.Pairs.{at, fits, has, put, put_if_fits};
ghost use Rattle.micromap.specs.Probe.{alike, equal};
ghost use Rattle.micromap.specs.Same.{Same};
ghost use Rattle.micromap_uses.specs.Permissions.{permission_eq};
ghost use Rattle.micromap_uses.specs.contracts.own_types.AccountEq.TheImpl.Laws.{laws-law};

use micromap::{EqualClone, Map, Probe, TextBuf};
use std::alloc::AllocError;
use std::marker::Model;

/// A square of a board.
#[derive(Debug, Clone, Copy, PartialEq, Eq)]
pub struct Square {
    /// Its row.
    pub row: u8,
    /// Its column.
    pub column: u8,
}

/// Puts a value at a key that is a struct, as a piece on a board, if it fits.
/// It returns whether it fits.
pub fn place(board: &mut Map<Square, char, 64>, square: Square, piece: char) -> bool
    ensures answer { result ≡ fits ⟦<Square as PartialEq>⟧.eq 64 board.old square }
    ensures board { board.new ≡ put_if_fits ⟦<Square as PartialEq>⟧.eq 64 board.old square piece }
{
    board.put(square, piece)
}

// Adds the time of a leg, if it is stored and the sum fits.
fn add_leg(sum: Option<u32>, times: &Map<(u8, u8), u32, 16>, from: u8, to: u8) -> Option<u32>
    ensures { result ≡ option_and_then (λ s. option_and_then (λ n. if nat_lt (s + n) (2 ^ 32) then Some (s + n) else None) (at ⟦<(u8, u8) as PartialEq>⟧.eq times.now (from, to))) sum }
{
    let so_far = sum?;
    so_far.checked_add(*times.get(&(from, to))?)
}

/// Adds up what a map has at keys that are tuples, for each stop of a list and the next.
/// It returns `None` if such a key is missing or the sum doesn't fit. A function looks the key up, since a `fold` whose
/// turn does it by a derived `==` isn't found.
pub fn time_of(times: &Map<(u8, u8), u32, 16>, stops: &[u8]) -> Option<u32>
    ensures { result ≡ fold
        (λ (sum : Option ℕ) leg. option_and_then (λ s. option_and_then (λ n. if nat_lt (s + n) (2 ^ 32) then Some (s + n) else None) (at ⟦<(u8, u8) as PartialEq>⟧.eq times.now (leg.0, leg.1))) sum)
        (Some 0) (zip stops.now (drop 1 stops.now)) }
{
    stops.iter().zip(stops.iter().skip(1)).fold(
        Some(0),
        |sum: Option<u32>, (from, to)| add_leg(sum, times, *from, *to),
    )
}

/// Changes one field of the struct at a key.
/// It returns whether the key is stored. The field of all structs is changed by
/// `places.update_all(|_, square| square.row = row)`, which makes `map (λ p. (p.0, record (p.1) { row = row })) places.old`.
pub fn set_row(places: &mut Map<u8, Square, 16>, key: u8, row: u8) -> bool
    ensures answer { result ≡ has nat_eq places.old key }
    ensures places { places.new ≡ option_map_or (λ s. put nat_eq places.old key (record s { row = row })) (at nat_eq places.old key) places.old }
{
    match places.get_mut(&key) {
        Some(square) => {
            square.row = row;
            true
        }
        None => false,
    }
}

/// Compares two maps whose values are structs.
/// If it returns `true`, each key finds equal structs in both maps, or none. Equal structs need not be the same value, so
/// the clause compares them.
pub fn find_equal_places(one: &Map<u8, Square, 16>, other: &Map<u8, Square, 16>) -> bool
    ensures same { IsTrue result ↔ Same nat_eq ⟦<Square as PartialEq>⟧.eq one.now other.now }
    ensures keys { OnTrue result ((k : _) → IsTrue (option_eq ⟦<Square as PartialEq>⟧.eq (at nat_eq one.now k) (at nat_eq other.now k))) }
{
    one.eq_with(other)
}

/// What a user may do.
#[derive(Debug, Clone, Copy, PartialEq, Eq)]
pub enum Permission {
    /// To read.
    Read,
    /// To change what is there.
    Write,
}

/// Returns whether a certain value of an enum is stored.
/// The contract names the derived `==` by a word of one's own, `permission_eq`. The search doesn't find it by
/// `⟦<Permission as PartialEq>⟧.eq`.
pub fn is_held(holders: &Map<u8, Permission, 16>, permission: Permission) -> bool
    ensures { result ≡ list_any (λ held. permission_eq held permission) (values_of holders.now) }
{
    holders.values().any(|held| *held == permission)
}

/// Finds a key with a certain value of an enum.
/// Then `get` finds this value at the key. The contract says nothing of `None`. The laws of the derived `==` are in
/// the line `tactic`.
#[tactic(auto, using(micromap::proofs::Rules::calls, crate::proofs::PermissionLaws::lawful_permission))]
pub fn user_with(holders: &Map<u8, Permission, 16>, permission: Permission) -> Option<u8>
    ensures { IfSome result (λ user. at nat_eq holders.now user ≡ Some permission) }
{
    for (user, held) in holders {
        if *held == permission {
            return Some(*user);
        }
    }
    None
}

/// A course.
#[derive(Debug, Clone, Copy, PartialEq, Eq)]
pub enum Course {
    /// In the morning.
    Morning,
    /// In the evening.
    Evening,
}

/// Why nobody is enrolled.
#[derive(Debug, Clone, Copy, PartialEq, Eq)]
pub enum Refusal {
    /// The course has somebody already.
    Taken,
    /// There is no room for another course.
    Full,
}

/// Inserts only if the key is new, or says by an error of one's own why not.
/// The key is an enum. After an error nothing has changed.
pub fn enrol(places: &mut Map<Course, u16, 8>, course: Course, student: u16) -> Result<(), Refusal>
    ensures taken { IsTrue (has ⟦<Course as PartialEq>⟧.eq places.old course) → result ≡ Err Refusal.Taken }
    ensures full { IsFalse (fits ⟦<Course as PartialEq>⟧.eq 8 places.old course) → result ≡ Err Refusal.Full }
    ensures accepted { IsFalse (has ⟦<Course as PartialEq>⟧.eq places.old course) → IsTrue (fits ⟦<Course as PartialEq>⟧.eq 8 places.old course) → IsOk result }
    ensures enrolled { OnOk result (places.new ≡ put ⟦<Course as PartialEq>⟧.eq places.old course student) }
    ensures unchanged { OnErr result (places.new ≡ places.old) }
{
    if places.contains_key(&course) {
        return Err(Refusal::Taken);
    }
    if !places.put(course, student) {
        return Err(Refusal::Full);
    }
    Ok(())
}

/// A guest. Two guests are equal by `==` if their numbers are, whatever their tables.
#[derive(Debug, Clone, Copy)]
pub struct Guest {
    /// The number by which `==` compares.
    pub number: u8,
    /// The table, which `==` doesn't read.
    pub table: char,
}

impl PartialEq for Guest {
    ghost eq = { on (λ k. k.number) nat_eq };

    ghost laws = { Prim.search (comparing, rules) };

    fn eq(&self, other: &Guest) -> bool {
        self.number == other.number
    }
}

impl Eq for Guest {
    ghost laws = { Prim.search (comparing, rules) };
}

/// Puts a value at a key with an `==` of one's own, which reads one field.
/// The type says its `==` and proves the laws of it. The contract says what `b` finds then.
pub fn put_guest(map: &mut Map<Guest, u8, 8>, a: Guest, value: u8, b: &Guest) -> Option<u8>
    requires { IsTrue (fits (on (λ k. k.number) nat_eq) 8 map.old a) }
    ensures { result ≡ (if nat_eq a.number b.now.number then Some value else at (on (λ k. k.number) nat_eq) map.old b.now) }
{
    map.insert(a, value);
    map.get(b).copied()
}

/// Matches the guest with this number.
#[derive(Clone, Copy)]
pub struct Number(pub u8);

impl Probe<Guest> for Number {
    ghost matches = { λ p k. p.0 == k.number };

    ghost equal_keys_match_alike = { λ p x y. alike nat_eq_equiv p.0 x.number y.number };

    ghost matching_keys_are_equal = { λ p x y. equal nat_eq_equiv p.0 x.number y.number };

    fn matches(&self, key: &Guest) -> bool {
        self.0 == key.number
    }
}

/// Finds a value by a probe of one's own, which is no key.
/// The type says what it matches, and proves its two laws.
pub fn value_at(map: &Map<Guest, u8, 8>, number: u8) -> Option<u8>
    ensures { result ≡ lookup (λ k. number == k.number) map.now }
{
    map.get_by(&Number(number)).copied()
}

/// How many pieces of each article a store has: a struct around a map.
/// A contract sees it as the list of the map's pairs, by its `impl Model`.
#[derive(Drop)]
pub struct Stock {
    pieces: Map<u32, u32, 16>,
}

impl Model for Stock {
    ghost use Rattle.std.specs.Prelude.{List, ℕ};

    ghost Value = { List (ℕ × ℕ) };

    ghost view = { λ stock. stock.pieces };
}

impl Stock {
    /// Creates an empty stock.
    pub fn new() -> Self
        ensures { result ≡ [] }
    {
        Stock { pieces: Map::new() }
    }

    /// Returns the number of pieces of an article.
    pub fn pieces(&self, article: u32) -> u32
        ensures { result ≡ unwrap_or (at nat_eq self.now article) 0 }
    {
        self.pieces.get_or(&article, 0)
    }

    // Sets the number of pieces of an article, and returns whether there was room for it.
    fn set(&mut self, article: u32, pieces: u32) -> bool
        ensures answer { result ≡ fits nat_eq 16 self.old article }
        ensures stock { self.new ≡ put_if_fits nat_eq 16 self.old article pieces }
    {
        self.pieces.put(article, pieces)
    }

    /// Adds pieces of an article, and returns how many there are then: none, if there is no room for the article.
    pub fn deliver(&mut self, article: u32, pieces: u32) -> u32
        requires { unwrap_or (at nat_eq self.old article) 0 + pieces < 2 ^ 32 }
        ensures answer { result ≡ (if fits nat_eq 16 self.old article then unwrap_or (at nat_eq self.old article) 0 + pieces else 0) }
        ensures stock { self.new ≡ put_if_fits nat_eq 16 self.old article (unwrap_or (at nat_eq self.old article) 0 + pieces) }
    {
        let sum = self.pieces(article) + pieces;
        self.set(article, sum);
        self.pieces(article)
    }
}

/// An account of a bank: a key that isn't `Copy`, since it has a text of its own.
#[derive(PartialEq, Eq, Drop)]
pub struct Account {
    /// The number of the bank.
    pub bank: u16,
    /// The name of the holder.
    pub holder: TextBuf,
}

/// A clone of an account is the same value.
impl EqualClone for Account {
    ghost is_equal_clone = { λ key new. new ≡ key };

    ghost never_fails = { λ _. ⊥ };

    ghost clones_are_equal = { copies_are_equal laws-law };

    fn equal_clone(&self) -> Result<Account, AllocError> {
        let holder = self.holder.clone()?;
        Ok(Account {
            bank: self.bank,
            holder,
        })
    }
}

/// Clones a map whose keys are of a type of one's own that isn't `Copy`, by the trait `Clone`.
/// The type says by `EqualClone` what a clone of a key is. With it a map of such maps can be cloned too.
pub fn cloned_rates(rates: &Map<Account, u32, 16>) -> Result<Map<Account, u32, 16>, AllocError>
    ensures { IfOk result (λ m. m ≡ rates.now) }
{
    Clone::clone(rates)
}

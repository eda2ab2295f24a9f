// Pages in memory under their numbers, each found in one step.
ghost use Rattle.std.specs.Prelude.{◌≡◌, ◌↔◌, ◌<◌, ◌++◌, ◌∷◌, [], ℕ, List, Some, None, nat_eq, length, take, slice_get, slice_index_or, vec_len, OnOk, OnErr, IsTrue};
ghost use Rattle.std.specs.Option.{option_copied};
ghost use Rattle.std.specs.List.{All, IsDistinct};
ghost use Rattle.std.specs.Borrow.{sem};
ghost use Rattle.std.specs.Map.{keys_of, lookup};
ghost use Rattle.dirty_pages.specs.Table.{IsIndexed, IsPlace, AreRising, Pops, unboxed, with_page};

use mdc_values::Memory;
use std::alloc::Global;
use std::marker::Model;
use std::mem;
use store_api::Page;

/// Pages under their numbers, in the order in which they came. No number comes twice.
#[derive(Debug, Drop)]
pub struct PageTable {
    alloc: Global,
    // Where the page of each number lies among the pages, if it is there: else any place, or none.
    places: Vec<usize>,
    pages: Vec<(u32, Box<Page>)>,
}

impl Model for PageTable {
    ghost use Rattle.dirty_pages.specs.Table.{Numbered, unboxed, IsIndexed};

    ghost Value = { Numbered };

    ghost view = { λ it. unboxed it.pages.items };

    ghost invariant = { λ it. IsIndexed it.places.items (unboxed it.pages.items) };
}

impl PageTable {
    ghost use Rattle.dirty_pages.specs.Lent.{LendsAt};

    /// No pages. It takes no memory.
    pub fn new(alloc: Global) -> PageTable
        ensures { result ≡ [] }
    {
        PageTable {
            alloc,
            places: Vec::new(alloc),
            pages: Vec::new(alloc),
        }
    }

    /// How many pages there are.
    pub fn len(&self) -> usize
        ensures { result ≡ length self.now }
    {
        self.pages.len()
    }

    /// Where the page of a number lies among the pages, counted from 0.
    pub fn place_of(&self, p: u32) -> Option<usize>
        ensures { IsPlace self.now p result }
    {
        let place = *self.places.get(p as usize)?;
        let (number, _) = self.pages.get(place)?;
        if *number == p { Some(place) } else { None }
    }

    /// Lends the page of a number.
    pub fn get(&self, p: u32) -> Option<&Page>
        ensures { option_copied result ≡ lookup (nat_eq p) self.now }
    {
        let place = self.place_of(p)?;
        Some(self.at(place))
    }

    /// Lends the page at a place.
    pub fn at(&self, place: usize) -> &Page
        requires { place < length self.now }
        ensures { (d : ℕ × List ℕ) → (slice_index_or self.now place d).1 ≡ result.now }
    {
        let (_, page) = &self.pages[place];
        page
    }

    /// Puts a page last whose number isn't here. After `Memory` the pages are as before.
    pub fn push(&mut self, p: u32, page: Box<Page>) -> Result<(), Memory>
        requires { lookup (nat_eq p) self.old ≡ None }
        ensures ok { OnOk result (self.new ≡ self.old ++ (p, page.value) ∷ []) }
        ensures err { OnErr result (self.new ≡ self.old) }
    {
        let at = p as usize;
        reach(&mut self.places, at)?;
        self.pages.push((p, page))?;
        self.places[at] = self.pages.len() - 1;
        Ok(())
    }

    /// Puts a page in the place of another, under its number, and gives that one back.
    pub fn exchange(&mut self, place: usize, page: Box<Page>) -> Box<Page>
        requires { place < length self.old }
        ensures new { self.new ≡ with_page self.old place page.value }
        ensures old { (d : ℕ × List ℕ) → (slice_index_or self.old place d).1 ≡ result.value }
    {
        mem::replace(&mut self.pages[place].1, page)
    }

    /// Exchanges a page for a page of another table. Each comes under the number of the other.
    pub fn swap(&mut self, place: usize, other: &mut PageTable, other_place: usize)
        requires here { place < length self.old }
        requires there { other_place < length other.old }
        ensures here { (d : ℕ × List ℕ) → self.new ≡ with_page self.old place (slice_index_or other.old other_place d).1 }
        ensures there { (d : ℕ × List ℕ) → other.new ≡ with_page other.old other_place (slice_index_or self.old place d).1 }
    {
        mem::swap(&mut self.pages[place].1, &mut other.pages[other_place].1);
    }

    /// Takes the last page away.
    pub fn pop(&mut self) -> Option<(u32, Box<Page>)>
        ensures { Pops self.old result self.new }
    {
        self.pages.pop()
    }

    /// Lends the page at a place, to be changed.
    pub fn at_mut(&mut self, place: usize) -> &mut Page
        requires { place < length self.old }
        ensures* lends { sem 𝓛 (LendsAt self.entry place result) }
        ensures page { (d : ℕ × List ℕ) → (slice_index_or self.old place d).1 ≡ result.now }
    {
        let (_, page) = &mut self.pages[place];
        &mut **page
    }

    /// Puts the pages in the order of their numbers. After `Memory` they are as before.
    pub fn sort(&mut self) -> Result<(), Memory>
        ensures rising { OnOk result (AreRising self.new) }
        ensures same { (p : ℕ) → lookup (nat_eq p) self.new ≡ lookup (nat_eq p) self.old }
        ensures len { length self.new ≡ length self.old }
        ensures err { OnErr result (self.new ≡ self.old) }
    {
        if self.is_rising() {
            return Ok(());
        }
        self.pages.sort_by_key(|(number, _)| *number)?;
        index(&mut self.places, &self.pages);
        Ok(())
    }

    // Whether the pages are in the order of their numbers.
    fn is_rising(&self) -> bool
        ensures { IsTrue result ↔ AreRising self.now }
    {
        for i in 1..self.pages.len() {
            if self.pages[i - 1].0 >= self.pages[i].0 {
                return false;
            }
        }
        true
    }

    /// Leaves the first so many pages.
    pub fn truncate(&mut self, n: usize)
        ensures { self.new ≡ take n self.old }
    {
        self.pages.truncate(n);
    }

    /// Lends the pages in their boxes.
    pub fn pages(&self) -> &[(u32, Box<Page>)]
        ensures { unboxed result.now ≡ self.now }
    {
        &self.pages
    }

    /// Gives all pages away.
    pub fn take(&mut self) -> Vec<(u32, Box<Page>)>
        ensures given { unboxed result.items ≡ self.old }
        ensures left { self.new ≡ [] }
    {
        mem::replace(&mut self.pages, Vec::new(self.alloc))
    }
}

// Writes the place of each page.
fn index(places: &mut Vec<usize>, pages: &[(u32, Box<Page>)])
    requires distinct { IsDistinct nat_eq (keys_of (unboxed pages.now)) }
    requires within { All (λ page. page.0 < vec_len places.old) pages.now }
    ensures { IsIndexed places.new.items (unboxed pages.now) }
{
    for i in 0..pages.len() {
        places[pages[i].0 as usize] = i;
    }
}

// Sees to it that there is a place for this number.
fn reach(places: &mut Vec<usize>, at: usize) -> Result<(), Memory>
    requires { at < 4294967296 }
    ensures reached { OnOk result (at < vec_len places.new) }
    ensures kept { (q i : ℕ) → slice_get places.old.items q ≡ Some i → slice_get places.new.items q ≡ Some i }
{
    if places.len() <= at {
        places.resize(at + 1, 0)?;
    }
    Ok(())
}

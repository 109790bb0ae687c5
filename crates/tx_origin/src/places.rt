// Places that are given from another path.
ghost use Rattle.std.specs.Prelude.{◌≡◌, length, IfOk, MatchOption, None, Some, option_copied, slice_get};
ghost use Rattle.tx_origin.specs.RelativePlaces.{path_below};

use crate::base::Base;
use crate::paths::Ip;
use std::alloc::Global;
use std::marker::Model;
use tx_base::Memory;
use tx_tree::{Path, Place};

/// An origin, and an offset in what is there. Contracts see it as a place whose path begins where another path ends, as
/// that of a part of the document.
#[derive(Drop)]
pub struct At {
    origin: Ip,
    offset: u32,
}

impl Model for At {
    ghost use Rattle.tx_origin.specs.RelativePlaces.{RelativePlace, coded_RelativePlace};

    ghost Value = { RelativePlace };

    ghost coded = { coded_RelativePlace };

    ghost view = { λ a. record { origin = a.origin; offset = a.offset } };
}

impl At {
    /// The place at this origin with this offset.
    pub fn new(origin: Ip, offset: u32) -> At
        ensures origin { result.origin ≡ origin }
        ensures offset { result.offset ≡ offset }
    {
        At { origin, offset }
    }

    /// The origin.
    pub fn origin(&self) -> &Ip
        ensures { result.now ≡ self.now.origin }
    {
        &self.origin
    }

    /// How many numbers the origin has.
    pub fn len(&self) -> usize
        ensures { result ≡ length self.now.origin }
    {
        self.origin.len()
    }

    /// The number of the origin at `i`, counted from 0 at the root, or None at or past its length.
    pub fn step(&self, i: usize) -> Option<u32>
        ensures { result ≡ slice_get self.now.origin i }
    {
        self.origin.step(i)
    }

    /// The offset.
    pub fn offset(&self) -> u32
        ensures { result ≡ self.now.offset }
    {
        self.offset
    }

    /// The place as a `Place` of its own, whose path is the origin.
    pub fn place(&self, alloc: Global) -> Result<Place, Memory>
        ensures path { IfOk result (λ p. p.path ≡ self.now.origin) }
        ensures offset { IfOk result (λ p. p.offset ≡ self.now.offset) }
    {
        Ok(Place {
            path: self.origin.path(alloc)?,
            offset: self.offset,
        })
    }
}

/// A path, an origin below it or none, and an offset. Contracts see what it was made of. The place has the path with
/// the origin appended.
#[derive(Drop)]
pub struct Spot<'a> {
    base: Base<'a>,
    origin: Option<&'a Ip>,
    offset: u32,
}

impl<'a> Model for Spot<'a> {
    ghost use Rattle.std.specs.Prelude.{option_copied};
    ghost use Rattle.tx_origin.specs.RelativePlaces.{BasedPlace, coded_BasedPlace};

    ghost Value = { BasedPlace };

    ghost coded = { coded_BasedPlace };

    ghost view = { λ s. record { base = s.base; origin = option_copied s.origin; offset = s.offset } };
}

impl<'a> Spot<'a> {
    /// The place below this path at this origin, or at the path's end without one, with this offset.
    pub fn new(base: &'a Path, at: Option<&'a Ip>, offset: u32) -> Spot<'a>
        ensures base { result.base ≡ base.now }
        ensures origin { result.origin ≡ option_copied at.entry }
        ensures offset { result.offset ≡ offset }
    {
        Spot::behind(Base::new(base), at, offset)
    }

    /// Such a place, where the path is lent in two pieces.
    pub fn behind(base: Base<'a>, at: Option<&'a Ip>, offset: u32) -> Spot<'a>
        ensures base { result.base ≡ base.entry }
        ensures origin { result.origin ≡ option_copied at.entry }
        ensures offset { result.offset ≡ offset }
    {
        Spot {
            base,
            origin: at,
            offset,
        }
    }

    /// The path.
    pub fn base(&self) -> &Base<'a>
        ensures { result.now ≡ self.now.base }
    {
        &self.base
    }

    /// The origin below the path, or None where the spot was made without one.
    pub fn origin(&self) -> Option<&Ip>
        ensures { MatchOption result (self.now.origin ≡ None) (λ p. self.now.origin ≡ Some p.now) }
    {
        self.origin
    }

    /// The offset.
    pub fn offset(&self) -> u32
        ensures { result ≡ self.now.offset }
    {
        self.offset
    }

    /// The place as a `Place` of its own, whose path is the path with the origin appended.
    pub fn place(&self, alloc: Global) -> Result<Place, Memory>
        ensures path { IfOk result (λ p. p.path ≡ path_below self.now.base self.now.origin) }
        ensures offset { IfOk result (λ p. p.offset ≡ self.now.offset) }
    {
        let mut path = self.base.path(alloc)?;
        if let Some(origin) = self.origin {
            origin.add_to(&mut path)?;
        }
        Ok(Place {
            path,
            offset: self.offset,
        })
    }
}

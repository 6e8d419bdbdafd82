//! The listings of a folder that are remembered during one build.
ghost use Rattle.std.specs.Prelude.{◌≡◌, IfErr, IfOk, IfSome};
ghost use Rattle.std.specs.List.Sorted.{IsStrictlySortedBy, IsStrictlySortedBy-prop};
ghost use Rattle.gb_core.specs.Lists.{byte_order};
ghost use Rattle.gb_disk.specs.Disk.{AllUnder, IsOfListing};

use crate::device::Device;
use crate::trail::Trail;
use gb_core::place::Place;
use gb_folder::folder::FolderFault;
use gb_folder::own::is_own;
use std::alloc::{AllocError, Global};
use std::fs::Files;

/// The maximum number of listings.
const MOST: usize = 32;

/// A listing of no more places is small.
const FEW: usize = 16;

/// The maximum number of listings that are not small.
const MOST_LARGE: usize = 8;

/// A listing of more places is not remembered.
const MOST_PLACES: usize = 65_536;

/// The places of the files under a root, in byte order, as they were when it was listed.
#[derive(Drop)]
struct Listing {
    root: Place,
    places: Vec<Place>,
    ghost under: { AllUnder root places.items },
    ghost ordered: { IsStrictlySortedBy byte_order places.items } by { IsStrictlySortedBy-prop _ _ },
}

/// The listings that were asked for last.
#[derive(Drop)]
pub(crate) struct Listings {
    /// Each has another root; the one asked for last is at the end.
    kept: Vec<Listing>,
}

/// Whether it has too many places to be small.
fn is_large(listing: &Listing) -> bool {
    listing.places.len() > FEW
}

/// Equal places in the same order.
fn copies(alloc: Global, places: &[Place]) -> Result<Vec<Place>, AllocError>
    ensures { IfOk result (λ made. made.items ≡ places.now) }
{
    let mut made = Vec::with_capacity(alloc, places.len())?;
    for place in places {
        made.push(place.copy()?)?;
    }
    Ok(made)
}

impl Listings {
    /// Nothing listed yet.
    pub fn new(alloc: Global) -> Listings {
        Listings {
            kept: Vec::new(alloc),
        }
    }

    /// The places of the files at or under the root, in byte order, as they are or as they are
    /// remembered. After a remembered listing no file counts as listed by the preceding call: none
    /// was looked up now.
    pub fn list<R: Files>(
        &mut self,
        alloc: Global,
        device: &Device<R>,
        trail: &mut Trail,
        root: &Place,
    ) -> Result<Vec<Place>, FolderFault>
        ensures under { IfOk result (λ places. AllUnder root.now places.items) }
        ensures ordered { IfOk result (λ places. IsStrictlySortedBy byte_order places.items) }
        ensures err { IfErr result IsOfListing }
    {
        if let Some(places) = self.find(alloc, root)? {
            trail.forget_listed();
            return Ok(places);
        }
        let places = device.list(alloc, trail, root)?;
        self.remember(root, places.as_slice());
        Ok(places)
    }

    /// The places that a root was listed with, if that is remembered.
    fn find(&mut self, alloc: Global, root: &Place) -> Result<Option<Vec<Place>>, AllocError>
        ensures under { IfOk result
            (λ found. IfSome found (λ places. AllUnder root.now places.items)) }
        ensures ordered { IfOk result
            (λ found. IfSome found (λ places. IsStrictlySortedBy byte_order places.items)) }
    {
        self.put_last(root);
        match self.kept.last() {
            Some(listing) if listing.root == *root => {
                Ok(Some(copies(alloc, listing.places.as_slice())?))
            }
            _ => Ok(None),
        }
    }

    /// Makes the listing of a root the one asked for last, if it is remembered.
    fn put_last(&mut self, root: &Place) {
        let found = self.kept.iter().position(|listing| listing.root == *root);
        if let Some(at) = found {
            self.kept.slice_mut(at..).rotate_left(1);
        }
    }

    /// Remembers a listing of a root, unless it is too large or memory runs out.
    fn remember(&mut self, root: &Place, places: &[Place])
        requires under { AllUnder root.now places.now }
        requires ordered { IsStrictlySortedBy byte_order places.now }
    {
        if places.len() <= MOST_PLACES {
            let _ = self.keep(root, places);
        }
    }

    /// Adds a listing. Another is dropped if there are too many.
    fn keep(&mut self, root: &Place, places: &[Place]) -> Result<(), AllocError>
        requires under { AllUnder root.now places.now }
        requires ordered { IsStrictlySortedBy byte_order places.now }
    {
        let listing = Listing {
            root: root.copy()?,
            places: copies(*self.kept.allocator(), places)?,
        };
        self.make_room(places.len());
        Ok(self.kept.push(listing)?)
    }

    /// Drops the listing asked for longest ago if there are too many for one more with so many
    /// places, or the one among those that are not small.
    fn make_room(&mut self, size: usize) {
        let large = self.kept.iter().filter(|listing| is_large(listing)).count();
        if size > FEW && large >= MOST_LARGE {
            self.drop_large();
        }
        if self.kept.len() >= MOST {
            self.kept.remove(0);
        }
    }

    /// Drops the listing asked for longest ago of those that are not small.
    fn drop_large(&mut self) {
        if let Some(at) = self.kept.iter().position(is_large) {
            self.kept.remove(at);
        }
    }

    /// Forgets each listing that a change at the place may change: its root is the place, is under
    /// it, or has it under it, or is in the tool's own folder, where new files are written first.
    pub fn forget_at(&mut self, place: &Place) {
        self.kept.retain(|listing| !listing.root.overlaps(place) && !is_own(&listing.root));
    }

    /// Forgets all listings.
    pub fn forget(&mut self) {
        self.kept.clear();
    }
}

//! The digests of files, by place.
//!
//! They are in a map keyed by the texts of their places, in byte order. So what is at or under an
//! output's place is found by one look-up and one range of the map.
ghost use Rattle.std.specs.Prelude.{◌≡◌, ◌++◌, ◌∷◌, [], IsTrue, IfOk, OnOk, OnErr, map};
ghost use Rattle.std.specs.Prelude.{unwrap_or};
ghost use Rattle.std.specs.FinMap.Entries.{is_sorted};
ghost use Rattle.sha2.specs.Sha256.{sha256};
ghost use Rattle.gb_core.specs.Lists.{byte_order};
ghost use Rattle.gb_core.specs.Place.{is_place};
ghost use Rattle.gb_folder.specs.Files.{Files, are_placed, files_under, with_file, with_left, without};
ghost use Rattle.gb_tree.specs.Prints.{digests_of};
ghost use Rattle.gb_tree.specs.Tree.{files_from, path_from};
ghost use Rattle.gb_run.specs.Digests.{digests_in, prints_at};
ghost use Rattle.gb_run.specs.Steps.{after_steps};

use crate::relative::path_from;
use gb_core::bytes::Bytes;
use gb_core::place::{Place, RelPath};
use gb_folder::own::is_own;
use gb_folder::range::inside;
use gb_lanes::digest_four;
use gb_plan::task::Output;
use gb_tree::prints::Prints;
use sha2::{Digest, Sha256};
use std::alloc::{AllocError, Global};
use std::collections::BTreeMap;
use std::marker::Model;
use std::ops::Range;

/// The digests (SHA-256) of files, by the bytes of their places.
#[derive(Drop)]
pub struct Digests {
    alloc: Global,
    held: BTreeMap<String, [u8; 32]>,
    ghost sorted: { IsTrue (is_sorted byte_order (digests_in held)) },
    ghost placed: { IsTrue (are_placed (digests_in held)) },
}

impl Model for Digests {
    ghost use Rattle.gb_folder.specs.Files.{Files};
    ghost use Rattle.gb_run.specs.Digests.{digests_in};

    ghost Value = { Files };

    ghost view = { λ d. digests_in d.held };
}

impl Digests {
    /// The digests of no file.
    pub fn new(alloc: Global) -> Digests
        ensures { result ≡ [] }
    {
        Digests {
            alloc,
            held: BTreeMap::new(alloc),
        }
    }

    /// Stores the digest of a file. It replaces the one at that place, if there is one.
    pub fn hold(&mut self, place: &Place, digest: [u8; 32]) -> Result<(), AllocError>
        ensures ok { OnOk result (self.new ≡ with_file self.old place.now digest) }
        ensures err { OnErr result (self.new ≡ self.old) }
    {
        hold(self.alloc, &mut self.held, place, digest)
    }

    /// Stores the digest of a file with these bytes.
    pub fn put(&mut self, place: &Place, bytes: &Bytes) -> Result<(), AllocError>
        ensures ok { OnOk result (self.new ≡ with_file self.old place.now (sha256 bytes.now)) }
        ensures files { OnOk result ((files : Files) → self.old ≡ digests_of files
            → self.new ≡ digests_of (with_file files place.now bytes.now)) }
        ensures err { OnErr result (self.new ≡ self.old) }
    {
        self.hold(place, Sha256::digest(bytes.as_slice()))
    }

    /// Follows these steps, one after another: stores the digest of what is written, and drops that
    /// of what is removed. What four steps write is digested together.
    pub fn follow(&mut self, steps: &[(Place, Option<Bytes>)]) -> Result<(), AllocError>
        ensures { OnOk result ((files : Files) → self.old ≡ digests_of files
            → self.new ≡ digests_of (after_steps files steps.now)) }
    {
        let mut rest = steps;
        'fours: while let Some((four, others)) = rest.split_first_chunk::<4>() {
            self.follow_four(four)?;
            rest = others;
        }
        self.follow_each(rest)
    }

    /// Follows four steps.
    fn follow_four(&mut self, four: &[(Place, Option<Bytes>); 4]) -> Result<(), AllocError>
        ensures { OnOk result ((files : Files) → self.old ≡ digests_of files
            → self.new ≡ digests_of (after_steps files four.now)) }
    {
        let [first, second, third, fourth] = four;
        let digests = digest_four(
            written(first),
            written(second),
            written(third),
            written(fourth),
        );
        self.follow_with(first, digests[0])?;
        self.follow_with(second, digests[1])?;
        self.follow_with(third, digests[2])?;
        self.follow_with(fourth, digests[3])
    }

    /// Follows one step, with the digest of what it writes.
    fn follow_with(
        &mut self,
        step: &(Place, Option<Bytes>),
        digest: [u8; 32],
    ) -> Result<(), AllocError>
        requires { digest ≡ sha256 (unwrap_or step.now.1 []) }
        ensures { OnOk result ((files : Files) → self.old ≡ digests_of files
            → self.new ≡ digests_of (with_left files step.now.0 step.now.1)) }
    {
        let (place, left) = step;
        match left {
            Some(bytes) => self.hold_known(place, bytes, digest),
            None => {
                self.remove(place);
                Ok(())
            }
        }
    }

    /// Stores the digest of a file with these bytes.
    fn hold_known(
        &mut self,
        place: &Place,
        bytes: &Bytes,
        digest: [u8; 32],
    ) -> Result<(), AllocError>
        requires { digest ≡ sha256 bytes.now }
        ensures { OnOk result ((files : Files) → self.old ≡ digests_of files
            → self.new ≡ digests_of (with_file files place.now bytes.now)) }
    {
        self.hold(place, digest)
    }

    /// Follows steps one by one.
    fn follow_each(&mut self, steps: &[(Place, Option<Bytes>)]) -> Result<(), AllocError>
        ensures { OnOk result ((files : Files) → self.old ≡ digests_of files
            → self.new ≡ digests_of (after_steps files steps.now)) }
    {
        for step in steps.iter() {
            self.follow_one(step)?;
        }
        Ok(())
    }

    fn follow_one(&mut self, step: &(Place, Option<Bytes>)) -> Result<(), AllocError>
        ensures { OnOk result ((files : Files) → self.old ≡ digests_of files
            → self.new ≡ digests_of (with_left files step.now.0 step.now.1)) }
    {
        match &step.1 {
            Some(bytes) => self.put(&step.0, bytes),
            None => {
                self.remove(&step.0);
                Ok(())
            }
        }
    }

    /// Removes the digest at a place, if there is one.
    pub fn remove(&mut self, place: &Place)
        ensures ok { self.new ≡ without self.old place.now }
        ensures files { (files : Files) → self.old ≡ digests_of files
            → self.new ≡ digests_of (without files place.now) }
    {
        take_out(&mut self.held, place);
    }

    /// The digests at or under the place of each of these outputs, by paths from it. At a place in
    /// the tool's own folder `.gb` there are none.
    pub fn prints(&self, alloc: Global, outputs: &[Output]) -> Result<Vec<Prints>, AllocError>
        ensures named { IfOk result (λ made.
            map (λ prints. prints.0) made.items ≡ map (λ output. output.name) outputs.now) }
        ensures prints { IfOk result (λ made. (files : Files) → self.now ≡ digests_of files
            → made.items ≡ prints_at outputs.now files) }
    {
        let mut made = Vec::new(alloc);
        for output in outputs.iter() {
            made.push(self.prints_of(alloc, output)?)?;
        }
        Ok(made)
    }

    /// The digests at or under the place of one output.
    fn prints_of(&self, alloc: Global, output: &Output) -> Result<Prints, AllocError>
        ensures named { IfOk result (λ prints. prints.0 ≡ output.now.name) }
        ensures prints { IfOk result (λ prints. (files : Files) → self.now ≡ digests_of files
            → prints ≡ (output.now.name, digests_of (files_from files output.now.place))) }
    {
        let found = if is_own(&output.place) {
            Vec::new(alloc)
        } else {
            found_under(alloc, &self.held, &output.place)?
        };
        Ok(Prints::new(output.name.copy()?, found))
    }
}

/// The bytes that a step writes; none if it removes a file.
fn written(step: &(Place, Option<Bytes>)) -> &[u8]
    ensures { result.now ≡ unwrap_or step.now.1 [] }
{
    match &step.1 {
        Some(bytes) => bytes.as_slice(),
        None => &[],
    }
}

/// Stores a digest. If memory runs out, the digests are unchanged.
fn hold(
    alloc: Global,
    held: &mut BTreeMap<String, [u8; 32]>,
    place: &Place,
    digest: [u8; 32],
) -> Result<(), AllocError>
    ensures ok { OnOk result (digests_in held.new ≡ with_file (digests_in held.old) place.now digest) }
    ensures err { OnErr result (digests_in held.new ≡ digests_in held.old) }
    ensures place { IsTrue (is_place place.now) }
{
    let text = place.as_str();
    held.insert(String::from_str(alloc, text)?, digest)?;
    Ok(())
}

/// Removes the digest at a place.
fn take_out(held: &mut BTreeMap<String, [u8; 32]>, place: &Place)
    requires { IsTrue (is_sorted byte_order (digests_in held.old)) }
    ensures { digests_in held.new ≡ without (digests_in held.old) place.now }
{
    held.remove(place.as_str());
}

/// The digests at or under the root, by their paths from it.
fn found_under(
    alloc: Global,
    held: &BTreeMap<String, [u8; 32]>,
    root: &Place,
) -> Result<Vec<(RelPath, [u8; 32])>, AllocError>
    requires sorted { IsTrue (is_sorted byte_order (digests_in held.now)) }
    requires placed { IsTrue (are_placed (digests_in held.now)) }
    ensures found { IfOk result (λ found. found.items
        ≡ map (λ file. (path_from root.now file.0, file.1)) (files_under (digests_in held.now) root.now)) }
    ensures ordered { IfOk result (λ found. IsTrue (is_sorted byte_order found.items)) }
{
    let mut found = Vec::new(alloc);
    if let Some(digest) = held.get(root.as_str()) {
        found.push((path_from(alloc, root.as_str(), root.as_str())?, *digest))?;
    }
    for (text, digest) in held.range(inside(alloc, root)?) {
        found.push((path_from(alloc, root.as_str(), text.as_str())?, *digest))?;
    }
    Ok(found)
}

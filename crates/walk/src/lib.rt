// A walk over the entries of a replica's image: it remembers the lent image and its place in it. Begun on an image that isn't well-formed, it hands out none.
#![tactic(auto)]

ghost use Rattle.std.specs.Prelude.{◌≡◌, ◌-◌, ◌<◌, length, option_map};
ghost use Rattle.std.specs.Iterator.{at_most};
ghost use Rattle.walk.specs.Walks.{end_at, start_at, hand_at, part_at, onward_at, Steps};

use dots::Member;
use fields::{index, u32_at};

// ---- on plain slices and numbers

// The place after the entry at a place; none where no entry stands.
pub fn end_at(s: &[u8], at: usize) -> Option<usize>
    ensures { result ≡ end_at s.now at }
{
    if index(u32_at(s, 16)) <= at {
        return None;
    }
    let end = at + 4 + (4 + 12 * index(u32_at(s, at + 4)));
    if s.len() < end {
        return None;
    }
    Some(end)
}

// The place of the first entry of a well-formed image, and the length of any other bytes, where no entry stands.
pub fn start_at(s: &[u8]) -> usize
    ensures { result ≡ start_at s.now }
{
    match image::check(s) {
        Some(_) => index(u32_at(s, 8)),
        None => s.len(),
    }
}

// The member at a place; none where no entry stands.
pub fn hand_at(s: &[u8], at: usize) -> Option<Member>
    ensures { result ≡ hand_at s.now at }
{
    end_at(s, at).map(|_| Member(u32_at(s, at)))
}

// The part that is the clock of the entry at a place, from its count on; an empty part where no entry stands.
pub fn part_at(s: &[u8], at: usize) -> &[u8]
    ensures { result.now ≡ part_at s.now at }
{
    match end_at(s, at) {
        Some(end) => &s[at + 4..end],
        None => &s[..0],
    }
}

// The place of the next entry, and the same place where none stands.
pub fn onward_at(s: &[u8], at: usize) -> usize
    ensures { result ≡ onward_at s.now at }
{
    end_at(s, at).unwrap_or(at)
}

// ---- the walk

#[derive(Clone, Copy)]
pub struct Walk<'a> {
    img: &'a [u8],
    at: usize,
}

impl<'a> Walk<'a> {
    // A walk at the first entry.
    pub fn begin(img: &'a [u8]) -> Walk<'a>
        ensures { (result.img ≡ img.entry) × (result.at ≡ start_at img.now) }
    {
        let at = start_at(img);
        Walk { img, at }
    }

    // The member of the entry that the walk is at.
    pub fn member(self) -> Option<Member>
        ensures { result ≡ hand_at self.entry.img.now self.entry.at }
    {
        hand_at(self.img, self.at)
    }

    // The part of the image that is its clock.
    pub fn clock(self) -> &'a [u8]
        ensures { result.now ≡ part_at self.entry.img.now self.entry.at }
    {
        part_at(self.img, self.at)
    }

    // The walk at the next entry.
    pub fn next(self) -> Walk<'a>
        ensures { (result.img ≡ self.entry.img) × (result.at ≡ onward_at self.entry.img.now self.entry.at) }
    {
        let at = onward_at(self.img, self.at);
        Walk { img: self.img, at }
    }
}

// The entries that a walk has before it, each with the part of the image that is its clock.
#[derive(Clone, Copy)]
pub struct Entries<'a> {
    walk: Walk<'a>,
}

impl<'a> Iterator for Entries<'a> {
    type Item = (Member, &'a [u8]);

    ghost next_gives = { λ s r t. Steps s.walk.img.now s.walk.at (option_map (λ x. (x.0, x.1.now)) r) t.walk.img.now t.walk.at };

    ghost remaining = { λ s. at_most (length s.walk.img.now - s.walk.at) };

    fn next(&mut self) -> Option<(Member, &'a [u8])> {
        let walk = self.walk;
        let member = walk.member()?;
        self.walk = walk.next();
        Some((member, walk.clock()))
    }
}

impl<'a> IntoIterator for Walk<'a> {
    type Item = (Member, &'a [u8]);

    type IntoIter = Entries<'a>;

    ghost into_iter_gives = { λ walk entries. entries.walk ≡ walk };

    fn into_iter(self) -> Entries<'a> {
        Entries { walk: self }
    }
}

// The first member: from a plain slice through the walk and back.
pub fn first(img: &[u8]) -> Option<Member>
    ensures { result ≡ hand_at img.now (start_at img.now) }
{
    Walk::begin(img).member()
}

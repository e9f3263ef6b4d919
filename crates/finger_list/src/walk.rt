//! The way from one height to another along the links.
ghost use Rattle.std.specs.Prelude.{◌*◌, ◌≤◌};
ghost use Rattle.finger_list.specs.Entries.{Positive};
ghost use Rattle.finger_list.specs.Linking.{Linked, InOrder};
ghost use Rattle.finger_list.specs.Hands.{link_of, Stood};
ghost use Rattle.finger_list.specs.Walking.{NotOver, NotUnder, Climbed, Descended, Arrived};

use crate::entry::Entry;
use crate::finger::Finger;
use heights::height::Height;

// Where a walk has come to, in how many steps, and past how many held heights.
#[derive(Clone, Copy)]
pub(crate) struct Way {
    pub(crate) link: usize,
    pub(crate) steps: usize,
    pub(crate) passed: usize,
}

// The entries of a list, along whose links a walk goes, and how many of them hold a height.
#[derive(Drop)]
pub(crate) struct Links<'a, H> {
    pub(crate) entries: &'a [Entry<H>],
    pub(crate) used: usize,
    ghost linked: { Linked entries.now used },
}

impl<H: Height> Links<'_, H> {
    // Goes up from a link to the last entry that is not higher than the height. It looks at the entry above and `descend` at the
    // entry that it stands at, so each has a loop of its own; the steps that bound it are part of the way that it returns.
    fn climb(&self, from: usize, height: H) -> Way
        requires within { from ≤ self.now.used }
        ensures inside { result.link ≤ self.now.used }
        ensures few { result.steps ≤ self.now.used }
        ensures light { result.passed ≤ self.now.used * 1048576 }
        ensures walked { InOrder H.Height.not_higher self.now.entries.now self.now.used → NotOver H.Height.not_higher self.now.entries.now from height → Climbed H.Height.not_higher self.now.entries.now self.now.used from height result }
    {
        let mut way = Way {
            link: from,
            steps: 0,
            passed: 0,
        };
        for steps in 0..self.used {
            let next = self.entries[way.link].next;
            let above = self.entries[next];
            if next == 0 || !above.height.is_not_higher(height) {
                return way;
            }
            way.link = next;
            way.steps = steps + 1;
            way.passed += above.number as usize;
        }
        way
    }

    // Goes down from a link to the last entry that is not higher than the height.
    fn descend(&self, from: usize, height: H) -> Way
        requires within { from ≤ self.now.used }
        ensures inside { result.link ≤ self.now.used }
        ensures few { result.steps ≤ self.now.used }
        ensures light { result.passed ≤ self.now.used * 1048576 }
        ensures walked { InOrder H.Height.not_higher self.now.entries.now self.now.used → NotUnder H.Height.not_higher self.now.entries.now self.now.used from height → Descended H.Height.not_higher self.now.entries.now self.now.used from height result }
    {
        let mut way = Way {
            link: from,
            steps: 0,
            passed: 0,
        };
        for steps in 0..self.used {
            let here = self.entries[way.link];
            if way.link == 0 || here.height.is_not_higher(height) {
                return way;
            }
            way.link = here.prev;
            way.steps = steps + 1;
            way.passed += here.number as usize;
        }
        way
    }

    // Goes from a finger, or up from the end of the list, to where a height stands.
    pub(crate) fn walk(&self, from: Option<Finger<H>>, height: H) -> Way
        requires within { link_of from ≤ self.now.used }
        ensures inside { result.link ≤ self.now.used }
        ensures few { result.steps ≤ self.now.used }
        ensures light { result.passed ≤ self.now.used * 1048576 }
        ensures walked { InOrder H.Height.not_higher self.now.entries.now self.now.used → Positive self.now.entries.now self.now.used → Stood H.Height.not_higher self.now.entries.now self.now.used from → Arrived H.Height.not_higher self.now.entries.now self.now.used height result from }
    {
        match from {
            None => self.climb(0, height),
            Some(finger) => {
                if finger.height.is_not_higher(height) {
                    self.climb(finger.link, height)
                } else {
                    self.descend(finger.link, height)
                }
            }
        }
    }
}

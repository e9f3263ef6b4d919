//! Two lists of calls that come to two boxes.
ghost use Rattle.std.specs.Prelude.{◌≡◌, ◌<◌, true, false, map, length, Decides};
ghost use Rattle.heights.specs.Meaning.{storage};
ghost use Rattle.siting_box.specs.Boxes.{box_contents};
ghost use Rattle.siting_box.specs.Contents.{counts_on};
ghost use Rattle.two_boxes.specs.declared.comparison.Comparison.TheVariants.{NotComparable};
ghost use Rattle.two_boxes.specs.Running.{TookTurn};
ghost use Rattle.two_boxes.specs.Agreeing.{less_steps};
ghost use Rattle.two_boxes.specs.Sides.{SameLoans};
ghost use Rattle.two_boxes.specs.Comparing.{comparable, Comparables, verdict, apart_after, BothCalled, RanBoth};

use crate::answer::Answer;
use crate::carrying::call_box;
use crate::comparison::Comparison;
use crate::likeness::are_alike;
use counters::counter::Counter;
use heights::height::HeightKind;
use runs::Call;
use siting_box::SitingBox;

// One of two boxes, with the counters that it is lent in turn, the calls that come to it and the memory for its answers; each
// reference has a lifetime of its own, as the check needs. Answers lie beside the calls, since the memory for them is lent.
#[derive(Drop)]
struct Side<'s, 'r, 'm, 'l, 'c, 'n, H, C> {
    siting: &'s mut SitingBox<'r, H>,
    counters: &'m mut [C],
    calls: &'l [Call<'c>],
    answers: &'n mut [Answer],
}

impl<K: HeightKind, C: Counter<Kind = K>> Side<'_, '_, '_, '_, '_, '_, K, C> {
    // Whether the lists of two sides can be compared, by how many calls, counters and places for answers there are.
    fn is_comparable_with<L: HeightKind, D: Counter<Kind = L>>(
        &self,
        other: &Side<'_, '_, '_, '_, '_, '_, L, D>,
    ) -> bool
        ensures { result ≡ comparable (length self.now.calls.now) (length other.now.calls.now) (length self.now.counters.now) (length other.now.counters.now) (length self.now.answers.now) (length other.now.answers.now) }
    {
        self.calls.len() == other.calls.len()
            && !self.counters.is_empty()
            && !other.counters.is_empty()
            && self.calls.len() <= self.answers.len()
            && self.calls.len() <= other.answers.len()
    }

    // Carries out the call number i, with the counter whose turn it is, and notes the answer.
    fn take_turn(&mut self, i: usize) -> Answer
        requires called { i < length self.old.calls.now }
        requires room { i < length self.old.answers.now }
        requires counted { 0 < length self.old.counters.now }
        ensures turn { TookTurn (storage K.HeightKind.wide K.HeightKind.reads) K.Height.not_higher i self.old.calls.now (box_contents self.old.siting.now) (box_contents self.new.siting.now) (map C.Counter.view self.old.counters.now) (map C.Counter.view self.new.counters.now) self.old.answers.now self.new.answers.now result }
        ensures same { SameLoans self.old self.new }
    {
        let calls = self.calls;
        let counters = &mut *self.counters;
        let turn = i % counters.len();
        let answer = call_box(self.siting, &mut counters[turn], &calls[i]);
        self.answers[i] = answer;
        answer
    }

    // Whether this box looks like another one after a call each: equal answers less the steps, and equal counts on record.
    fn looks_like<L: HeightKind, D: Counter<Kind = L>>(
        &self,
        other: &Side<'_, '_, '_, '_, '_, '_, L, D>,
        answer: Answer,
        other_answer: Answer,
    ) -> bool
        ensures { Decides result ((less_steps answer ≡ less_steps other_answer) × (counts_on (box_contents self.now.siting.now) ≡ counts_on (box_contents other.now.siting.now))) }
    {
        are_alike(answer, other_answer) && self.siting.has_counts_of(other.siting)
    }

    // Has the calls of two sides come to their boxes in turn, and tells which was the first after which these did not look alike.
    fn call_in_turn<L: HeightKind, D: Counter<Kind = L>>(
        &mut self,
        other: &mut Side<'_, '_, '_, '_, '_, '_, L, D>,
    ) -> Option<usize>
        requires { Comparables (length self.old.calls.now) (length other.old.calls.now) (length self.old.counters.now) (length other.old.counters.now) (length self.old.answers.now) (length other.old.answers.now) }
        ensures ran { BothCalled (storage K.HeightKind.wide K.HeightKind.reads) (storage L.HeightKind.wide L.HeightKind.reads) K.Height.not_higher L.Height.not_higher (box_contents self.old.siting.now) (box_contents self.new.siting.now) (box_contents other.old.siting.now) (box_contents other.new.siting.now) (map C.Counter.view self.old.counters.now) (map C.Counter.view self.new.counters.now) (map D.Counter.view other.old.counters.now) (map D.Counter.view other.new.counters.now) self.old.calls.now other.old.calls.now self.old.answers.now self.new.answers.now other.old.answers.now other.new.answers.now result }
        ensures same { SameLoans self.old self.new }
        ensures other_same { SameLoans other.old other.new }
    {
        let mut apart = None;
        // by number, which is told: after a loop over zipped `iter_mut` a proof knows nothing of the answers written
        for i in 0..self.calls.len() {
            let answer = self.take_turn(i);
            let other_answer = other.take_turn(i);
            let alike = self.looks_like(other, answer, other_answer);
            apart = first_apart(apart, i, alike);
        }
        apart
    }
}

// Which call was the first after which two boxes did not look alike, with one call more.
fn first_apart(apart: Option<usize>, call: usize, alike: bool) -> Option<usize>
    ensures { result ≡ apart_after apart call alike }
{
    apart.or((!alike).then_some(call))
}

// How the comparison ends.
fn verdict_of(apart: Option<usize>) -> Comparison
    ensures { result ≡ verdict apart }
{
    apart.map_or(Comparison::Agree, |call| Comparison::Differ { call })
}

// Has two lists of calls come to two boxes, each over a kind of its own and with counters of its own in turn, notes all answers,
// and tells whether the boxes look alike after each call. New boxes do so where the lists match: the law of two boxes. It is given the
// eight one by one, as callers hold them and as the clauses of the law name them.
pub fn run_both<'a, K: HeightKind, L: HeightKind, C: Counter<Kind = K>, D: Counter<Kind = L>>(
    left: &mut SitingBox<'_, K>,
    left_counters: &mut [C],
    left_calls: &[Call<'a>],
    left_answers: &mut [Answer],
    right: &mut SitingBox<'_, L>,
    right_counters: &mut [D],
    right_calls: &[Call<'a>],
    right_answers: &mut [Answer],
) -> Comparison
    ensures two_boxes { comparable (length left_calls.now) (length right_calls.now) (length left_counters.old) (length right_counters.old) (length left_answers.old) (length right_answers.old) ≡ true → RanBoth (storage K.HeightKind.wide K.HeightKind.reads) (storage L.HeightKind.wide L.HeightKind.reads) K.Height.not_higher L.Height.not_higher (box_contents left.old) (box_contents left.new) (box_contents right.old) (box_contents right.new) (map C.Counter.view left_counters.old) (map C.Counter.view left_counters.new) (map D.Counter.view right_counters.old) (map D.Counter.view right_counters.new) left_calls.now right_calls.now left_answers.old left_answers.new right_answers.old right_answers.new result }
    ensures refused { comparable (length left_calls.now) (length right_calls.now) (length left_counters.old) (length right_counters.old) (length left_answers.old) (length right_answers.old) ≡ false → (result ≡ NotComparable) × (box_contents left.new ≡ box_contents left.old) × (left_counters.new ≡ left_counters.old) × (left_answers.new ≡ left_answers.old) × (box_contents right.new ≡ box_contents right.old) × (right_counters.new ≡ right_counters.old) × (right_answers.new ≡ right_answers.old) }
    ensures left_lent { left.new.records.ghost_name ≡ left.old.records.ghost_name }
    ensures right_lent { right.new.records.ghost_name ≡ right.old.records.ghost_name }
{
    let mut left = Side {
        siting: left,
        counters: left_counters,
        calls: left_calls,
        answers: left_answers,
    };
    let mut right = Side {
        siting: right,
        counters: right_counters,
        calls: right_calls,
        answers: right_answers,
    };
    if !left.is_comparable_with(&right) {
        return Comparison::NotComparable;
    }
    let apart = left.call_in_turn(&mut right);
    verdict_of(apart)
}

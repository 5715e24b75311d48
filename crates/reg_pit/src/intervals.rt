// Intervals of moments for each key.
ghost use Rattle.std.specs.Prelude.{Bool, List, Option, ◌≡◌, ◌≤◌, ◌<◌, ◌+◌, ◌*◌, ◌^◌, ◌&&◌, ℕ, []};
ghost use Rattle.std.specs.Prelude.{true, false, length, nat_le, nat_lt, Some, None, IfSome};
ghost use Rattle.std.specs.Prelude.{IfNone, IfOk, OnOk, OnErr, if◌then◌else◌};
ghost use Rattle.std.specs.Ordering.{eq_by_cmp, is_gt};
ghost use Rattle.std.specs.List.{list_any};
ghost use Rattle.std.specs.List.Sorted.{IsStrictlySortedBy};
ghost use Rattle.reg_pit.specs.Spans.{covers, AreSpans, AreSpansOf, NoLater, spans_until};
ghost use Rattle.reg_pit.specs.Spans.{looked_at};
ghost use Rattle.reg_pit.specs.Runs.{AreRuns, EndedBy, Switched, is_between, spans_of, TiesAreOne};
ghost use Rattle.reg_pit.specs.Runs.{AreAllOn, IsFirstKey, is_behind, keyed_spans};

use crate::ends::End;
use reg_base::{Moment, Steps};
use std::alloc::{AllocError, Global};
use std::collections::BTreeMap;
use std::marker::{Brand, Model};
use std::ops::Bound;
use std::sync::ledger::{Blank, Ledger};

/// Intervals of moments for each key: from a start until just before an end, or without an end.
/// None is empty, and no two of a key touch. Contracts see the list of the intervals of each key,
/// in order. `at` ticks once for each interval that it looks at; all other calls count nothing.
#[derive(Drop)]
pub struct Intervals<K: Ord + Copy> {
    alloc: Global,
    /// The start of each interval, by its key and its end.
    starts: BTreeMap<(K, End), Moment>,
    /// A moment after which no interval ended, so that one that begins later is known to go on from
    /// none.
    latest: Moment,
}

impl<K: Ord + Copy> Model for Intervals<K> {
    ghost use Rattle.std.specs.Prelude.{List, ℕ};
    ghost use Rattle.reg_pit.specs.Runs.{AreKept};

    ghost Value = { List ((K × ℕ) × ℕ) };

    ghost view = { λ i. i.starts.entries };

    ghost invariant = { λ i. AreKept K.cmp i.latest i.starts.entries };
}

/// Lets an interval of the key begin, unless one goes on: one that ended at the moment goes on.
/// None ended after `latest`.
fn begin<K: Ord + Copy>(
    starts: &mut BTreeMap<(K, End), Moment>,
    key: K,
    at: Moment,
    latest: Moment,
) -> Result<(), AllocError>
    requires kept { AreRuns K.cmp starts.old.entries }
    requires last { (k : K) → NoLater at (spans_of K.cmp starts.old.entries k) }
    requires ended { (k : K) → EndedBy latest (spans_of K.cmp starts.old.entries k) }
    ensures ok { OnOk result (Switched K.cmp key at true starts.old.entries starts.new.entries) }
    ensures ended { OnOk result ((k : K) → EndedBy latest (spans_of K.cmp starts.new.entries k)) }
    ensures err { OnErr result (starts.new.entries ≡ starts.old.entries) }
{
    let never = End::never();
    let now = End::at(at);
    if let Some(began) = starts.insert((key, never), at)? {
        starts.insert((key, never), began)?; // as it was
        return Ok(());
    }
    if latest.micros() < at.micros() {
        return Ok(());
    }
    if let Some(start) = starts.get(&(key, now)).copied() {
        starts.insert((key, never), start)?;
        starts.remove(&(key, now));
    }
    Ok(())
}

/// Lets the interval of the key that goes on end; one that began at the moment goes.
fn end<K: Ord + Copy>(
    starts: &mut BTreeMap<(K, End), Moment>,
    key: K,
    at: Moment,
) -> Result<(), AllocError>
    requires kept { AreRuns K.cmp starts.old.entries }
    requires last { (k : K) → NoLater at (spans_of K.cmp starts.old.entries k) }
    ensures ok { OnOk result (Switched K.cmp key at false starts.old.entries starts.new.entries) }
    ensures err { OnErr result (starts.new.entries ≡ starts.old.entries) }
{
    let never = End::never();
    let Some(start) = starts.get(&(key, never)).copied() else {
        return Ok(());
    };
    if start.micros() < at.micros() {
        let now = End::at(at);
        starts.insert((key, now), start)?;
        starts.remove(&(key, never));
        return Ok(());
    }
    starts.remove(&(key, never));
    Ok(())
}

/// Whether the key is on at a moment, with a counter that nobody reads.
fn is_on_from<K: Ord + Copy, L: Ledger>(
    intervals: &Intervals<K>,
    key: K,
    t: Moment,
    blank: Blank,
) -> bool
    requires name { blank.name ≡ L.name }
    requires parts { blank.parts ≡ L.parts }
    requires some { 0 < blank.parts }
    ensures { result ≡ covers (spans_of K.cmp intervals.now key) t }
{
    let mut steps = Steps::<L>::open(blank);
    intervals.at(key, t, &mut steps)
}

impl<K: Ord + Copy> Intervals<K> {
    /// No key has an interval. Takes no memory.
    pub fn new(alloc: Global) -> Intervals<K>
        ensures { (k : K) → spans_of K.cmp result k ≡ [] }
    {
        Intervals {
            alloc,
            starts: BTreeMap::new(alloc),
            latest: Moment::start(),
        }
    }

    /// From a moment on the key is on, or it isn't; nothing was set later. What was so before the
    /// moment stays so. Out of memory the intervals stay as they were.
    pub fn set(&mut self, key: K, on: bool, at: Moment) -> Result<(), AllocError>
        requires { (k : K) → NoLater at (spans_of K.cmp self.old k) }
        ensures set { OnOk result ((k : K) (t : ℕ)
            → covers (spans_of K.cmp self.new k) t
            ≡ (if eq_by_cmp K.cmp key k && nat_le at t then on
            else covers (spans_of K.cmp self.old k) t)) }
        ensures before { OnOk result ((k : K) (t : ℕ) → t < at
            → covers (spans_of K.cmp self.new k) t ≡ covers (spans_of K.cmp self.old k) t) }
        ensures last { OnOk result ((k : K) → NoLater at (spans_of K.cmp self.new k)) }
        ensures err { OnErr result (self.new ≡ self.old) }
    {
        if on {
            return begin(&mut self.starts, key, at, self.latest);
        }
        end(&mut self.starts, key, at)?;
        self.latest = at;
        Ok(())
    }

    /// The start of the first interval of the key that ends after a moment: one step for the
    /// interval that it gives, and none where it gives none.
    fn first_after<L: Ledger>(&self, key: K, t: Moment, steps: &mut Steps<L>) -> Option<Moment>
        ensures some { IfSome result (λ start. nat_le start t
            ≡ covers (spans_of K.cmp self.now key) t) }
        ensures none { IfNone result (covers (spans_of K.cmp self.now key) t ≡ false) }
        ensures one { IfSome result (λ start. looked_at (spans_of K.cmp self.now key) t ≡ 1) }
        ensures zero { IfNone result (looked_at (spans_of K.cmp self.now key) t ≡ 0) }
        ensures tick { IfSome result (λ start. steps.new ≡ steps.old + 1) }
        ensures no_tick { IfNone result (steps.new ≡ steps.old) }
    {
        match self
            .starts
            .range((key, End::after(t))..=(key, End::never()))
            .next()
        {
            Some((_, start)) => {
                steps.tick(); // one interval looked at
                Some(*start)
            }
            None => None,
        }
    }

    /// Whether the key is on at a moment: `at` for who counts no looks. Takes no memory.
    pub(crate) fn is_on(&self, key: K, t: Moment) -> bool
        ensures { result ≡ covers (spans_of K.cmp self.now key) t }
    {
        is_on_from::<K, Brand>(self, key, t, Blank::new(1))
    }

    /// Whether the key is on at a moment. A step is one interval looked at: the first that ends
    /// after the moment, where there is one. Takes no memory.
    pub fn at<L: Ledger>(&self, key: K, t: Moment, steps: &mut Steps<L>) -> bool
        ensures value { result ≡ covers (spans_of K.cmp self.now key) t }
        ensures ticks { steps.new ≡ steps.old + looked_at (spans_of K.cmp self.now key) t }
        ensures looks { steps.new ≤ steps.old + 1 }
        ensures cost { (s : ℕ) → steps.new ≡ steps.old + s
            → 2 ^ s ≤ 2 * length (spans_of K.cmp self.now key) + 1 }
    {
        match self.first_after(key, t, steps) {
            Some(start) => start <= t,
            None => false,
        }
    }

    /// The intervals of the key, in order. Its looks are uncounted: they are as many as it gives.
    pub fn rows(&self, key: K) -> Result<Vec<(Moment, Option<Moment>)>, AllocError>
        ensures value { IfOk result (λ rows. rows.items ≡ spans_of K.cmp self.now key) }
        ensures spans { IfOk result (λ rows. AreSpans rows.items) }
    {
        let first = End::at(Moment::start());
        let mut rows = Vec::new(self.alloc);
        for (place, start) in self.starts.range((key, first)..=(key, End::never())) {
            rows.push((*start, place.1.moment()))?;
        }
        Ok(rows)
    }

    /// The intervals of all keys from `from` up to `to`, each with its key, by key and start. Its
    /// looks are uncounted: it costs what was ever set between them.
    pub fn rows_between(
        &self,
        from: K,
        to: K,
    ) -> Result<Vec<(K, Moment, Option<Moment>)>, AllocError>
        requires { is_gt (K.cmp from to) ≡ false }
        ensures { IfOk result (λ rows. TiesAreOne K.cmp → (keys : List K)
            → IsStrictlySortedBy K.cmp keys → AreAllOn K.cmp from to self.now keys
            → rows.items ≡ keyed_spans K.cmp self.now keys) }
    {
        let first = End::at(Moment::start());
        let mut rows = Vec::new(self.alloc);
        for (place, start) in self.starts.range((from, first)..=(to, End::never())) {
            rows.push((place.0, *start, place.1.moment()))?;
        }
        Ok(rows)
    }

    /// The first key from `from` up to `to` that has an interval: one look. Takes no memory.
    fn first_key(&self, from: K, to: K) -> Option<K>
        requires { is_gt (K.cmp from to) ≡ false }
        ensures some { IfSome result (IsFirstKey K.cmp self.now (is_between K.cmp from to)) }
        ensures none { IfNone result ((k : K) → is_between K.cmp from to k ≡ true
            → spans_of K.cmp self.now k ≡ []) }
    {
        let first = End::at(Moment::start());
        match self.starts.range((from, first)..=(to, End::never())).next() {
            Some((place, _)) => Some(place.0),
            None => None,
        }
    }

    /// The first key behind one, up to `to`, that has an interval: one look, however many intervals
    /// the one has. Takes no memory.
    fn key_behind(&self, key: K, to: K) -> Option<K>
        requires { is_gt (K.cmp key to) ≡ false }
        ensures some { IfSome result (IsFirstKey K.cmp self.now (is_behind K.cmp key to)) }
        ensures none { IfNone result ((k : K) → is_behind K.cmp key to k ≡ true
            → spans_of K.cmp self.now k ≡ []) }
    {
        let last = Bound::Excluded((key, End::never()));
        match self
            .starts
            .range((last, Bound::Included((to, End::never()))))
            .next()
        {
            Some((place, _)) => Some(place.0),
            None => None,
        }
    }

    /// The keys from `from` up to `to` that are on at a moment, in order, each once. Its looks are
    /// uncounted: two for each key between them that was ever on, however often.
    pub fn on_between(&self, from: K, to: K, t: Moment) -> Result<Vec<K>, AllocError>
        requires { is_gt (K.cmp from to) ≡ false }
        ensures ascending { IfOk result (λ keys. IsStrictlySortedBy K.cmp keys.items) }
        ensures each { IfOk result (λ keys. (k : K)
            → list_any (eq_by_cmp K.cmp k) keys.items
            ≡ (is_between K.cmp from to k && covers (spans_of K.cmp self.now k) t)) }
    {
        let mut keys = Vec::new(self.alloc);
        let mut next = self.first_key(from, to);
        while let Some(key) = next {
            next = self.key_behind(key, to);
            if self.is_on(key, t) {
                keys.push(key)?;
            }
        }
        Ok(keys)
    }

    /// From a moment on none of the keys from `from` up to `to` is on; nothing was set later. Out
    /// of memory the intervals are given up.
    pub fn clear(self, from: K, to: K, at: Moment) -> Result<Intervals<K>, AllocError>
        requires forward { is_gt (K.cmp from to) ≡ false }
        requires last { (k : K) → NoLater at (spans_of K.cmp self k) }
        ensures cleared { IfOk result (λ after. (k : K) (t : ℕ)
            → covers (spans_of K.cmp after k) t
            ≡ (if is_between K.cmp from to k && nat_le at t then false
            else covers (spans_of K.cmp self k) t)) }
        ensures last { IfOk result (λ after. (k : K) → NoLater at (spans_of K.cmp after k)) }
    {
        let keys = self.on_between(from, to, at)?;
        let mut intervals = self;
        for key in &keys {
            intervals.set(*key, false, at)?;
        }
        Ok(intervals)
    }

    /// The intervals of each key are the one list for their moments: none is empty, no two touch,
    /// starts ascend, and the last alone may have no end. It does nothing.
    pub fn law_rows_apart(&self)
        ensures { (k : K) → AreSpans (spans_of K.cmp self.now k) }
    {
        let _ = &self.starts;
    }

    /// The intervals of the moments up to a last one at which a test holds, put together moment by
    /// moment, are the one list for these moments. It does nothing.
    pub fn law_until(&self)
        ensures { (test : ℕ → Bool) (now : ℕ) → AreSpansOf test now (spans_until test now) }
    {
        let _ = &self.starts;
    }

    /// Two lists of intervals for the same moments are one. It does nothing.
    pub fn law_one_list(&self)
        ensures { (test : ℕ → Bool) (now : ℕ) (a b : List (ℕ × Option ℕ)) → AreSpansOf test now a
            → AreSpansOf test now b → a ≡ b }
    {
        let _ = &self.starts;
    }
}

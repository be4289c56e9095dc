//! What is known of the leaves of a feature that were read: their spans of time.
ghost use Rattle.std.specs.Prelude.{suc, ◌≡◌, ◌-◌, ◌^◌, ◌<◌, ◌≤ℤ◌, Some, slice_get, IfSome, OnErr, OnOk};
ghost use Rattle.std.specs.Int.{int_max, int_min};
ghost use Rattle.chains.specs.Spans.{IsSpanOf, Learns, pass_at, over, link_over};

use crate::leaves::Link;
use std::alloc::AllocError;
use tbnode::Leaf;
use timebase::{Ms, Period};

/// What is known of a leaf: its page, its feature, and the least span of time that has all its legs.
///
/// Such spans of a feature's leaves, from the last one back, are a memory of its chain: a leaf that is off a period is
/// passed by its span, and not read again.
#[derive(Clone, Copy, PartialEq, Eq, Debug)]
pub struct LeafSpan {
    /// The page of the leaf.
    pub page: u32,
    /// The feature of its legs.
    pub feature: u32,
    /// A leg of it starts at this moment, and none before.
    pub start: Ms,
    /// A leg of it ends at this moment, and none after.
    pub end: Ms,
}

/// What a walk back along a chain does at a leaf.
#[derive(Clone, Copy)]
pub(crate) enum Passing {
    /// It reads the leaf.
    Into,
    /// It goes on by this link: the leaf is known, and all its legs start after the period.
    Over(Link),
    /// It ends: the leaf is known, and all its legs end before the period.
    End,
}

/// The link from a known leaf to the one before it, which has that page.
fn link_over(span: &LeafSpan, before: u32) -> Link
    ensures { result ≡ link_over span.now before }
{
    Link {
        page: before,
        next: span.page,
        feature: span.feature,
    }
}

/// What a walk does at a known leaf that starts after the period: it passes it where the page before it is known too, or
/// where there is none.
fn over(span: &LeafSpan, before: Option<LeafSpan>, left: u64) -> Passing
    ensures { result ≡ over span.now before left }
{
    match before {
        Some(before) => Passing::Over(link_over(span, before.page)),
        None => {
            if left == 0 {
                Passing::Over(link_over(span, 0))
            } else {
                Passing::Into
            }
        }
    }
}

/// What a walk does at a leaf with that span, if it is known, before it one with that span, if it is, and so many in all.
fn at_span(span: Option<LeafSpan>, before: Option<LeafSpan>, left: u64, period: &Period) -> Passing
    ensures value { result ≡ pass_at span before left (Some period.now) }
    ensures ordered { period.now.start ≤ℤ period.now.end }
{
    let (start, end) = (period.start(), period.end());
    match span {
        None => Passing::Into,
        Some(span) => {
            if span.end < start {
                Passing::End
            } else if span.start <= end {
                Passing::Into
            } else {
                over(&span, before, left)
            }
        }
    }
}

/// The span of that number, from the last leaf back, if it is known.
fn span_at(spans: &[LeafSpan], number: usize) -> Option<LeafSpan>
    ensures { result ≡ slice_get spans.now number }
{
    spans.get(number).copied()
}

/// What a walk does at the leaf after so many others that it passed, with so many before it.
pub(crate) fn pass(spans: &[LeafSpan], passed: usize, left: u64, period: &Option<Period>) -> Passing
    requires room { passed < 2 ^ 64 - 1 }
    ensures value { result ≡ pass_at (slice_get spans.now passed)
        (slice_get spans.now (suc passed)) left period.now }
    ensures ordered { IfSome period.now (λ period. period.start ≤ℤ period.end) }
{
    match period {
        Some(period) => at_span(
            span_at(spans, passed),
            span_at(spans, passed + 1),
            left,
            period,
        ),
        None => Passing::Into,
    }
}

/// The earlier of two moments.
fn earlier(a: Ms, b: Ms) -> Ms
    ensures { result ≡ int_min a b }
{
    if b < a { b } else { a }
}

/// The later of two moments.
fn later(a: Ms, b: Ms) -> Ms
    ensures { result ≡ int_max a b }
{
    if a < b { b } else { a }
}

/// The least span of a leaf on that page.
fn span_of(leaf: &Leaf<'_>, page: u32) -> LeafSpan
    ensures { IsSpanOf result page leaf.now }
{
    prove!(leaf.len() > 0);
    let first = leaf.leg(0);
    let (mut start, mut end) = (first.t0, first.t1);
    let mut i = 1;
    'legs: while i < leaf.len() {
        let leg = leaf.leg(i);
        start = earlier(start, leg.t0);
        end = later(end, leg.t1);
        i += 1;
    }
    LeafSpan {
        page,
        feature: leaf.head().feature,
        start,
        end,
    }
}

/// Makes the span of a leaf known, where it is the next one that is not.
pub(crate) fn learn(
    spans: &mut Vec<LeafSpan>,
    passed: usize,
    leaf: &Leaf<'_>,
    page: u32,
) -> Result<(), AllocError>
    ensures ok { OnOk result (Learns spans.old.items spans.new.items passed page leaf.now) }
    ensures err { OnErr result (spans.new.items ≡ spans.old.items) }
{
    if passed == spans.len() {
        spans.push(span_of(leaf, page))?;
    }
    Ok(())
}

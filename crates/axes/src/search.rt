// The search for the first axis that separates two bodies, given by their corners.
ghost use Rattle.std.specs.Prelude.{◌≡◌, ◌<◌, None};
ghost use Rattle.axes.specs.Axes.{separates, first_of, span_of, verdict_of};

use crate::range::{EMPTY, apart, widened};
use types::{Range, Refusal, Vector};

// The place of the first axis that separates the corners ps from the corners qs. A labelled break leaves both loops with it, at the last corner,
// which is known by its number. `zip` and `enumerate` would give the number and both corners as a pair in a pair, and be no plainer.
// Bodies without corners are separated by no axis.
pub fn first_separating<V: Vector, const N: usize>(
    ps: &[V; N],
    qs: &[V; N],
    axes: &[V],
) -> Option<usize>
    ensures found { 0 < N → result ≡ first_of (separates V.dot ps.now qs.now) axes.now }
    ensures without_corners { N ≡ 0 → result ≡ None }
{
    'search: {
        for (j, &axis) in axes.iter().enumerate() {
            let mut a = EMPTY;
            let mut b = EMPTY;
            for i in 0..N {
                a = widened(a, ps[i].dot(axis));
                b = widened(b, qs[i].dot(axis));
                if i + 1 == N && apart(a, b) {
                    break 'search Some(j);
                }
            }
        }
        None
    }
}

// The range of the corners' projections on an axis, refused where one is NaN. All are tested, with no jump between them. Without `inline(always)` the
// overlap of two solids takes half as long again.
#[inline(always)]
#[tactic(auto, unfolding(crate::specs::Axes::span_of))]
fn span<V: Vector, const N: usize>(ps: &[V; N], axis: V) -> Result<Range, Refusal>
    ensures { result ≡ span_of V.dot ps.now axis }
{
    let mut span = EMPTY;
    let mut has_nan = false;
    for &p in ps {
        let x = p.dot(axis);
        has_nan |= x.is_nan();
        span = widened(span, x);
    }
    if has_nan {
        return Err(Refusal::NanProjection);
    }
    Ok(span)
}

// The first axis that has a NaN projection or separates the corners ps from the corners qs decides: a NaN is refused, and else the answer is no.
// Where there is none, the answer is yes.
#[tactic(auto, using(crate::proofs::Decided::spans_apart, crate::proofs::Decided::spans_meet))]
pub fn verdict<V: Vector, const N: usize>(
    ps: &[V; N],
    qs: &[V; N],
    axes: &[V],
) -> Result<bool, Refusal>
    ensures { result ≡ verdict_of V.dot ps.now qs.now axes.now }
{
    for &axis in axes {
        if apart(span(ps, axis)?, span(qs, axis)?) {
            return Ok(false);
        }
    }
    Ok(true)
}

// Modified Gram-Schmidt orthonormalisation, in place, of directions that lie one after the other in a slice.
//
// `modified_gram_schmidt` (source: estimator.rs) equals the definition of specs/GramSchmidt.antt for every input: its
// answer, and every float left in both slices. specs/Orthonormalise.antt has the operations on one direction after the
// other, over how lengths are taken; the code takes them by `euclidean`. specs/Collapse.antt says what a collapse means
// there: a squared length of 0 or one that is not finite.
//
// The second slice has the logarithms and then the squared lengths, as document 01 hands it over. The parts are lent all
// directions with the place of one, and ask that it lies in the slice: no type of one parameter says that.
#![tactic(auto)]

ghost use Rattle.std.specs.Prelude.{◌≡◌, ◌+◌, ◌*◌, ◌≤◌, ◌<◌, map, length};
ghost use Rattle.std.proofs.lemmas.List.Edits.{sets};
ghost use Rattle.floats.specs.Arithmetic.{◌⊘◌};
ghost use Rattle.floats.specs.Vector.{dot_from, part, chunks};
ghost use Rattle.gram_schmidt.specs.Orthonormalise.{subtract_projection, orthogonalise};
ghost use Rattle.gram_schmidt.specs.GramSchmidt as Spec;
ghost use Rattle.gram_schmidt.specs.GramSchmidt.{squared_length, euclidean};

use error::LyapunovError;

// The zero that every sum starts from (document 02, d).
const SUM_START: f64 = -0.0;

// The sum of a[i] * b[i], in index order.
fn dot_disjoint<'a>(a: &'a [f64], b: &'a [f64]) -> f64
    requires { length a.now ≡ length b.now }
    ensures { result ≡ dot_from euclidean.start a.now b.now }
{
    let mut s = SUM_START;
    for i in 0..a.len() {
        s = s + a[i] * b[i];
    }
    s
}

// The direction at target less p times the one at basis. Answers the dot product of the one at next with what is left,
// which may be the one at target itself. One loop does both: the subtractions cost nothing while the sum waits for itself.
fn subtract_projection(
    values: &mut [f64],
    basis: usize,
    next: usize,
    target: usize,
    d: usize,
    p: f64,
) -> f64
    requires { (basis + d ≤ target) × (next ≤ target) × (target + d ≤ length values.old) }
    ensures { (values.new ≡ sets values.old target (subtract_projection p (part target d values.old) (part basis d values.old)))
        × (result ≡ dot_from euclidean.start (part next d values.new) (part target d values.new)) }
{
    let mut product = SUM_START;
    for i in 0..d {
        let x = values[target + i] - p * values[basis + i];
        values[target + i] = x;
        product = product + values[next + i] * x;
    }
    product
}

// The direction at v * d, cleared once of each earlier one. `first` is its dot product with the first of them. Answers
// the dot product of the one at last with what is left.
fn orthogonalise_once(values: &mut [f64], v: usize, d: usize, first: f64, last: usize) -> f64
    requires { (0 < v) × (v * d + d ≤ length values.old) × (last ≤ v * d) × (first ≡ dot_from euclidean.start (part 0 d values.old) (part (v * d) d values.old)) }
    ensures { (values.new ≡ sets values.old (v * d) (orthogonalise euclidean.start (chunks d v values.old) (part (v * d) d values.old)))
        × (result ≡ dot_from euclidean.start (part last d values.new) (part (v * d) d values.new)) }
{
    let target = v * d;
    let mut c = first;
    for p in 1..v {
        let next = p * d;
        let basis = next - d;
        c = subtract_projection(values, basis, next, target, d, c);
    }
    let basis = target - d;
    subtract_projection(values, basis, last, target, d, c)
}

// The direction at v * d, cleared twice of each earlier one. Answers its squared length.
fn orthogonalise(values: &mut [f64], v: usize, d: usize) -> f64
    requires { v * d + d ≤ length values.old }
    ensures { (values.new ≡ sets values.old (v * d) (Spec.cleared euclidean d v values.old))
        × (result ≡ squared_length euclidean.start (Spec.cleared euclidean d v values.old)) }
{
    let target = v * d;
    let e = target + d;
    let w = &values[..];
    let first = dot_disjoint(&w[..d], &w[target..e]);
    if v == 0 {
        return first;
    }
    let again = orthogonalise_once(values, v, d, first, 0);
    orthogonalise_once(values, v, d, again, target)
}

// Each entry divided.
fn divide(s: &mut [f64], by: f64)
    ensures { s.new ≡ map (λ x. x ⊘ by) s.old }
{
    for x in s {
        *x = *x / by;
    }
}

// A cleared direction is divided by its length: its logarithm and its squared length, or nothing where it collapsed.
fn normalise(s: &mut [f64], squared: f64) -> Option<(f64, f64)>
    requires { squared ≡ squared_length euclidean.start s.old }
    ensures { (result ≡ Spec.normalised euclidean s.old) × (s.new ≡ Spec.divided euclidean s.old) }
{
    let norm = sqrt::sqrt(squared);
    if norm <= f64::from_bits(floats::LEAST_NORMAL_BITS) {
        return None;
    }
    if norm < f64::from_bits(floats::INFINITY_BITS) {
        let Ok(log) = ln::ln(norm) else {
            return None;
        };
        divide(s, norm);
        return Some((log, squared));
    }
    None
}

// Direction v, in full: cleared twice, then divided.
fn orthonormalise_at(tangents: &mut [f64], v: usize, d: usize) -> Option<(f64, f64)>
    requires { v * d + d ≤ length tangents.old }
    ensures { (result ≡ Spec.normalised euclidean (Spec.cleared euclidean d v tangents.old))
        × (tangents.new ≡ sets tangents.old (v * d) (Spec.divided euclidean (Spec.cleared euclidean d v tangents.old))) }
{
    let squared = orthogonalise(tangents, v, d);
    let a = v * d;
    let e = a + d;
    normalise(&mut tangents[a..e], squared)
}

// Orthonormalises the directions of `dimension` entries that lie one after the other in `tangents`. `norms` takes their
// logarithms, then their squared lengths.
pub fn modified_gram_schmidt(
    tangents: &mut [f64],
    dimension: usize,
    norms: &mut [f64],
) -> Result<(), LyapunovError>
    ensures { Spec.observed result tangents.new norms.new ≡ Spec.orthonormalised euclidean tangents.old dimension norms.old }
{
    if dimension == 0 {
        return Err(LyapunovError::ZeroDimension);
    }
    let count = tangents.len() / dimension;
    if norms.len() / 2 < count {
        return Err(LyapunovError::OutputTooShort(0));
    }
    for v in 0..count {
        let Some((log, squared)) = orthonormalise_at(tangents, v, dimension) else {
            return Err(LyapunovError::DegenerateTangent(v));
        };
        norms[count + v] = squared;
        norms[v] = log;
    }
    Ok(())
}

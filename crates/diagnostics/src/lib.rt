// The Kaplan-Yorke dimension and the Kolmogorov-Sinai entropy of a list of Lyapunov exponents (source: diagnostics.rs).
//
// Each public function takes any slice and equals a definition of specs/: the value, or the refusal 20, 21 or 22.
// Start with specs/Rates.antt. specs/OrderedCopy.antt and specs/Range.antt state what is proved of the dimension: its
// ordered copy is in order, holds the same floats equally often and is the only such list, and the value lies from 0 to
// the count. specs/Marked.antt has document 01's examples.
#![tactic(auto)]

ghost use Rattle.std.specs.Prelude.{◌≡◌, ◌≤◌, ◌<◌, length};
ghost use Rattle.error.specs.Refusal.{reported, answer};
ghost use Rattle.floats.specs.Arithmetic.{zero⁺};
ghost use Rattle.diagnostics.specs.Sorting as Sorting;
ghost use Rattle.diagnostics.specs.Dimension as Dimension;
ghost use Rattle.diagnostics.specs.Entropy as Entropy;
ghost use Rattle.diagnostics.specs.Rates as Rates;

use error::LyapunovError;
use std::cmp::Reverse;

#[tactic(auto, unfolding(crate::specs::Rates::refused_for))]
fn validate_exponents(exponents: &[f64]) -> Result<(), LyapunovError>
    ensures { reported result ≡ Rates.refused_for exponents.now }
{
    let count = exponents.len();
    if count == 0 {
        return Err(LyapunovError::NoExponents);
    }
    if count > 256 {
        return Err(LyapunovError::TooManyExponents);
    }
    match floats::first_not_finite(exponents) {
        Some(i) => Err(LyapunovError::NonFiniteExponent(i)),
        None => Ok(()),
    }
}

// Puts the entries of xs into sorted, in descending order.
fn sort_descending(sorted: &mut [f64], xs: &[f64])
    requires { length sorted.old ≡ length xs.now }
    ensures { sorted.new ≡ Sorting.descending xs.now }
{
    sorted.copy_from_slice(xs);
    sorted.sort_unstable_by_key(|x| Reverse(floats::total_cmp(*x)));
}

// Adds the entries in order until the next sum would be below 0. The loop yields its index by break, a form that the
// project keeps.
fn walk(sorted: &[f64]) -> f64
    requires { length sorted.now ≤ 256 }
    ensures { result ≡ Dimension.walk 0 zero⁺ sorted.now }
{
    let mut cumulative = 0.0;
    let mut i = 0usize;
    let index = loop {
        if i >= sorted.len() {
            break i;
        }
        let next = cumulative + sorted[i];
        if next < 0.0 {
            break i;
        }
        cumulative = next;
        i += 1;
    };
    if index >= sorted.len() {
        return index as f64;
    }
    if index == 0 {
        return 0.0;
    }
    let entry = sorted[index];
    index as f64 + cumulative / floats::abs(entry)
}

// The dimension, with the ordered copy made in a slice of the same length.
#[tactic(auto, unfolding(crate::specs::Dimension::kaplan_yorke))]
fn dimension_in(sorted: &mut [f64], exponents: &[f64]) -> f64
    requires sorted_len { length sorted.old ≡ length exponents.now }
    requires sorted_len_bound { length sorted.old ≤ 256 }
    ensures { result ≡ Dimension.kaplan_yorke exponents.now }
{
    sort_descending(sorted, exponents);
    walk(sorted)
}

#[tactic(auto, using(crate::proofs::Validation::few), unfolding(crate::specs::Rates::dimension))]
pub fn kaplan_yorke_dimension(exponents: &[f64]) -> Result<f64, LyapunovError>
    ensures { answer result ≡ Rates.dimension exponents.now }
{
    validate_exponents(exponents)?;
    let count = exponents.len();
    let mut sorted = [0.0; 256];
    Ok(dimension_in(&mut sorted[..count], exponents))
}

// The sum of the entries above 0, which starts at -0.0 (document 02, d).
#[tactic(auto, using(crate::proofs::Loops::sum_steps), unfolding(crate::specs::Entropy::kolmogorov_sinai))]
fn sum_positive(xs: &[f64]) -> f64
    ensures { result ≡ Entropy.kolmogorov_sinai xs.now }
{
    let mut sum = -0.0;
    for x in xs {
        if 0.0 < *x {
            sum += *x;
        }
    }
    sum
}

// The tests and then the sum: with the dimension it has the tests in common, which are one function.
#[tactic(auto, unfolding(crate::specs::Rates::entropy))]
pub fn kolmogorov_sinai_entropy(exponents: &[f64]) -> Result<f64, LyapunovError>
    ensures { answer result ≡ Rates.entropy exponents.now }
{
    validate_exponents(exponents)?;
    Ok(sum_positive(exponents))
}

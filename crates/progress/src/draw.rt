// The basis that a run begins with: the directions, drawn and orthonormalised.
ghost use Rattle.std.specs.Prelude.{◌≡◌, length};
ghost use Rattle.gram_schmidt.specs.GramSchmidt as GramSchmidt;
ghost use Rattle.benettin.specs.Run as Run;
ghost use Rattle.benettin.specs.Estimate as Estimate;

use error::LyapunovError;
use splitmix64::SplitMix64;

// The directions, drawn one entry after the other.
pub fn draw_directions(tangents: &mut [f64], seed: u64)
    ensures { tangents.new ≡ Run.draws Estimate.splitmix64 (length tangents.old) seed }
{
    let mut generator = SplitMix64::new(seed);
    for entry in tangents {
        let (next, value) = generator.symmetric_unit();
        *entry = value;
        generator = next;
    }
}

// The drawn directions, orthonormalised.
pub fn initialize_basis(
    tangents: &mut [f64],
    d: usize,
    norms: &mut [f64; 32],
    seed: u64,
) -> Result<(), LyapunovError>
    ensures { GramSchmidt.observed result tangents.new norms.new
        ≡ GramSchmidt.orthonormalised GramSchmidt.euclidean (Run.draws Estimate.splitmix64 (length tangents.old) seed) d norms.old }
{
    draw_directions(tangents, seed);
    gram_schmidt::modified_gram_schmidt(tangents, d, norms)
}

// Vectors in arrays of 16, and vectors that lie one after the other in a slice. `zero_padded` and `copy_front` are for arrays in
// registers: the width is known where they are compiled, so that the loop unrolls. A width is at most 16, as the arrays are: an
// `Fn` that is passed can't name a const parameter.
ghost use Rattle.std.specs.Prelude.{◌≡◌, ◌*◌, ◌≤◌, ◌++◌, List, map, length, take, drop, Float};
ghost use Rattle.floats.specs.Vector.{chunks, concat};
ghost use Rattle.system.specs.Array.{in16};
ghost use Rattle.rk4.specs.Stages.{Computes};

// The first `WIDTH` floats of a slice as an array, with zeros behind them.
pub fn zero_padded<const WIDTH: usize>(s: &[f64]) -> [f64; 16]
    requires { WIDTH ≤ 16 }
    ensures { result ≡ in16 (take WIDTH s.now) }
{
    let mut out = [0.0; 16];
    for i in 0..WIDTH {
        if i < s.len() {
            out[i] = s[i];
        }
    }
    out
}

// The first `WIDTH` floats of an array into a slice, as far as it goes.
pub fn copy_front<const WIDTH: usize>(out: &mut [f64], from: [f64; 16])
    requires { WIDTH ≤ 16 }
    ensures { out.new ≡ take WIDTH (take (length out.old) from) ++ drop WIDTH out.old }
{
    for i in 0..WIDTH {
        if i < out.len() {
            out[i] = from[i];
        }
    }
}

// Lends each of `count` vectors of d entries to `advance`, in turn.
pub fn for_each_vector<F: Fn(&mut [f64])>(vectors: &mut [f64], d: usize, count: usize, advance: F)
    requires filled { length vectors.old ≡ count * d }
    requires callable { (v : _) → length v.now ≡ d → F.pre advance v }
    ensures { (G : List Float → List Float) → Computes d G (F.post advance) → vectors.new ≡ concat (map G (chunks d count vectors.old)) }
{
    for j in 0..count {
        let a = j * d;
        let e = a + d;
        advance(&mut vectors[a..e]);
    }
}

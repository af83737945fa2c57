// The matrix of a linear system by columns, and its product with a vector.
//
// `product` and `wide_product` equal `times` of specs/Matrix.antt: start reading there. `transpose` makes the columns that they
// read. Crate system has linear systems, crate system_validation the test of their matrix; only crates system and rk4 call
// these three.
//
// A product sums all rows at once, a column at a time, at a width that is known where it is compiled: the sums run side by
// side, and each still adds in index order. So the matrix is transposed once a step, into columns of 8 or 16 entries. A width is
// at most 16, as vectors are arrays of 16, and the columns have room for it: the type of a slice can't say what it has to do
// with a width.
#![tactic(auto)]

ghost use Rattle.std.specs.Prelude.{◌≡◌, ℕ, ◌+◌, ◌*◌, ◌≤◌, ◌<◌, List, length, take, get_or, Float};
ghost use Rattle.std.specs.Float.{nan};
ghost use Rattle.floats.specs.Arithmetic.{◌⊕◌, ◌⊗◌};
ghost use Rattle.floats.specs.Vector.{chunks};
ghost use Rattle.matrix.specs.Matrix.{times, Transposed, Held};

// Row i of a matrix, as entry i of each column. A column has `WIDTH` entries.
fn put_row<const WIDTH: usize>(columns: &mut [f64], i: usize, row: &[f64])
    requires { (i < WIDTH) × (WIDTH ≤ 16) × (length row.now ≤ 16) × (WIDTH * length row.now ≤ length columns.old) }
    ensures { (length columns.new ≡ length columns.old)
        × ((j : ℕ) → j < length row.now → get_or columns.new (WIDTH * j + i) nan ≡ get_or row.now j nan)
        × ((k j : ℕ) → k < WIDTH → (k ≡ i → ⊥) → get_or columns.new (WIDTH * j + k) nan ≡ get_or columns.old (WIDTH * j + k) nan) }
{
    for (j, x) in row.iter().enumerate() {
        columns[WIDTH * j + i] = *x;
    }
}

// The matrix, column after column.
pub fn transpose<const WIDTH: usize>(matrix: &[f64], d: usize, columns: &mut [f64])
    requires { (length matrix.now ≡ d * d) × (d ≤ WIDTH) × (WIDTH ≤ 16) × (WIDTH * d ≤ length columns.old) }
    ensures { (length columns.new ≡ length columns.old) × Transposed WIDTH d matrix.now columns.new }
{
    for i in 0..d {
        let a = i * d;
        let e = a + d;
        put_row::<WIDTH>(columns, i, &matrix[a..e]);
    }
}

// Each sum takes the entry of one column times x. The column starts at place a.
fn add_column<const WIDTH: usize>(sums: [f64; 16], columns: &[f64], a: usize, x: f64) -> [f64; 16]
    requires { (WIDTH ≤ 16) × (a + WIDTH ≤ length columns.now) }
    ensures { (i : ℕ) → i < WIDTH → get_or result i nan ≡ get_or sums i nan ⊕ get_or columns.now (a + i) nan ⊗ x }
{
    let mut out = sums;
    for i in 0..WIDTH {
        out[i] = out[i] + columns[a + i] * x;
    }
    out
}

// The product of the matrix and x, at the first d entries. All rows are summed at once, in index order each: the sums wait
// for themselves and not for each other, and columns are read as they lie. `min` changes nothing: it shows LLVM that there are at
// most 8 rounds at width 8, which it then unrolls.
pub fn product<const WIDTH: usize>(columns: &[f64], d: usize, x: &[f64; 16]) -> [f64; 16]
    requires { (d ≤ WIDTH) × (WIDTH ≤ 16) × (WIDTH * d ≤ length columns.now) }
    ensures { (m : List Float) → length m ≡ d * d → Transposed WIDTH d m columns.now → take d result ≡ times (chunks d d m) (take d x.now) }
{
    let mut sums = [0.0; 16];
    for j in 0..d.min(WIDTH) {
        let next = add_column::<WIDTH>(sums, columns, WIDTH * j, x[j]);
        sums = next;
    }
    sums
}

// The same by columns of 16 entries, into `out`, which stays as it is where they are not there: a system that is evaluated
// may have any dimension.
pub fn wide_product(columns: &[f64], d: usize, x: &[f64; 16], out: &mut [f64; 16])
    ensures { (length out.new ≡ 16)
        × ((m : List Float) → Held d m columns.now → take d out.new ≡ times (chunks d d m) (take d x.now)) }
{
    if d > 16 {
        return;
    }
    if columns.len() < 16 * d {
        return;
    }
    let sums = product::<16>(columns, d, x);
    *out = sums;
}

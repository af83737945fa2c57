// The Lorenz 96 ring: the derivatives of its cells, two cells at a time.
//
// `vector_field` and `jacobian_vector_product` equal `ring_field` and `ring_tangent` of specs/Ring.antt: start reading there.
// Crate system has the ring as one of its systems, crate system_validation its tests; only crate system calls these two.
//
// A cell needs the one after it and the two before it. The loops carry them along and load each pair of cells once, so that
// pairs stay whole between memory and registers: a pair that is loaded from two stores has to wait for both. The tangent map's
// loop carries two stencils where the field's carries one, so they stay two. `Cells` is asked of the parts, since both functions
// look at the count once, before their loop. The cell after a stencil comes from the next pair, so it is passed beside it.
#![tactic(auto)]

ghost use Rattle.std.specs.Prelude.{◌≡◌, ℕ, ◌+◌, ◌%◌, ◌≤◌, ◌<◌, List, length, take, Float};
ghost use Rattle.lorenz96.specs.Ring.{ring, cell_field, cell_tangent, ring_field, ring_tangent};
ghost use Rattle.lorenz96.specs.Around.{Cells, Around, Following};

// A cell and the two before it.
#[derive(Clone, Copy)]
struct Stencil {
    two_before: f64,
    before: f64,
    own: f64,
}

// Two cells that lie side by side.
#[derive(Clone, Copy)]
struct Pair {
    first: f64,
    second: f64,
}

// The index k of a ring, which is at most one past the last.
fn wrapped(k: usize, cells: usize) -> usize
    requires { (0 < cells) × (k ≤ cells) }
    ensures { result ≡ k % cells }
{
    if k < cells {
        return k;
    }
    0
}

// The two cells after the next one, where i is the first of a pair. The second is no cell where an odd ring ends before it.
fn next_pair(x: &[f64; 16], cells: usize, i: usize) -> Pair
    requires { Cells cells × (i % 2 ≡ 0) × (i + 1 < cells) }
    ensures { Following cells x.now i result }
{
    let k = wrapped(i + 2, cells);
    Pair {
        first: x[k],
        second: x[k + 1],
    }
}

// Around cell 0.
fn first_stencil(x: &[f64; 16], cells: usize) -> Stencil
    requires { Cells cells }
    ensures { Around cells x.now 0 result }
{
    Stencil {
        two_before: x[cells - 2],
        before: x[cells - 1],
        own: x[0],
    }
}

// Around the next cell, `after`.
fn shifted(s: Stencil, after: f64) -> Stencil
    ensures { (n : ℕ) (v : List Float) (i : ℕ) → 0 < n → Around n v i s → after ≡ ring n v (i + 1) → Around n v (i + 1) result }
{
    Stencil {
        two_before: s.before,
        before: s.own,
        own: after,
    }
}

// The derivative of a cell, which has `after` after it.
fn cell_field(s: Stencil, after: f64, forcing: f64) -> f64
    ensures { (n : ℕ) (v : List Float) (i : ℕ) → Around n v i s → after ≡ ring n v (i + 1) → result ≡ cell_field n forcing (ring n v) i }
{
    ((after - s.two_before) * s.before - s.own) + forcing
}

// That of a direction's entry, where the state is s and the direction u.
fn cell_tangent(s: Stencil, s_after: f64, u: Stencil, u_after: f64) -> f64
    ensures { (n : ℕ) (v t : List Float) (i : ℕ) → Around n v i s → s_after ≡ ring n v (i + 1) → Around n t i u → u_after ≡ ring n t (i + 1)
        → result ≡ cell_tangent n (ring n v) (ring n t) i }
{
    ((s_after - s.two_before) * u.before + s.before * (u_after - u.two_before)) - u.own
}

// The vector field at x, at the front of `out`, which stays as it is where there are not 4 to 16 cells.
pub fn vector_field(cells: usize, forcing: f64, x: &[f64; 16], out: &mut [f64; 16])
    ensures { (length out.new ≡ 16)
        × (Cells cells → take cells out.new ≡ ring_field cells forcing (take cells x.now)) }
{
    if cells < 4 {
        return;
    }
    if cells > 16 {
        return;
    }
    let mut s = first_stencil(x, cells);
    let mut after = x[1];
    for pair in 0..cells / 2 {
        let i = 2 * pair;
        let next = next_pair(x, cells, i);
        let middle = shifted(s, after);
        out[i] = cell_field(s, after, forcing);
        out[i + 1] = cell_field(middle, next.first, forcing);
        s = shifted(middle, next.first);
        after = next.second;
    }
    if cells % 2 == 1 {
        out[cells - 1] = cell_field(s, x[0], forcing);
    }
}

// Its tangent map, of the direction t at the state x.
pub fn jacobian_vector_product(cells: usize, x: &[f64; 16], t: &[f64; 16], out: &mut [f64; 16])
    ensures { (length out.new ≡ 16)
        × (Cells cells → take cells out.new ≡ ring_tangent cells (take cells x.now) (take cells t.now)) }
{
    if cells < 4 {
        return;
    }
    if cells > 16 {
        return;
    }
    let mut s = first_stencil(x, cells);
    let mut s_after = x[1];
    let mut u = first_stencil(t, cells);
    let mut u_after = t[1];
    for pair in 0..cells / 2 {
        let i = 2 * pair;
        let next = next_pair(x, cells, i);
        let along = next_pair(t, cells, i);
        let s1 = shifted(s, s_after);
        let u1 = shifted(u, u_after);
        out[i] = cell_tangent(s, s_after, u, u_after);
        out[i + 1] = cell_tangent(s1, next.first, u1, along.first);
        s = shifted(s1, next.first);
        u = shifted(u1, along.first);
        s_after = next.second;
        u_after = along.second;
    }
    if cells % 2 == 1 {
        out[cells - 1] = cell_tangent(s, x[0], u, t[0]);
    }
}

// The systems of fixed dimension: a field and a tangent map each, and one function that chooses among them.
//
// A state or direction has 2 or 3 entries, at the front of an array of 16, and so has what is returned, with zeros behind
// (specs/Array.antt). No function here lends on a whole array, so that the caller's stay in registers. Another such system
// adds its two formulas and an arm to `fixed_field` and `fixed_tangent`, which ask for a `Fixed` system: a type of those three
// alone would be a second enum of systems.
ghost use Rattle.std.specs.Prelude.{◌≡◌, List, [], Float};
ghost use Rattle.system.specs.System.{field, tangent};
ghost use Rattle.system.specs.Array.{in16};
ghost use Rattle.system.specs.Evaluation.{Fixed};

use crate::System;

fn lorenz_field(sigma: f64, rho: f64, beta: f64, s: &[f64; 16]) -> [f64; 16]
    ensures { result ≡ in16 (field (System.Lorenz sigma rho beta) [] s.now) }
{
    let x = s[0];
    let y = s[1];
    let z = s[2];
    let mut out = [0.0; 16];
    out[0] = sigma * (y - x);
    out[1] = x * (rho - z) - y;
    out[2] = x * y - beta * z;
    out
}

fn lorenz_tangent(sigma: f64, rho: f64, beta: f64, s: &[f64; 16], t: &[f64; 16]) -> [f64; 16]
    ensures { result ≡ in16 (tangent (System.Lorenz sigma rho beta) [] s.now t.now) }
{
    let x = s[0];
    let y = s[1];
    let z = s[2];
    let u = t[0];
    let v = t[1];
    let w = t[2];
    let mut out = [0.0; 16];
    out[0] = sigma * (v - u);
    out[1] = ((rho - z) * u - v) - x * w;
    out[2] = (y * u + x * v) - beta * w;
    out
}

fn rossler_field(a: f64, b: f64, c: f64, s: &[f64; 16]) -> [f64; 16]
    ensures { result ≡ in16 (field (System.Rossler a b c) [] s.now) }
{
    let x = s[0];
    let y = s[1];
    let z = s[2];
    let mut out = [0.0; 16];
    out[0] = -y - z;
    out[1] = x + a * y;
    out[2] = b + z * (x - c);
    out
}

// The tangent map does not read b: in the contract c stands in its place.
fn rossler_tangent(a: f64, c: f64, s: &[f64; 16], t: &[f64; 16]) -> [f64; 16]
    ensures { result ≡ in16 (tangent (System.Rossler a c c) [] s.now t.now) }
{
    let x = s[0];
    let z = s[2];
    let u = t[0];
    let v = t[1];
    let w = t[2];
    let mut out = [0.0; 16];
    out[0] = -v - w;
    out[1] = u + a * v;
    out[2] = z * u + (x - c) * w;
    out
}

fn van_der_pol_field(mu: f64, s: &[f64; 16]) -> [f64; 16]
    ensures { result ≡ in16 (field (System.VanDerPol mu) [] s.now) }
{
    let x = s[0];
    let y = s[1];
    let mut out = [0.0; 16];
    out[0] = y;
    out[1] = (mu * (1.0 - x * x)) * y - x;
    out
}

fn van_der_pol_tangent(mu: f64, s: &[f64; 16], t: &[f64; 16]) -> [f64; 16]
    ensures { result ≡ in16 (tangent (System.VanDerPol mu) [] s.now t.now) }
{
    let x = s[0];
    let y = s[1];
    let u = t[0];
    let v = t[1];
    let mut out = [0.0; 16];
    out[0] = v;
    out[1] = (((-2.0 * mu) * x) * y - 1.0) * u + (mu * (1.0 - x * x)) * v;
    out
}

// The vector field of a system of fixed dimension.
pub fn fixed_field(system: System, x: &[f64; 16]) -> [f64; 16]
    requires { Fixed system }
    ensures { (m : List Float) → result ≡ in16 (field system m x.now) }
{
    match system {
        System::Lorenz { sigma, rho, beta } => lorenz_field(sigma, rho, beta, x),
        System::Rossler { a, b, c } => rossler_field(a, b, c, x),
        System::VanDerPol { mu } => van_der_pol_field(mu, x),
        _ => [0.0; 16],
    }
}

// Its tangent map, of the direction t at the state x.
pub fn fixed_tangent(system: System, x: &[f64; 16], t: &[f64; 16]) -> [f64; 16]
    requires { Fixed system }
    ensures { (m : List Float) → result ≡ in16 (tangent system m x.now t.now) }
{
    match system {
        System::Lorenz { sigma, rho, beta } => lorenz_tangent(sigma, rho, beta, x, t),
        System::Rossler { a, b: _, c } => rossler_tangent(a, c, x, t),
        System::VanDerPol { mu } => van_der_pol_tangent(mu, x, t),
        _ => [0.0; 16],
    }
}

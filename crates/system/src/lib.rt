// The systems of documents 01 and 02: dimension, vector field and tangent map of each (source: system.rs).
//
// Every function equals a definition of specs/System.antt: start reading there. `vector_field` and
// `jacobian_vector_product` evaluate any system. fixed.rt has the formulas of the systems of fixed dimension, crate matrix the
// product with the matrix of a linear one, crate lorenz96 the cells of a ring, crate system_validation the tests of a system
// and of what is lent beside it. specs/Evaluation.antt only says what evaluating a system asks for.
//
// Another system adds a case to `System` and to `dim`, `field` and `tangent` of specs/System.antt, an arm to each function
// below, and its formulas, in fixed.rt or in a file of its own.
#![tactic(auto)]

pub mod fixed;

ghost use Rattle.std.specs.Prelude.{◌≡◌, List, length, take, Float};
ghost use Rattle.system.specs.System.{dim, field, tangent};
ghost use Rattle.system.specs.System as Spec;
ghost use Rattle.system.specs.Evaluation.{Columns};

// Each choice holds its own parameters. The matrix of a linear system is lent beside it. This is the project's form of a system
// (document 01), so functions choose by `match`; a field and its tangent map stay two functions, of different formulas.
#[derive(Clone, Copy)]
pub enum System {
    Lorenz { sigma: f64, rho: f64, beta: f64 },
    Rossler { a: f64, b: f64, c: f64 },
    VanDerPol { mu: f64 },
    Linear(usize),
    Lorenz96 { cells: usize, forcing: f64 },
}

// The number of entries of a state.
pub fn dimension(system: System) -> usize
    ensures { result ≡ dim system }
{
    match system {
        System::Lorenz {
            sigma: _,
            rho: _,
            beta: _,
        } => 3,
        System::Rossler { a: _, b: _, c: _ } => 3,
        System::VanDerPol { mu: _ } => 2,
        System::Linear(d) => d,
        System::Lorenz96 { cells, forcing: _ } => cells,
    }
}

// Whether a lent matrix fits the system: only a linear system has one. A dimension of 2^32 or more has no matrix.
pub fn matrix_fits(system: System, matrix: &[f64]) -> bool
    ensures { result ≡ Spec.matrix_fits system matrix.now }
{
    match system {
        System::Lorenz {
            sigma: _,
            rho: _,
            beta: _,
        } => true,
        System::Rossler { a: _, b: _, c: _ } => true,
        System::VanDerPol { mu: _ } => true,
        System::Linear(d) => {
            if d < 4294967296 {
                matrix.len() == d * d
            } else {
                false
            }
        }
        System::Lorenz96 {
            cells: _,
            forcing: _,
        } => true,
    }
}

// Whether a ring has enough cells: the other systems have none.
pub fn cells_fit(system: System) -> bool
    ensures { result ≡ Spec.cells_fit system }
{
    if let System::Lorenz96 { cells, forcing: _ } = system {
        cells >= 4
    } else {
        true
    }
}

// The vector field of any system at x, at the front of `out`. `columns` has the matrix of a linear system, in columns of 16
// entries; the others do not read it. The result is lent and not returned: the caller's arrays are in memory, and a copy of
// 16 floats costs as much as a small field.
pub fn vector_field(system: System, columns: &[f64], x: &[f64; 16], out: &mut [f64; 16])
    ensures { (length out.new ≡ 16)
        × ((m : List Float) → Columns system m columns.now → take (dim system) out.new ≡ field system m (take (dim system) x.now)) }
{
    match system {
        System::Linear(d) => matrix::wide_product(columns, d, x, out),
        System::Lorenz96 { cells, forcing } => lorenz96::vector_field(cells, forcing, x, out),
        _ => {
            let entries = fixed::fixed_field(system, x);
            *out = entries;
        }
    }
}

// Its tangent map, of the direction t at the state x.
pub fn jacobian_vector_product(
    system: System,
    columns: &[f64],
    x: &[f64; 16],
    t: &[f64; 16],
    out: &mut [f64; 16],
)
    ensures { (length out.new ≡ 16)
        × ((m : List Float) → Columns system m columns.now → take (dim system) out.new ≡ tangent system m (take (dim system) x.now) (take (dim system) t.now)) }
{
    match system {
        System::Linear(d) => matrix::wide_product(columns, d, t, out),
        System::Lorenz96 { cells, forcing: _ } => lorenz96::jacobian_vector_product(
            cells, x, t, out,
        ),
        _ => {
            let entries = fixed::fixed_tangent(system, x, t);
            *out = entries;
        }
    }
}

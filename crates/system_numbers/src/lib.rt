// A system as numbers: its kind, three parameters and a dimension, as C hands it over and as memory holds it.
//
// specs/Numbers.antt says which system numbers stand for, and which numbers stand for a system.
#![tactic(auto)]

ghost use Rattle.std.specs.Prelude.{◌≡◌};
ghost use Rattle.system_numbers.specs.Numbers as Numbers;

use system::System;

// The kind of a system, its parameters and its dimension.
#[derive(Clone, Copy)]
pub struct Numbered {
    pub kind: u64,
    pub p0: f64,
    pub p1: f64,
    pub p2: f64,
    pub dimension: usize,
}

impl From<System> for Numbered {
    ghost from_gives = { λ system numbered. numbered ≡ Numbers.numbers system };

    fn from(system: System) -> Numbered {
        let dimension = system::dimension(system);
        match system {
            System::Lorenz { sigma, rho, beta } => Numbered {
                kind: 0,
                p0: sigma,
                p1: rho,
                p2: beta,
                dimension,
            },
            System::Rossler { a, b, c } => Numbered {
                kind: 1,
                p0: a,
                p1: b,
                p2: c,
                dimension,
            },
            System::VanDerPol { mu } => Numbered {
                kind: 2,
                p0: mu,
                p1: 0.0,
                p2: 0.0,
                dimension,
            },
            System::Linear(_d) => Numbered {
                kind: 3,
                p0: 0.0,
                p1: 0.0,
                p2: 0.0,
                dimension,
            },
            System::Lorenz96 { cells: _, forcing } => Numbered {
                kind: 4,
                p0: forcing,
                p1: 0.0,
                p2: 0.0,
                dimension,
            },
        }
    }
}

// A kind that names no system names a linear one of dimension 0, which no run takes.
impl From<Numbered> for System {
    ghost from_gives = { λ n system. system ≡ Numbers.system n.kind n.p0 n.p1 n.p2 n.dimension };

    fn from(n: Numbered) -> System {
        match n.kind {
            0 => System::Lorenz {
                sigma: n.p0,
                rho: n.p1,
                beta: n.p2,
            },
            1 => System::Rossler {
                a: n.p0,
                b: n.p1,
                c: n.p2,
            },
            2 => System::VanDerPol { mu: n.p0 },
            3 => System::Linear(n.dimension),
            4 => System::Lorenz96 {
                cells: n.dimension,
                forcing: n.p0,
            },
            _ => System::Linear(0),
        }
    }
}

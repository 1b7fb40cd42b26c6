//! Numbers of things. Contracts see each as a number.
use std::marker::Model;

/// A call of the rotation. Calls count from 1; 0 stands for the arrival.
#[derive(Clone, Copy, PartialEq, Eq, PartialOrd, Ord)]
pub struct CallNo(pub u32);

impl Model for CallNo {
    ghost use Rattle.std.specs.Prelude.{ℕ};

    ghost Value = { ℕ };

    ghost view = { λ n. n.0 };

    ghost inverse = { λ n. record { 0 = n } };
}

/// A container of the cargo, from 0.
#[derive(Clone, Copy, PartialEq, Eq)]
pub struct ContainerNo(pub u32);

impl Model for ContainerNo {
    ghost use Rattle.std.specs.Prelude.{ℕ};

    ghost Value = { ℕ };

    ghost view = { λ n. n.0 };

    ghost inverse = { λ n. record { 0 = n } };
}

/// A kind of containers, from 0.
#[derive(Clone, Copy, PartialEq, Eq, PartialOrd, Ord)]
pub struct KindNo(pub u32);

impl Model for KindNo {
    ghost use Rattle.std.specs.Prelude.{ℕ};

    ghost Value = { ℕ };

    ghost view = { λ n. n.0 };

    ghost inverse = { λ n. record { 0 = n } };
}

/// A stack of the ship, from 0, in the order of the profile.
#[derive(Clone, Copy, PartialEq, Eq, PartialOrd, Ord)]
pub struct StackNo(pub u32);

impl Model for StackNo {
    ghost use Rattle.std.specs.Prelude.{ℕ};

    ghost Value = { ℕ };

    ghost view = { λ n. n.0 };

    ghost inverse = { λ n. record { 0 = n } };
}

/// A hatch cover, from 0, in the order of the profile.
#[derive(Clone, Copy, PartialEq, Eq)]
pub struct CoverNo(pub u32);

impl Model for CoverNo {
    ghost use Rattle.std.specs.Prelude.{ℕ};

    ghost Value = { ℕ };

    ghost view = { λ n. n.0 };

    ghost inverse = { λ n. record { 0 = n } };
}

/// A half-cell, from 0: by stack, then tier from the bottom, then fore before aft.
#[derive(Clone, Copy, PartialEq, Eq, PartialOrd, Ord)]
pub struct HalfNo(pub u32);

impl Model for HalfNo {
    ghost use Rattle.std.specs.Prelude.{ℕ};

    ghost Value = { ℕ };

    ghost view = { λ n. n.0 };

    ghost inverse = { λ n. record { 0 = n } };
}

/// A place, from 0: by stack, then tier from the bottom, then fore, aft, both.
#[derive(Clone, Copy, PartialEq, Eq, PartialOrd, Ord)]
pub struct PlaceNo(pub u32);

impl Model for PlaceNo {
    ghost use Rattle.std.specs.Prelude.{ℕ};

    ghost Value = { ℕ };

    ghost view = { λ n. n.0 };

    ghost inverse = { λ n. record { 0 = n } };
}

/// A variable of the 0-1 program, from 0.
#[derive(Clone, Copy, PartialEq, Eq)]
pub struct VarNo(pub u32);

impl Model for VarNo {
    ghost use Rattle.std.specs.Prelude.{ℕ};

    ghost Value = { ℕ };

    ghost view = { λ n. n.0 };

    ghost inverse = { λ n. record { 0 = n } };
}
